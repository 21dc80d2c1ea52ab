//! The world: one core, its open clients, and the jobs whose results haven't come; each step of it, with the
//! lines that the step writes.
//!
//! Stands on `world_parts`, `server_core` and `hot_runtime`, and on the definitions of the world and what is
//! promised of its runs. Keeps: a [`World`] stands for a run, the list of its steps so far, as the relation
//! `StandsFor` says; so what is promised of every run holds of it. In a turn both messages go as the bytes
//! of their JSON. A call takes memory only where its result can say that memory ran out. Knows nothing of
//! scripts or of the text of lines.
#![tactic(auto)]

mod clients;
mod edits;
mod events;
mod fires;
mod looks;
mod opens;
mod settles;
mod turns;
mod world;

pub use world::World;
