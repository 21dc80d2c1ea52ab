//! The outside, as traits: where bytes come from and where they go.
//!
//! A [`Source`] gives bytes and a [`Sink`] takes them. Each keeps a count of its faults that never
//! falls, and each of its calls may fail only where that count rises, so a function over them can
//! say that it answers a fault only where the outside failed. [`read_all`] and [`write_all`] are the
//! two loops that every program over them needs. There are forms in memory, whose calls fail exactly
//! where a test's [`FaultPlan`] says or the room ends, forms that never fail, and adapters of std's
//! readers and writers. A folder, a net and a link each answer an [`OutFault`] where a call is refused,
//! which tells that the outside failed apart from running out of memory.
//!
//! Stands on nothing but std. Keeps: a count rises with each fault and with nothing else, and what a
//! form in memory holds is told to contracts. A call takes memory only where its comment says so.
//! Knows nothing of modules, scripts or messages.
#![tactic(auto)]

mod clean;
mod fault_plan;
mod mem_sink;
mod mem_source;
mod out_fault;
mod outside;
mod read;
mod std_streams;
mod write;

pub use clean::{CleanSink, CleanSource};
pub use fault_plan::FaultPlan;
pub use mem_sink::MemSink;
pub use mem_source::MemSource;
pub use out_fault::OutFault;
pub use outside::{Failed, Sink, Source};
pub use read::{ReadFault, read_all};
pub use std_streams::{StdSink, StdSource};
pub use write::{WriteFault, write_all};
