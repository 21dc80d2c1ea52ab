//! The site of a live server of real JavaScript: what its core is told of each file of the folder, and what
//! browsers are answered.
//!
//! A [`ScriptSite`] reads each file by its kind and keeps it by name and version. A browser that loads a
//! page has the last good version of each file at its path; one that takes up a change has what the page
//! told of its plan, at URLs that name the plan. What a page's client asks stands below `/@hmr/`.
//!
//! Stands on the scans (`es_scan`, `html_scan`, `css_scan`) and on what is made of them: skeletons
//! (`skeletons`, `page_skeletons`), texts (`browser_texts`, `page_texts`) and reports (`scan_reports`);
//! on `told_plans` and `file_store` for plans and versions, on `live_answers` for HTTP and on
//! `live_site`, whose trait it is. Keeps: what a core is told has at most 131,072 bytes; what is answered
//! is an answer to the head. A call takes memory only where it can return `AllocError`, or where its
//! comment says so. Knows nothing of hubs, of connections, and of how the folder is looked at.
#![tactic(auto)]

mod about;
mod file_kind;
mod folder;
mod imported;
mod paths;
mod plans;
mod query;
mod reading;
mod scanned;
mod sending;
mod site;
mod site_state;

pub use reading::ReadFile;
pub use site::ScriptSite;
