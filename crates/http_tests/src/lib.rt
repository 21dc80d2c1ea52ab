//! Tests of HTTP that the program can't show: exchanges over an outside that fails or gives a few bytes at a
//! time, and the modules of a version map that is edited between two requests.
//!
//! Stands on `http_exchange` and `http_modules`, and no crate stands on it. Keeps: what is expected is
//! written by hand. Knows nothing of folders or commands; what heads ask is tested over the program.
#![tactic(auto)]

#[cfg(test)]
mod exchange_tests;
#[cfg(test)]
mod module_tests;
