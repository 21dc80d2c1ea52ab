//! The script that a number of modules and a seed give, and the line that sums its run up.
//!
//! A script is made as values: the page is loaded, and then a module of it is edited eight times, with turns
//! after each edit. The summary of its run is read off the lines of the run. Stands on what a script is as
//! values, and on the lines and their bytes. Keeps: the script and the summary are those of the definitions,
//! of which worked examples stand among the lemmas. A call takes memory only where its result can say that
//! memory ran out. Knows nothing of worlds, nor of how a script is played.
#![tactic(auto)]

mod draws;
mod made_script;
mod module_text;
mod run_summary;

pub use made_script::{Generated, generate};
pub use run_summary::{count_instances, summary};
