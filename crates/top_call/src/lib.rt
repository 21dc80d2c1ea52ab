//! The top call: words and an input to a status, over whatever outside it is given.
//!
//! `hmr play` reads a script, plays it, and writes the lines of each step as the step is made; `hmr check
//! NAME` reads a module text and writes what there is to tell of it; `hmr make N SEED` plays a script that
//! is generated and writes a summary of its run. `hmr serve FOLDER ROOT..` serves the modules of a folder
//! over connections and writes the report of its one transcript; `hmr join PORT` is one client of such a
//! server, and writes its lines as they come; `hmr page FOLDER` answers HTTP requests of the input by the
//! modules of a folder. Stands on every other crate but those that make the real outside. Keeps: what the
//! first three write is a prefix of the definition's text of the words and of the bytes read, and the
//! whole of it at status 0; what `serve`, `join` and `page` write is that of a run that is stated. Knows
//! nothing of which input, output, folder, net and threads it is given.
#![tactic(auto)]

mod embedding;
mod join;
mod page;
mod serve;
mod top;

pub use embedding::Embedding;
pub use folder_server::Outside;
pub use top::run;
