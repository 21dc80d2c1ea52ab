//! The meaning of module texts, as definitions and laws: what the tokens of a text are, which texts
//! read as which module, what the first fault of the others is, what the one canonical text of a
//! module is and that it reads back, what its analysis tells, and what its evaluation gives.
//!
//! Stands on the vocabulary alone. Nothing of it runs: each public function has an empty body, and its
//! clauses are laws or worked examples of the definitions in specs/. Keeps: each definition that
//! computes is tied by a law to a relation that speaks of whole texts. Knows nothing of the code that
//! reads texts or evaluates modules, of clients or of versions.
#![tactic(auto)]

mod analysis_examples;
mod analysis_laws;
mod canon;
mod evaluation;
mod evaluation_examples;
mod evaluation_laws;
mod grammar;
mod scanning;
mod text;
mod tokens;

pub use analysis_examples::{
    first_specifier_is_the_fault, imports_are_few, names_come_once_in_order,
};
pub use analysis_laws::{analyses_are_well_made, memory_is_never_meant};
pub use canon::{canon_reads_back, only_what_fits_is_read};
pub use evaluation::{Env, ModParam, Registered};
pub use evaluation_examples::{
    faults_of_bodies, faults_of_modules, handlers_register_in_order, imports_stand_still,
    keys_keep_their_order, lines, members_and_keys, numbers_are_whole_and_in_range,
    only_what_is_wanted_is_evaluated, texts_are_joined,
};
pub use evaluation_laws::{
    a_fault_ends_all, bags_stay_bags, variables_are_the_declared_names, what_was_made_stays,
};
pub use grammar::{reading_is_the_grammar, the_too_deep_stands_first, the_unexpected_stands_first};
pub use scanning::ScanFault;
pub use text::{faults_stand_first, parsing_is_reading};
pub use tokens::{
    After, LexFault, LexKind, faults_are_the_rules, lexing_is_the_pieces, none_is_longer,
};
