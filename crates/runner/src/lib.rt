// Runs a script over books: one line of answer for each line that is no comment.
#![tactic(auto)]

mod answer;
mod desk;
mod fault;
mod memory;
mod neighbours;
mod open;
mod run;
mod session;
mod spills;
mod subkey;
mod value;

pub use answer::Report;
pub use run::run_script;
