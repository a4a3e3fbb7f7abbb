// Searches and changes in sorted arrays that are handed in, as slices.
#![tactic(auto)]

mod bounds;
mod cells;
mod runs;

pub use bounds::Keys;
pub use cells::{insert_at, remove_at, remove_run, set, value_at};
pub use runs::Runs;
