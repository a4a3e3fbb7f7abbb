// Keys and their one order: numbers, labels, and places of any key.
#![tactic(auto)]

mod key;
mod label;
mod place;

pub use key::Key;
pub use label::Label;
pub use place::Place;
