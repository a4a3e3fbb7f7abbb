// The words of a script's line: numbers, keys and values, and why a line is wrong.
#![tactic(auto)]

mod digits;
mod reason;
mod words;

pub use digits::{grams, key_bytes, label_bytes, number, small_number};
pub use reason::Reason;
pub use words::{SubkeyWord, ValueWord, Words};
