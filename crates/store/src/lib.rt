// What every store means, its interface, and the refusals of the lot book.
#![tactic(auto)]

mod refusal;
mod store;

pub use refusal::Refusal;
pub use store::{Store, Windowed};
