// The lot book: runs of values under byte keys, over any store.
#![tactic(auto)]

mod book;
mod counts;
mod read;
mod weighing;

pub use book::Book;
pub use counts::Counts;
pub use weighing::Weighing;
