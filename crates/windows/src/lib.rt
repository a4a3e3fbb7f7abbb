// Stores whose partitions have a window of cells each.
#![tactic(auto)]

mod pocket;
mod windows;

pub use pocket::Pocket;
pub use windows::{WIDEST, WindowStore};
