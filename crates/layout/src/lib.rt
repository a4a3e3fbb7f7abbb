// Windows of cells in slices, as every store of windows has them.
#![tactic(auto)]

mod cells;
mod changes;
mod layout;
mod slots;

pub use cells::Cells;
pub use layout::Layout;
