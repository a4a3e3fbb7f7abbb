// How often a store has moved a partition to its side.
use keys::Key;
use pile::Pile;
use side::SideTable;
use store::{Store, Windowed};
use windows::{Pocket, WindowStore};

// Only a pile counts spills.
pub trait Spills {
    fn spilled(&self) -> Option<u64> {
        None
    }
}

impl<K: Key, V> Spills for SideTable<'_, K, V> {}

impl<K: Key, V> Spills for WindowStore<'_, K, V> {}

impl Spills for Pocket {}

impl<W: Windowed, S: Store<Key = W::Key, Value = W::Value>> Spills for Pile<W, S> {
    fn spilled(&self) -> Option<u64> {
        Some(self.spills())
    }
}
