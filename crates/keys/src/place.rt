// Places: where a run of values stands.
ghost use Rattle.keys.specs.Laws.{places_lawful};

use crate::key::Key;

// A partition number and a key, compared by the partition first.
#[derive(Clone, Copy, Default, PartialEq, Eq, PartialOrd, Ord)]
pub struct Place<K> {
    pub partition: u64,
    pub key: K,
}

impl<K: Key> Key for Place<K> {
    ghost lawful = { places_lawful K.cmp K.lawful };
}
