// Where the run at a place stands, among the cells in use of its partition.
ghost use Rattle.layout.specs.Windows.{Keyed, Ranged, PutSlot, HeldSlot};

use crate::layout::Layout;
use arrays::Keys;
use keys::{Key, Place};
use std::ops::Range;
use store::Refusal;

impl Layout {
    // Where the run at a place begins and ends.
    pub(crate) fn range<K: Key>(self, keys: &[K], lengths: &[u64], place: &Place<K>) -> Range<usize>
        requires { Keyed K.cmp keys.now lengths.now self.window self.partitions }
        ensures { Ranged K.cmp keys.now lengths.now self.window self.partitions place.now result.start result.end }
    {
        Keys::new(self.used(keys, lengths, place.partition)).run_range(&place.key)
    }

    // How many cells of the partition are in use, and in which of them a value put at an offset of the run goes.
    pub(crate) fn put_slot<K: Key>(
        self,
        keys: &[K],
        lengths: &[u64],
        place: &Place<K>,
        offset: u64,
    ) -> Result<(usize, usize), Refusal>
        requires { Keyed K.cmp keys.now lengths.now self.window self.partitions }
        ensures { PutSlot K.cmp keys.now lengths.now self.window self.partitions place.now offset result }
    {
        if self.space(lengths, place.partition) == 0 {
            return Err(Refusal::NoSpace);
        }
        let Range { start, end } = self.range(keys, lengths, place);
        if offset > (end - start) as u64 {
            return Err(Refusal::PastEnd);
        }
        let len = lengths[place.partition as usize] as usize;
        Ok((len, start + offset as usize))
    }

    // How many cells of the partition are in use, and which of them holds the value at an offset of the run.
    pub(crate) fn held_slot<K: Key>(
        self,
        keys: &[K],
        lengths: &[u64],
        place: &Place<K>,
        offset: u64,
    ) -> Result<(usize, usize), Refusal>
        requires { Keyed K.cmp keys.now lengths.now self.window self.partitions }
        ensures { HeldSlot K.cmp keys.now lengths.now self.window self.partitions place.now offset result }
    {
        let Range { start, end } = self.range(keys, lengths, place);
        if offset >= (end - start) as u64 {
            return Err(Refusal::PastEnd);
        }
        let len = lengths[place.partition as usize] as usize;
        Ok((len, start + offset as usize))
    }
}
