// The reads of a store of windows.
ghost use Rattle.std.specs.Prelude.{◌≡◌, length};
ghost use Rattle.std.specs.Option.{option_map};
ghost use Rattle.std.specs.List.{slice_get};
ghost use Rattle.keys.specs.Order.{before};
ghost use Rattle.contents.specs.Sorted.{Sorted};
ghost use Rattle.layout.specs.Windows.{spot, ahead, used, Sorts};

use crate::layout::Layout;
use arrays::{Keys, Runs};
use keys::{Key, Place};

// Windows that are read: keys and values alongside, and how many of each window are in use.
#[derive(Drop)]
pub struct Cells<'a, K: Key, V> {
    keys: &'a [K],
    values: &'a [V],
    lengths: &'a [u64],
    layout: Layout,
    ghost sorts: { Sorts K.cmp keys.now values.now lengths.now layout.window layout.partitions },
}

impl<'a, K: Key, V: Copy> Cells<'a, K, V> {
    ghost use Rattle.contents.specs.Entries.{none};
    ghost use Rattle.store.specs.Meaning.{run_at, first_in, last_in, next_in, previous_in};
    ghost use Rattle.layout.specs.Windows.{cells_meaning};
    ghost use Rattle.layout.specs.Cells.{meaning};

    // The windows in these slices.
    pub fn new(
        keys: &'a [K],
        values: &'a [V],
        lengths: &'a [u64],
        layout: Layout,
    ) -> Cells<'a, K, V>
        requires { Sorts K.cmp keys.now values.now lengths.now layout.window layout.partitions }
        ensures { meaning result ≡ cells_meaning keys.now values.now lengths.now layout.window layout.partitions }
    {
        Cells {
            keys,
            values,
            lengths,
            layout,
        }
    }

    // How many values the run at a place has.
    pub fn run_len(&self, place: &Place<K>) -> u64
        ensures { result ≡ length (run_at K.cmp (meaning self.now) place.now) }
    {
        self.layout.range(self.keys, self.lengths, place).len() as u64
    }

    // The value at an offset of the run at a place.
    pub fn value_at(&self, place: &Place<K>, offset: u64) -> Option<V>
        ensures { result ≡ slice_get (run_at K.cmp (meaning self.now) place.now) offset }
    {
        let keys = self.used(place.partition);
        let cells = self.layout.used(self.values, self.lengths, place.partition);
        let run = Runs::new(keys, cells).values(&place.key);
        run.get(offset as usize).copied()
    }

    // The keys in use of a partition.
    fn used(&self, partition: u64) -> &'a [K]
        ensures is { result.now ≡ used self.now.keys.now self.now.lengths.now self.now.layout.window self.now.layout.partitions partition }
        ensures sorted { Sorted (before K.cmp) result.now }
    {
        self.layout.used(self.keys, self.lengths, partition)
    }

    // The least place of a partition.
    pub fn first_in(&self, partition: u64) -> Option<Place<K>>
        ensures { result ≡ first_in K.cmp (meaning self.now) partition }
    {
        place_at(self.used(partition), partition, 0)
    }

    // The greatest place of a partition.
    pub fn last_in(&self, partition: u64) -> Option<Place<K>>
        ensures { result ≡ last_in K.cmp (meaning self.now) partition }
    {
        let used = self.used(partition);
        place_before(used, partition, used.len())
    }

    // The least place after a place, in its partition.
    pub fn next_in(&self, place: &Place<K>) -> Option<Place<K>>
        ensures { result ≡ next_in K.cmp (meaning self.now) place.now }
    {
        let used = self.used(place.partition);
        let next = Keys::new(used).upper_bound(&place.key);
        place_at(used, place.partition, next)
    }

    // The greatest place before a place, in its partition.
    pub fn previous_in(&self, place: &Place<K>) -> Option<Place<K>>
        ensures { result ≡ previous_in K.cmp (meaning self.now) place.now }
    {
        let used = self.used(place.partition);
        let bound = Keys::new(used).lower_bound(&place.key);
        place_before(used, place.partition, bound)
    }

    // How many cells of a partition are not in use.
    pub fn space(&self, partition: u64) -> u64
        ensures { result ≡ (meaning self.now).space partition }
    {
        self.layout.space(self.lengths, partition)
    }

    // Whether no cell is in use.
    pub fn is_empty(&self) -> bool
        ensures { result ≡ none (meaning self.now).contents }
    {
        let lengths = &self.lengths[..self.layout.partitions as usize];
        lengths.iter().all(|n| *n == 0)
    }
}

// The place of the key at `idx`, if that many are there.
fn place_at<K: Key>(keys: &[K], partition: u64, idx: usize) -> Option<Place<K>>
    ensures { result ≡ option_map (spot partition) (slice_get keys.now idx) }
{
    let key = *keys.get(idx)?;
    Some(Place { partition, key })
}

// The place of the key before `idx`, if there is one.
fn place_before<K: Key>(keys: &[K], partition: u64, idx: usize) -> Option<Place<K>>
    ensures { result ≡ option_map (spot partition) (ahead keys.now idx) }
{
    place_at(keys, partition, idx.checked_sub(1)?)
}
