// The window store: windows of cells over memory handed in.
ghost use Rattle.std.specs.Prelude.{◌≡◌, false, length};
ghost use Rattle.layout.specs.Windows.{fitting, opened, Sorts};

use keys::{Key, Place};
use layout::{Cells, Layout};
use store::{Refusal, Store, Windowed};

// The most cells of a window.
pub const WIDEST: u64 = 512;

#[derive(Drop)]
pub struct WindowStore<'a, K: Key, V> {
    keys: &'a mut [K],
    values: &'a mut [V],
    lengths: &'a mut [u64],
    layout: Layout,
    ghost sorts: { Sorts K.cmp keys.now values.now lengths.now layout.window layout.partitions },
}

// Whether so many cells of keys and of values are just what the windows need, each of 1 to 512 cells.
fn fitting(keys: usize, values: usize, partitions: usize, window: u64) -> bool
    ensures { result ≡ fitting keys values partitions window }
{
    if !(1..=WIDEST).contains(&window) {
        return false;
    }
    partitions
        .checked_mul(window as usize)
        .is_some_and(|cells| keys == cells && values == cells)
}

impl<'a, K: Key, V: Copy + Drop> WindowStore<'a, K, V> {
    ghost use Rattle.layout.specs.Cells.{meaning};
    ghost use Rattle.windows.specs.Stores.{windows_meaning};

    // An empty store of a window for each length, whatever the memory holds; a void one where the cells do not fit, which leaves all as it is.
    pub fn open(
        keys: &'a mut [K],
        values: &'a mut [V],
        lengths: &'a mut [u64],
        window: u64,
    ) -> WindowStore<'a, K, V>
        ensures meaning { windows_meaning result ≡ opened (length keys.old) (length values.old) (length lengths.old) window }
        ensures memory { (result.keys.now ≡ keys.old) × (result.values.now ≡ values.old) }
        ensures untouched { fitting (length keys.old) (length values.old) (length lengths.old) window ≡ false → result.lengths.now ≡ lengths.old }
    {
        let partitions = lengths.len();
        if !fitting(keys.len(), values.len(), partitions, window) {
            return WindowStore {
                keys,
                values,
                lengths,
                layout: Layout {
                    window: 0,
                    partitions: 0,
                },
            };
        }
        lengths.fill(0);
        WindowStore {
            keys,
            values,
            lengths,
            layout: Layout {
                window: window as usize,
                partitions: partitions as u64,
            },
        }
    }

    // The windows, to be read.
    fn cells(&self) -> Cells<'_, K, V>
        ensures { meaning result ≡ windows_meaning self.now }
    {
        Cells::new(self.keys, self.values, self.lengths, self.layout)
    }
}

impl<'a, K: Key, V: Copy + Drop> Store for WindowStore<'a, K, V> {
    ghost use Rattle.windows.specs.Stores.{windows_meaning, windows_sound};

    type Key = K;

    type Value = V;

    ghost meaning = { windows_meaning };

    ghost sound = { windows_sound K.lawful };

    fn put(&mut self, place: &Place<K>, offset: u64, value: V) -> Result<(), Refusal> {
        self.layout
            .put(self.keys, self.values, self.lengths, place, offset, value)
    }

    fn take(&mut self, place: &Place<K>, offset: u64) -> Result<V, Refusal> {
        self.layout
            .take(self.keys, self.values, self.lengths, place, offset)
    }

    fn set(&mut self, place: &Place<K>, offset: u64, value: V) -> Result<(), Refusal> {
        self.layout
            .set(self.keys, self.values, self.lengths, place, offset, value)
    }

    fn remove_run(&mut self, place: &Place<K>) {
        self.layout
            .remove_run(self.keys, self.values, self.lengths, place)
    }

    fn run_len(&self, place: &Place<K>) -> u64 {
        self.cells().run_len(place)
    }

    fn value_at(&self, place: &Place<K>, offset: u64) -> Option<V> {
        self.cells().value_at(place, offset)
    }

    fn first_in(&self, partition: u64) -> Option<Place<K>> {
        self.cells().first_in(partition)
    }

    fn last_in(&self, partition: u64) -> Option<Place<K>> {
        self.cells().last_in(partition)
    }

    fn next_in(&self, place: &Place<K>) -> Option<Place<K>> {
        self.cells().next_in(place)
    }

    fn previous_in(&self, place: &Place<K>) -> Option<Place<K>> {
        self.cells().previous_in(place)
    }

    fn space(&self, partition: u64) -> u64 {
        self.cells().space(partition)
    }

    fn partition_count(&self) -> u64 {
        self.layout.partitions
    }

    fn assured_number(&self) -> u64 {
        self.layout.window as u64
    }

    fn is_empty(&self) -> bool {
        self.cells().is_empty()
    }
}

impl<'a, K: Key, V: Copy + Drop> Windowed for WindowStore<'a, K, V> {
    ghost use Rattle.windows.specs.Stores.{windows_full};

    ghost windows = { windows_full K.lawful };
}
