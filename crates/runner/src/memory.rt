// The memory that the books of a script are given.
ghost use Rattle.std.specs.Prelude.{◌≡◌, IfOk, vec_len};
ghost use Rattle.side.specs.Table.{opened as opened_side};
ghost use Rattle.side.specs.Tables.{table_meaning};
ghost use Rattle.layout.specs.Windows.{opened as opened_windows};
ghost use Rattle.windows.specs.Stores.{windows_meaning};

use crate::subkey::SubKey;
use crate::value::Value;
use keys::{Key, Place};
use script::{Opening, StoreName};
use side::{CELLS as SIDE_CELLS, SideTable};
use std::alloc::{AllocError, Global};
use translate::Prefix;
use windows::{WIDEST, WindowStore};

// The most cells of windows that a book is given.
const CELLS: u64 = 268_435_456;

// How many slots are lent after an opening, and at the most.
const SLOTS: usize = 65536;

// How many cells and lengths a book is given.
#[derive(Clone, Copy)]
pub struct Sizes {
    partitions: u64,
    window: u64,
    window_cells: usize,
    lengths: usize,
    side_cells: usize,
}

impl Sizes {
    // The sizes that an opening asks for; none where they are more than a book is given. Windows that are void are given nothing.
    pub fn of(opening: &Opening) -> Option<Sizes> {
        let partitions = Prefix::new(opening.prefix).map_or(0, |prefix| prefix.partitions());
        let (window, side) = match opening.store {
            StoreName::Pocket => (0, 0),
            StoreName::Windows { window } => (window, 0),
            StoreName::Side { cells } | StoreName::PocketPile { cells } => (0, cells),
            StoreName::Pile { window, cells } => (window, cells),
        };
        let (lengths, window_cells) = if (1..=WIDEST).contains(&window) {
            (partitions, partitions.checked_mul(window)?)
        } else {
            (0, 0)
        };
        if window_cells > CELLS {
            return None;
        }
        Some(Sizes {
            partitions,
            window,
            window_cells: window_cells as usize,
            lengths: lengths as usize,
            // One cell more than a side-table uses stands for every larger number, since the table is void then.
            side_cells: side.min(SIDE_CELLS as u64 + 1) as usize,
        })
    }

    // The memory of the side-table.
    pub fn side<K: SubKey, V: Value>(self, heap: Global) -> Result<SideMemory<K, V>, AllocError>
        ensures keys { IfOk result (λ m. vec_len m.keys ≡ self.side_cells) }
        ensures values { IfOk result (λ m. vec_len m.values ≡ self.side_cells) }
        ensures partitions { IfOk result (λ m. m.partitions ≡ self.partitions) }
    {
        Ok(SideMemory {
            keys: vec![in heap; Place::default(); self.side_cells]?,
            values: vec![in heap; V::default(); self.side_cells]?,
            partitions: self.partitions,
        })
    }

    // The memory of the windows.
    pub fn windows<K: SubKey, V: Value>(
        self,
        heap: Global,
    ) -> Result<WindowMemory<K, V>, AllocError>
        ensures keys { IfOk result (λ m. vec_len m.keys ≡ self.window_cells) }
        ensures values { IfOk result (λ m. vec_len m.values ≡ self.window_cells) }
        ensures lengths { IfOk result (λ m. vec_len m.lengths ≡ self.lengths) }
        ensures window { IfOk result (λ m. m.window ≡ self.window) }
    {
        Ok(WindowMemory {
            keys: vec![in heap; K::default(); self.window_cells]?,
            values: vec![in heap; V::default(); self.window_cells]?,
            lengths: vec![in heap; 0; self.lengths]?,
            window: self.window,
        })
    }

    // Whether there is memory for all of it, beside all that is in use.
    pub fn fit<K: SubKey, V: Value>(self, heap: Global) -> bool {
        self.side::<K, V>(heap).is_ok() && self.windows::<K, V>(heap).is_ok()
    }
}

// The cells of a side-table.
#[derive(Drop)]
pub struct SideMemory<K, V> {
    keys: Vec<Place<K>>,
    values: Vec<V>,
    partitions: u64,
}

impl<K: SubKey, V: Value> SideMemory<K, V> {
    // An empty side-table in this memory.
    pub fn open(&mut self) -> SideTable<'_, K, V>
        ensures { table_meaning result ≡ opened_side (vec_len self.old.keys) (vec_len self.old.values) self.old.partitions }
    {
        let SideMemory {
            keys,
            values,
            partitions,
        } = self;
        SideTable::open(keys, values, *partitions)
    }
}

// The cells and lengths of windows.
#[derive(Drop)]
pub struct WindowMemory<K, V> {
    keys: Vec<K>,
    values: Vec<V>,
    lengths: Vec<u64>,
    window: u64,
}

impl<K: SubKey, V: Value> WindowMemory<K, V> {
    // Empty windows in this memory.
    pub fn open(&mut self) -> WindowStore<'_, K, V>
        ensures { windows_meaning result ≡ opened_windows (vec_len self.old.keys) (vec_len self.old.values) (vec_len self.old.lengths) self.old.window }
    {
        let WindowMemory {
            keys,
            values,
            lengths,
            window,
        } = self;
        WindowStore::open(keys, values, lengths, *window)
    }
}

// The slots of a book's reads.
pub fn slots<V: Value>(heap: Global) -> Result<Vec<V>, AllocError>
    ensures { IfOk result (λ v. vec_len v ≡ 65536) }
{
    vec![in heap; V::default(); SLOTS]
}
