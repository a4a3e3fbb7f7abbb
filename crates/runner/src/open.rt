// Opens the books of a script: each choice that an opening names is one match.
ghost use Rattle.runner.specs.Lines.{Behind};

use crate::desk::Desk;
use crate::fault::Fault;
use crate::memory::{Sizes, slots};
use crate::neighbours::Named;
use crate::session::Session;
use crate::spills::Spills;
use crate::subkey::SubKey;
use crate::value::Value;
use book::{Book, Weighing};
use keys::{Key, Label};
use pile::Pile;
use script::{Opening, StoreName, TranslatorName, ValuesName};
use std::alloc::Global;
use store::{Store, Windowed};
use translate::{Cap, Fold, Labels, Translator};
use windows::Pocket;
use words::Reason;

// A book that is to be opened: what the script asks for, the sizes of its memory, and its translator.
#[derive(Clone, Copy)]
struct Plan<'a, T> {
    opening: &'a Opening,
    sizes: Sizes,
    translator: T,
}

impl<'a, K: SubKey, T: Named<Key = K>> Plan<'a, T> {
    // A book of that translator, where its memory is not more than a book is given.
    fn new(opening: &'a Opening, translator: T) -> Result<Plan<'a, T>, Reason> {
        let sizes = Sizes::of(opening).ok_or(Reason::NoMemory)?;
        Ok(Plan {
            opening,
            sizes,
            translator,
        })
    }

    // Opens the book over a store, and answers its lines.
    fn over<V: Value, S: Store<Key = K, Value = V> + Spills + Drop>(
        self,
        store: S,
        session: &mut Session<'_>,
    ) -> Result<(), Fault>
        ensures { Behind session.old.lines.now session.new.lines.now }
    {
        let mut slots = slots::<V>(session.heap)?;
        let book = Book::open(
            self.opening.label,
            self.opening.prefix,
            store,
            self.translator,
        );
        session.report.opened()?;
        Ok(Desk::new(book, &mut slots).serve(session)?)
    }

    // By the store; the pocket is for number keys and positions, and is no choice here.
    fn by_store<V: Value>(self, session: &mut Session<'_>) -> Result<(), Fault>
        ensures { Behind session.old.lines.now session.new.lines.now }
    {
        match self.opening.store {
            StoreName::Side { .. } => {
                let mut side = self.sizes.side::<K, V>(session.heap)?;
                self.over(side.open(), session)
            }
            StoreName::Windows { .. } => {
                let mut windows = self.sizes.windows::<K, V>(session.heap)?;
                self.over(windows.open(), session)
            }
            StoreName::Pile { .. } => {
                let mut windows = self.sizes.windows::<K, V>(session.heap)?;
                let mut side = self.sizes.side::<K, V>(session.heap)?;
                self.over(Pile::open(windows.open(), side.open()), session)
            }
            StoreName::Pocket | StoreName::PocketPile { .. } => {
                Err(Fault::Wrong(Reason::OtherStore))
            }
        }
    }

    // By the values that the book holds.
    fn by_values(self, session: &mut Session<'_>) -> Result<(), Fault>
        ensures { Behind session.old.lines.now session.new.lines.now }
    {
        match self.opening.values {
            ValuesName::Position => self.by_store::<u64>(session),
            ValuesName::Weighing => self.by_store::<Weighing>(session),
        }
    }
}

impl<T: Named<Key = u32>> Plan<'_, T> {
    // By whether the windows are in a pocket.
    fn of_numbers(self, session: &mut Session<'_>) -> Result<(), Fault>
        ensures { Behind session.old.lines.now session.new.lines.now }
    {
        if in_pocket(self.opening) {
            self.over_pocket(session)
        } else {
            self.by_values(session)
        }
    }

    // Over the pocket, or a pile on it.
    fn over_pocket(self, session: &mut Session<'_>) -> Result<(), Fault>
        ensures { Behind session.old.lines.now session.new.lines.now }
    {
        match self.opening.store {
            StoreName::PocketPile { .. } => {
                let mut side = self.sizes.side::<u32, u64>(session.heap)?;
                self.over(Pile::open(Pocket::open(), side.open()), session)
            }
            _ => self.over(Pocket::open(), session),
        }
    }
}

// Whether an opening names the pocket, or a pile on it.
fn names_pocket(opening: &Opening) -> bool {
    matches!(
        opening.store,
        StoreName::Pocket | StoreName::PocketPile { .. }
    )
}

// Whether the book of an opening has its windows in a pocket: it must hold number keys and positions.
fn in_pocket(opening: &Opening) -> bool {
    names_pocket(opening) && matches!(opening.values, ValuesName::Position)
}

impl Session<'_> {
    // Opens the book that a line names, and answers the lines up to the next opening: by the translator.
    pub fn open(&mut self, opening: &Opening) -> Result<(), Fault>
        ensures { Behind self.old.lines.now self.new.lines.now }
    {
        match opening.translator {
            TranslatorName::Cap => Plan::new(opening, Cap)?.of_numbers(self),
            TranslatorName::Fold => Plan::new(opening, Fold)?.of_numbers(self),
            TranslatorName::Label => Plan::new(opening, Labels)?.by_values(self),
        }
    }
}

// Why a book cannot be opened beside all that is in use, if so: its store does not fit, or there is no memory.
pub fn cannot_open(heap: Global, opening: &Opening) -> Option<Reason> {
    let label = matches!(opening.translator, TranslatorName::Label);
    if names_pocket(opening) && (label || !in_pocket(opening)) {
        return Some(Reason::OtherStore);
    }
    let fit = Sizes::of(opening).is_some_and(|sizes| match (label, opening.values) {
        (true, ValuesName::Position) => sizes.fit::<Label, u64>(heap),
        (true, ValuesName::Weighing) => sizes.fit::<Label, Weighing>(heap),
        (false, ValuesName::Position) => sizes.fit::<u32, u64>(heap),
        (false, ValuesName::Weighing) => sizes.fit::<u32, Weighing>(heap),
    });
    (!fit).then_some(Reason::NoMemory)
}
