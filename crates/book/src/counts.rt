// What a book counts.
use std::fmt;

// How many places and values are held, and how many values were struck.
#[derive(Clone, Copy)]
pub struct Counts {
    pub keys: u64,
    pub items: u64,
    pub pruned: u64,
}

// Each count behind its name.
impl fmt::Display for Counts {
    ghost use Rattle.std.specs.Prelude.{Some};
    ghost use Rattle.book.specs.Shown.{counts_text};

    ghost output = { λ c. Some (counts_text c) };

    fn fmt<W: fmt::Write>(&self, f: &mut fmt::Formatter<W>) -> fmt::Result {
        let Counts {
            keys,
            items,
            pruned,
        } = self;
        write!(f, "keys {keys} items {items} pruned {pruned}")
    }
}
