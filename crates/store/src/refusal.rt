// The refusals, each with its number.
ghost use Rattle.std.specs.Prelude.{◌≡◌};
ghost use Rattle.store.specs.Refusals.{number};

// Why a call is refused; a refused call leaves everything as it was.
#[derive(Clone, Copy, Debug, PartialEq, Eq)]
pub enum Refusal {
    Unsound = 1,
    NoSpace = 6,
    FewSlots = 8,
    PastEnd = 9,
}

impl Refusal {
    // The number that a caller is told.
    pub fn code(self) -> u64
        ensures { result ≡ number self }
    {
        self as u64
    }
}
