// Why a line of a script is wrong.
ghost use Rattle.std.specs.Prelude.{◌≡◌};
ghost use Rattle.words.specs.declared.reason.Reason.TheVariants.{NoMemory};

use std::alloc::AllocFailed;
use std::error::Error;
use std::fmt;

#[derive(Clone, Copy, Debug, PartialEq, Eq)]
pub enum Reason {
    UnknownCommand,
    NotBuilt,
    MissingWord,
    ExtraWord,
    ExtraSpace,
    NotUtf8,
    OddDigit,
    WrongDigit,
    NotNumber,
    OutOfRange,
    NotSubkey,
    UnknownTranslator,
    UnknownValues,
    UnknownStore,
    NoBook,
    NoOrder,
    OtherValues,
    OtherKeys,
    OtherStore,
    NoMemory,
}

impl fmt::Display for Reason {
    fn fmt<W: fmt::Write>(&self, f: &mut fmt::Formatter<W>) -> fmt::Result {
        f.write_str(match *self {
            Reason::UnknownCommand => "unknown command",
            Reason::NotBuilt => "not built yet",
            Reason::MissingWord => "a word is missing",
            Reason::ExtraWord => "a word too many",
            Reason::ExtraSpace => "a space too many",
            Reason::NotUtf8 => "not UTF-8",
            Reason::OddDigit => "an odd hexadecimal digit",
            Reason::WrongDigit => "a wrong hexadecimal digit",
            Reason::NotNumber => "not a number",
            Reason::OutOfRange => "a number out of range",
            Reason::NotSubkey => "neither a number nor a label",
            Reason::UnknownTranslator => "unknown translator",
            Reason::UnknownValues => "unknown values",
            Reason::UnknownStore => "unknown store",
            Reason::NoBook => "no book is open",
            Reason::NoOrder => "the book has no order",
            Reason::OtherValues => "does not fit the book's values",
            Reason::OtherKeys => "does not fit the book's keys",
            Reason::OtherStore => "does not fit the store",
            Reason::NoMemory => "no memory",
        })
    }
}

impl Error for Reason {}

impl<T: Drop> From<AllocFailed<T>> for Reason {
    ghost from_gives = { λ _ e. e ≡ NoMemory };

    fn from(_why: AllocFailed<T>) -> Self {
        Self::NoMemory
    }
}
