// How a script opens a book.
ghost use Rattle.std.specs.Prelude.{◌≡◌};
ghost use Rattle.script.specs.Names.{translator_of, values_of};

use std::str::FromStr;
use words::{Reason, Words, number};

#[derive(Clone, Copy, Debug, PartialEq, Eq)]
pub enum TranslatorName {
    Cap,
    Label,
    Fold,
}

#[derive(Clone, Copy, Debug, PartialEq, Eq)]
pub enum ValuesName {
    Position,
    Weighing,
}

// A store, with the numbers that it is opened with.
#[derive(Clone, Copy, Debug, PartialEq, Eq)]
pub enum StoreName {
    Pocket,
    Windows { window: u64 },
    Side { cells: u64 },
    Pile { window: u64, cells: u64 },
    PocketPile { cells: u64 },
}

#[derive(Clone, Copy, Debug, PartialEq, Eq)]
pub struct Opening {
    pub label: u32,
    pub prefix: u64,
    pub translator: TranslatorName,
    pub values: ValuesName,
    pub store: StoreName,
}

impl FromStr for TranslatorName {
    type Err = Reason;

    ghost from_str_gives = { λ bs r. r ≡ translator_of bs };

    fn from_str(word: &str) -> Result<TranslatorName, Reason> {
        match word {
            "cap" => Ok(TranslatorName::Cap),
            "label" => Ok(TranslatorName::Label),
            "fold" => Ok(TranslatorName::Fold),
            _ => Err(Reason::UnknownTranslator),
        }
    }
}

impl FromStr for ValuesName {
    type Err = Reason;

    ghost from_str_gives = { λ bs r. r ≡ values_of bs };

    fn from_str(word: &str) -> Result<ValuesName, Reason> {
        match word {
            "position" => Ok(ValuesName::Position),
            "weighing" => Ok(ValuesName::Weighing),
            _ => Err(Reason::UnknownValues),
        }
    }
}

// What stands after `pile`: `W C` or `pocket C`.
fn read_pile(words: &mut Words<'_>) -> Result<StoreName, Reason> {
    match words.word()? {
        "pocket" => Ok(StoreName::PocketPile {
            cells: words.number()?,
        }),
        window => Ok(StoreName::Pile {
            window: number(window.as_bytes(), u64::MAX)?,
            cells: words.number()?,
        }),
    }
}

// `pocket`, `windows W`, `side C`, `pile W C` or `pile pocket C`.
fn read_store(words: &mut Words<'_>) -> Result<StoreName, Reason> {
    match words.word()? {
        "pocket" => Ok(StoreName::Pocket),
        "windows" => Ok(StoreName::Windows {
            window: words.number()?,
        }),
        "side" => Ok(StoreName::Side {
            cells: words.number()?,
        }),
        "pile" => read_pile(words),
        _ => Err(Reason::UnknownStore),
    }
}

impl Opening {
    // The words after `open`: LABEL P TRANSLATOR VALUES STORE.
    pub(crate) fn read(words: &mut Words<'_>) -> Result<Opening, Reason> {
        Ok(Opening {
            label: words.small_number()?,
            prefix: words.number()?,
            translator: words.word()?.parse()?,
            values: words.word()?.parse()?,
            store: read_store(words)?,
        })
    }
}
