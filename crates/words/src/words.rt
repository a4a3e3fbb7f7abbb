// The words of a line, which stand with one space between.
ghost use Rattle.std.specs.Prelude.{◌≡◌, ◌||◌, IsTrue, is_some};
ghost use Rattle.words.specs.Value.{value_of};

use crate::digits::{grams, key_bytes, label_bytes, number, small_number};
use crate::reason::Reason;
use std::alloc::Global;
use std::str::{FromStr, Split};

// A value, as its word writes it: with a `:` it is a weighing.
#[derive(Clone, Copy, Debug, PartialEq, Eq)]
pub enum ValueWord {
    Position(u64),
    Weighing { scale: u32, grams: i32 },
}

impl FromStr for ValueWord {
    type Err = Reason;

    ghost from_str_gives = { λ bs r. r ≡ value_of bs };

    // A position, or a weighing `SCALE:GRAMS`.
    fn from_str(word: &str) -> Result<ValueWord, Reason> {
        match word.split_once(':') {
            None => number(word.as_bytes(), u64::MAX).map(ValueWord::Position),
            Some((scale, weight)) => Ok(ValueWord::Weighing {
                scale: small_number(scale.as_bytes())?,
                grams: grams(weight.as_bytes())?,
            }),
        }
    }
}

// The key of a place, as its word writes it: `0000000000000010` may be a number and a label.
#[derive(Clone, Copy, Debug, PartialEq, Eq)]
pub struct SubkeyWord {
    number: Option<u32>,
    label: Option<[u8; 8]>,
    ghost one_is_there: { IsTrue (is_some number || is_some label) },
}

impl FromStr for SubkeyWord {
    ghost use Rattle.words.specs.Subkey.{Reads};

    type Err = Reason;

    ghost from_str_gives = { Reads };

    // Both readings of a word, of which it has to have one.
    fn from_str(word: &str) -> Result<SubkeyWord, Reason> {
        let number = small_number(word.as_bytes());
        let label = label_bytes(word.as_bytes());
        match (number, label) {
            (Err(Reason::OutOfRange), None) => Err(Reason::OutOfRange),
            (Err(_), None) => Err(Reason::NotSubkey),
            _ => Ok(SubkeyWord {
                number: number.ok(),
                label,
            }),
        }
    }
}

impl SubkeyWord {
    ghost use Rattle.words.specs.Subkey.{as_number, as_label};

    // The key, where keys are numbers.
    pub fn as_number(&self) -> Option<u32>
        ensures { result ≡ as_number self.now }
    {
        self.number
    }

    // The key, where keys are labels.
    pub fn as_label(&self) -> Option<[u8; 8]>
        ensures { result ≡ as_label self.now }
    {
        self.label
    }
}

// What is left of a line.
#[derive(Drop)]
pub struct Words<'a> {
    rest: Split<'a, char>,
}

impl<'a> Words<'a> {
    pub fn new(line: &'a str) -> Words<'a> {
        Words {
            rest: line.split(' '),
        }
    }

    // The next word; one that is empty stands beside a space too many.
    pub fn word(&mut self) -> Result<&'a str, Reason> {
        match self.rest.next() {
            None => Err(Reason::MissingWord),
            Some("") => Err(Reason::ExtraSpace),
            Some(word) => Ok(word),
        }
    }

    // A number of 64 bits.
    pub fn number(&mut self) -> Result<u64, Reason> {
        number(self.word()?.as_bytes(), u64::MAX)
    }

    // A number of 32 bits.
    pub fn small_number(&mut self) -> Result<u32, Reason> {
        small_number(self.word()?.as_bytes())
    }

    // A number of slots.
    pub fn slots(&mut self) -> Result<usize, Reason> {
        number(self.word()?.as_bytes(), 65_536).map(|n| n as usize)
    }

    // A key.
    pub fn key(&mut self, heap: Global) -> Result<Vec<u8>, Reason> {
        key_bytes(heap, self.word()?.as_bytes())
    }

    // A value of either kind.
    pub fn value(&mut self) -> Result<ValueWord, Reason> {
        self.word()?.parse()
    }

    // The key of a place, of either kind.
    pub fn subkey(&mut self) -> Result<SubkeyWord, Reason> {
        self.word()?.parse()
    }

    // The end of the line.
    pub fn end(&mut self) -> Result<(), Reason> {
        match self.rest.next() {
            None => Ok(()),
            Some("") => Err(Reason::ExtraSpace),
            Some(_) => Err(Reason::ExtraWord),
        }
    }
}
