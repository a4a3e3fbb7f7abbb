// The values that a script can book.
use book::Weighing;
use std::fmt;
use words::ValueWord;

// A value that a word of a script can write; the default is what a cell holds before it is used.
pub trait Value: Copy + Default + Drop + fmt::Display {
    // The value of a word, where it is one of these values.
    fn from_word(word: ValueWord) -> Option<Self>;
}

impl Value for u64 {
    fn from_word(word: ValueWord) -> Option<u64> {
        let ValueWord::Position(n) = word else {
            return None;
        };
        Some(n)
    }
}

impl Value for Weighing {
    fn from_word(word: ValueWord) -> Option<Weighing> {
        let ValueWord::Weighing { scale, grams } = word else {
            return None;
        };
        Some(Weighing { scale, grams })
    }
}
