// The keys of places, as a script writes them.
use keys::{Key, Label};
use std::fmt;
use words::SubkeyWord;

// A key that a word of a script can write; the default is what a cell holds before it is used.
pub trait SubKey: Key + Default + fmt::Display {
    // The key of a word, where it is one of these keys.
    fn from_word(word: &SubkeyWord) -> Option<Self>;
}

impl SubKey for u32 {
    fn from_word(word: &SubkeyWord) -> Option<u32> {
        word.as_number()
    }
}

impl SubKey for Label {
    fn from_word(word: &SubkeyWord) -> Option<Label> {
        word.as_label().map(|bytes| Label { bytes })
    }
}
