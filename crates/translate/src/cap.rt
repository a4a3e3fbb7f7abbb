// The cap: the first four bytes as a number.
ghost use Rattle.std.specs.Prelude.{◌≡◌};
ghost use Rattle.translate.specs.Meanings.{cap_of};
ghost use Rattle.translate.specs.Keeping.{cap_keeps};

use crate::padded::padded_to;
use crate::translator::{OrderedTranslator, Translator};
use keys::Key;

// Four bytes, padded on the right with zeros, as a big-endian number.
#[derive(Clone, Copy)]
pub struct Cap;

// The number of the first four bytes.
impl Translator for Cap {
    type Key = u32;

    ghost meaning = { λ _. cap_of };

    fn translate(&self, sub_key: &[u8]) -> u32 {
        u32::from_be_bytes(padded_to::<4>(sub_key))
    }
}

// Bytes padded alike compare as their numbers do, so a cap keeps order.
impl OrderedTranslator for Cap {
    ghost keeps = { λ t. cap_keeps };
}
