// The label: the first eight bytes as they are.
ghost use Rattle.std.specs.Prelude.{◌≡◌};
ghost use Rattle.translate.specs.Meanings.{label_of};
ghost use Rattle.translate.specs.Keeping.{label_keeps};

use crate::padded::padded_to;
use crate::translator::{OrderedTranslator, Translator};
use keys::{Key, Label};

// Eight bytes, padded on the right with zeros.
#[derive(Clone, Copy)]
pub struct Labels;

// The first eight bytes.
impl Translator for Labels {
    type Key = Label;

    ghost meaning = { λ _. label_of };

    fn translate(&self, sub_key: &[u8]) -> Label {
        Label {
            bytes: padded_to::<8>(sub_key),
        }
    }
}

// Padding reverses no two keys, so a label keeps order.
impl OrderedTranslator for Labels {
    ghost keeps = { λ t. label_keeps };
}
