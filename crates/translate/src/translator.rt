// What a translator is, and what one is that keeps order.
ghost use Rattle.std.specs.Prelude.{◌≡◌, ℕ, List};
ghost use Rattle.translate.specs.Bytes.{Keeps};

use keys::Key;
use std::cmp::Ordering;

// Turns the sub-key of a key into a key that a store holds.
pub trait Translator {
    type Key: Key;

    ghost meaning: { Self → List ℕ → Self.Key };

    // The key of a sub-key.
    fn translate(&self, sub_key: &[u8]) -> Self::Key
        ensures { result ≡ meaning self.now sub_key.now };
}

// A translator that never reverses the order of bytes.
pub trait OrderedTranslator: Translator {
    // How the keys of two sub-keys compare.
    fn compare_translated(&self, a: &[u8], b: &[u8]) -> Ordering
        ensures { result ≡ Self.Key.cmp (Self.Translator.meaning self.now a.now) (Self.Translator.meaning self.now b.now) }
    {
        self.translate(a).cmp(&self.translate(b))
    }

    ghost keeps: { (t : Self) → Keeps Self.Key.cmp (Self.Translator.meaning t) };
}
