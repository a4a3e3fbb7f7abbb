// The fold: a hash of all bytes, which keeps no order.
ghost use Rattle.std.specs.Prelude.{◌≡◌};
ghost use Rattle.std.specs.declared.cmp.Ordering.TheVariants.{Less};
ghost use Rattle.std.specs.Ordering.{nat_cmp};
ghost use Rattle.translate.specs.Bytes.{Keeps};
ghost use Rattle.translate.specs.Meanings.{fold_of};

use crate::translator::Translator;
use keys::Key;
use std::cmp::Ordering;

// What the hash starts from, and what it is multiplied by at each byte.
const BASIS: u32 = 2166136261;

const PRIME: u32 = 16777619;

// The 32-bit FNV-1a hash.
#[derive(Clone, Copy)]
pub struct Fold;

// The hash, a byte at a time.
impl Translator for Fold {
    type Key = u32;

    ghost meaning = { λ _. fold_of };

    fn translate(&self, sub_key: &[u8]) -> u32 {
        sub_key.iter().fold(BASIS, |hash, b| {
            (hash ^ u32::from(*b)).wrapping_mul(PRIME)
        })
    }
}

// How the fold of one zero byte stands to that of none: before it, though it is the later key.
pub fn fold_reverses() -> Ordering
    ensures turned { result ≡ Less }
    ensures unkept { Keeps nat_cmp fold_of → ⊥ }
{
    Fold.translate(b"\0").cmp(&Fold.translate(b""))
}
