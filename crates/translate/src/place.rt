// The place of a key.
ghost use Rattle.std.specs.Prelude.{◌≡◌, ◌^◌, ◌<◌};
ghost use Rattle.keys.specs.Orders.{place_order};
ghost use Rattle.translate.specs.Bytes.{Keeps};
ghost use Rattle.translate.specs.Split.{place_of};

use crate::prefix::Prefix;
use crate::translator::{OrderedTranslator, Translator};
use keys::{Key, Place};
use std::cmp::Ordering;

// Where `key` stands: its partition, and its sub-key translated.
pub fn place_of<T: Translator>(prefix: &Prefix, translator: &T, key: &[u8]) -> Place<T::Key>
    ensures place { result ≡ place_of prefix.now.bytes (T.Translator.meaning translator.now) key.now }
    ensures below { result.partition < 256 ^ prefix.now.bytes }
{
    let (partition, sub_key) = prefix.split(key);
    Place {
        partition,
        key: translator.translate(sub_key),
    }
}

// How the places of two keys compare; byte order never comes out reversed.
pub fn compare_places<T: OrderedTranslator>(
    prefix: &Prefix,
    translator: &T,
    a: &[u8],
    b: &[u8],
) -> Ordering
    ensures order { result ≡ place_order T.Key.cmp (place_of prefix.now.bytes (T.Translator.meaning translator.now) a.now) (place_of prefix.now.bytes (T.Translator.meaning translator.now) b.now) }
    ensures keeps { Keeps (place_order T.Key.cmp) (place_of prefix.now.bytes (T.Translator.meaning translator.now)) }
{
    place_of(prefix, translator, a).cmp(&place_of(prefix, translator, b))
}
