// Digits: numbers, grams, keys and labels as the bytes of a word write them.
ghost use Rattle.std.specs.Prelude.{◌≡◌, ◌<◌, ◌⊎◌, true, false, Ok, Err, IfOk, MatchOption, MatchResult, slice_index};
ghost use Rattle.std.specs.Option.{ok_or};
ghost use Rattle.words.specs.Digits.{is_numeral, digit, byte_of, number_of, grams_of, bytes_of, key_of, label_of};

use crate::reason::Reason;
use std::alloc::Global;

// The text of a word that is decimal digits and nothing else.
fn digits_of(word: &[u8]) -> Option<&str>
    ensures { MatchOption result (is_numeral word.now ≡ false) (λ text. (text.now ≡ word.now) × (is_numeral word.now ≡ true)) }
{
    if word.is_empty() || !word.iter().all(u8::is_ascii_digit) {
        return None;
    }
    std::str::from_utf8(word).ok()
}

// The number that a word of decimal digits writes, if it is at most `most`.
pub fn number(word: &[u8], most: u64) -> Result<u64, Reason>
    ensures { result ≡ number_of most word.now }
{
    let digits = digits_of(word).ok_or(Reason::NotNumber)?;
    let value = digits.parse().ok();
    value.filter(|n| *n <= most).ok_or(Reason::OutOfRange)
}

// A number of 32 bits.
pub fn small_number(word: &[u8]) -> Result<u32, Reason>
    ensures { result ≡ number_of 4294967295 word.now }
{
    number(word, 4_294_967_295).map(|n| n as u32)
}

// Grams: a signed number of 32 bits, with a `-` before it where it is below 0.
pub fn grams(word: &[u8]) -> Result<i32, Reason>
    ensures { result ≡ grams_of word.now }
{
    match word {
        [b'-', digits @ ..] => number(digits, 2_147_483_648).map(|n| -(n as i64) as i32),
        _ => number(word, 2_147_483_647).map(|n| n as i32),
    }
}

// The value of a hexadecimal digit in either case.
fn hexadecimal_digit(b: u8) -> Result<u32, Reason>
    ensures value { result ≡ ok_or (digit b) Reason.WrongDigit }
    ensures bound { IfOk result (λ d. d < 16) }
{
    char::from(b).to_digit(16).ok_or(Reason::WrongDigit)
}

// The byte that two hexadecimal digits write.
fn pair(digits: [u8; 2]) -> Result<u8, Reason>
    ensures { result ≡ ok_or (byte_of (digit (slice_index digits 0)) (digit (slice_index digits 1))) Reason.WrongDigit }
{
    let [high, low] = digits;
    Ok((hexadecimal_digit(high)? * 16 + hexadecimal_digit(low)?) as u8)
}

// The bytes of hexadecimal pairs.
fn pairs_of(heap: Global, word: &[u8]) -> Result<Vec<u8>, Reason>
    ensures { MatchResult result (λ v. bytes_of word.now ≡ Ok v.items) (λ e. (e ≡ Reason.NoMemory) ⊎ (bytes_of word.now ≡ Err e)) }
{
    let (pairs, []) = word.as_chunks::<2>() else {
        return Err(Reason::OddDigit);
    };
    let mut bytes = Vec::new(heap);
    for digits in pairs {
        bytes.push(pair(*digits)?)?;
    }
    Ok(bytes)
}

// The bytes of a key: `-` alone is the empty one.
pub fn key_bytes(heap: Global, word: &[u8]) -> Result<Vec<u8>, Reason>
    ensures { MatchResult result (λ v. key_of word.now ≡ Ok v.items) (λ e. (e ≡ Reason.NoMemory) ⊎ (key_of word.now ≡ Err e)) }
{
    match word {
        [] => Err(Reason::MissingWord),
        [b'-'] => Ok(Vec::new(heap)),
        _ => pairs_of(heap, word),
    }
}

// The bytes of a label: 16 hexadecimal digits in lower case.
pub fn label_bytes(word: &[u8]) -> Option<[u8; 8]>
    ensures { result ≡ label_of word.now }
{
    if word.iter().any(u8::is_ascii_uppercase) {
        return None;
    }
    let (pairs, _) = word.as_array::<16>()?.as_chunks::<2>();
    let bytes = pairs.as_array::<8>()?;
    bytes.try_map(pair).ok()
}
