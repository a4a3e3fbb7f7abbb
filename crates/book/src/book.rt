// The book and its changing calls.
ghost use Rattle.std.specs.Prelude.{◌≡◌, ◌^◌, ◌<◌, if◌then◌else◌};
ghost use Rattle.keys.specs.Order.{before};
ghost use Rattle.keys.specs.Orders.{place_order};
ghost use Rattle.contents.specs.Entries as Entries;
ghost use Rattle.book.specs.Calls.{bytes, sound};

use keys::{Key, Place};
use store::{Refusal, Store};
use translate::{Prefix, Translator, place_of};

// A book over any store; without a prefix it was opened unsoundly, and refuses every call.
#[derive(Drop)]
pub struct Book<S: Store, T> {
    label: u32,
    prefix: Option<Prefix>,
    translator: T,
    pub(crate) store: S,
    pub(crate) keys: u64,
    pub(crate) items: u64,
    ghost partitions: { 0 < bytes prefix → (S.Store.meaning store).partitions ≡ 256 ^ bytes prefix },
    ghost keys_counted: { 0 < bytes prefix → keys ≡ Entries.keys (before (place_order S.Key.cmp)) (S.Store.meaning store).contents },
    ghost items_counted: { 0 < bytes prefix → items ≡ Entries.items (S.Store.meaning store).contents },
}

impl<S: Store, T: Translator<Key = S::Key>> Book<S, T> {
    ghost use Rattle.translate.specs.Split.{place_of};
    ghost use Rattle.book.specs.Calls.{opened, Answers, AnswersBy, Insert};
    ghost use Rattle.book.specs.State.{state};

    // A book that no call was made of. It is sound where P is 1 to 3 and the store is empty, has 256 ^ P partitions and is assured of some space.
    pub fn open(label: u32, p: u64, store: S, translator: T) -> Book<S, T>
        ensures { state result ≡ opened label p (S.Store.meaning store) translator }
    {
        let prefix = sound_prefix(p, &store);
        Book {
            label,
            prefix,
            translator,
            store,
            keys: 0,
            items: 0,
        }
    }

    // The prefix, or the refusal of a book that was opened unsoundly.
    pub(crate) fn opened(&self) -> Result<Prefix, Refusal>
        ensures { AnswersBy (λ prefix. prefix.bytes) (state self.now) (state self.now).prefix result }
    {
        self.prefix.ok_or(Refusal::Unsound)
    }

    // The place of `key`, or the refusal of a book that was opened unsoundly.
    pub(crate) fn place(&self, key: &[u8]) -> Result<Place<S::Key>, Refusal>
        ensures { Answers (state self.now) (place_of (state self.now).prefix (T.Translator.meaning self.now.translator) key.now) result }
    {
        let prefix = self.opened()?;
        Ok(place_of(&prefix, &self.translator, key))
    }

    // Appends `value` to the run of `key`.
    pub fn insert(&mut self, key: &[u8], value: S::Value) -> Result<(), Refusal>
        ensures { Insert S.Key.cmp (state self.old) (state self.new) (place_of (state self.old).prefix (T.Translator.meaning self.old.translator) key.now) value result }
    {
        let place = self.place(key)?;
        if self.items == u64::MAX {
            return Err(Refusal::NoSpace);
        }
        let end = self.store.run_len(&place);
        self.store.put(&place, end, value)?;
        self.items += 1;
        if end == 0 {
            self.keys += 1;
        }
        Ok(())
    }
}

// The prefix of `p` bytes, where a book of that prefix over the store is sound.
fn sound_prefix<S: Store>(p: u64, store: &S) -> Option<Prefix>
    ensures { bytes result ≡ (if sound p (S.Store.meaning store.now) then p else 0) }
{
    let prefix = Prefix::new(p)?;
    if store.partition_count() == prefix.partitions()
        && store.assured_number() > 0
        && store.is_empty()
    {
        Some(prefix)
    } else {
        None
    }
}
