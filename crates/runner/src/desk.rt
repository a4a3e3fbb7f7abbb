// Answers the lines of a script from one book.
ghost use Rattle.std.specs.Prelude.{◌≡◌, ◌≤◌, length};
ghost use Rattle.runner.specs.Lines.{Behind};

use crate::answer::Answer;
use crate::fault::Fault;
use crate::neighbours::{Named, Neighbours};
use crate::open::cannot_open;
use crate::session::Session;
use crate::spills::Spills;
use crate::subkey::SubKey;
use crate::value::Value;
use book::Book;
use keys::{Key, Place};
use script::{Call, Command};
use std::alloc::Global;
use std::fmt;
use store::Store;
use translate::Translator;
use words::{Reason, SubkeyWord, ValueWord};

// A book with its slots, of which the first `lent` are handed to its reads.
#[derive(Drop)]
pub struct Desk<'a, S: Store, T> {
    book: Book<S, T>,
    slots: &'a mut [S::Value],
    lent: usize,
    ghost within: { lent ≤ length slots.now },
}

impl<'a, K, V, S, T> Desk<'a, S, T>
where
    K: SubKey,
    V: Value,
    S: Store<Key = K, Value = V> + Spills,
    T: Named<Key = K>,
{
    // All slots are lent.
    pub fn new(book: Book<S, T>, slots: &'a mut [V]) -> Desk<'a, S, T>
        ensures book { result.book ≡ book }
        ensures lent { result.lent ≡ length slots.old }
    {
        let lent = slots.len();
        Desk { book, slots, lent }
    }

    // Books a value under a key.
    fn insert(&mut self, key: &[u8], word: ValueWord) -> Result<Answer<K>, Fault> {
        let value = V::from_word(word).ok_or(Reason::OtherValues)?;
        self.book.insert(key, value)?;
        Ok(Answer::Done)
    }

    // The run of a key.
    fn get(&mut self, key: &[u8]) -> Result<Answer<K>, Fault> {
        let len = self.book.get(key, &mut self.slots[..self.lent])?;
        Ok(Answer::Run(len))
    }

    // The run at a place.
    fn run_at(&mut self, partition: u64, word: &SubkeyWord) -> Result<Answer<K>, Fault> {
        let key = K::from_word(word).ok_or(Reason::OtherKeys)?;
        let place = Place { partition, key };
        let len = self.book.run(&place, &mut self.slots[..self.lent])?;
        Ok(Answer::Run(len))
    }

    // A place at an end of the book, if it has one, with its run, for which all slots are lent.
    fn found(&mut self, place: Option<Place<K>>) -> Result<Answer<K>, Fault> {
        let Some(place) = place else {
            return Ok(Answer::Nothing);
        };
        let len = self.book.run(&place, self.slots)?;
        Ok(Answer::Found(place, len))
    }

    // The answer to one call.
    fn answer(&mut self, heap: Global, call: &Call) -> Result<Answer<K>, Fault> {
        match call {
            Call::Slots(n) => {
                self.lent = self.slots.len().min(*n);
                Ok(Answer::Done)
            }
            Call::Insert { key, value } => self.insert(key, *value),
            Call::Get { key } => self.get(key),
            Call::Run { partition, subkey } => self.run_at(*partition, subkey),
            Call::First => {
                let first = T::Order::first(&self.book)?;
                self.found(first)
            }
            Call::Last => {
                let last = T::Order::last(&self.book)?;
                self.found(last)
            }
            Call::Walk => Ok(Answer::Walked(T::Order::walk(heap, &self.book)?)),
            Call::Counts => Ok(Answer::Counted(self.book.counts()?, self.book.store().spilled())),
        }
    }

    // Answers the lines that are left, up to the line that opens the next book or to the end.
    pub fn serve(&mut self, session: &mut Session<'_>) -> Result<(), fmt::Error>
        ensures { Behind session.old.lines.now session.new.lines.now }
    {
        while let [line, rest @ ..] = session.lines {
            let answer = match &line.command {
                Ok(Command::Open(opening)) => match cannot_open(session.heap, opening) {
                    None => return Ok(()),
                    Some(why) => Err(Fault::Wrong(why)),
                },
                Ok(Command::Call(call)) => self.answer(session.heap, call),
                Err(why) => Err(Fault::Wrong(*why)),
            };
            session.report.tell(line.number, answer, self.slots)?;
            session.lines = rest;
        }
        Ok(())
    }
}
