// What a line is answered, and the text of all answers.
ghost use Rattle.std.specs.Prelude.{◌≡◌, true, false};
ghost use Rattle.runner.specs.Marks.{marked, told};

use crate::fault::Fault;
use crate::subkey::SubKey;
use crate::value::Value;
use book::Counts;
use keys::Place;
use std::alloc::Global;
use std::fmt;
use std::fmt::Write;
use words::Reason;

// The answer of a book to one line; a run is so many of the slots.
#[derive(Drop)]
pub enum Answer<K> {
    Done,
    Nothing,
    Run(usize),
    Found(Place<K>, usize),
    Walked(Vec<Place<K>>),
    Counted(Counts, Option<u64>),
}

impl<K: SubKey> Answer<K> {
    // Writes the answer, whose run is in the slots.
    fn write<V: Value>(&self, slots: &[V], text: &mut String) -> Result<(), fmt::Error> {
        match self {
            Answer::Done => text.write_str("ok\n"),
            Answer::Nothing => text.write_str("none\n"),
            Answer::Run(len) => write_run(*len, slots, text),
            Answer::Found(place, len) => {
                write!(text, "place {} {} ", place.partition, place.key)?;
                write_run(*len, slots, text)
            }
            Answer::Walked(places) => write_walk(places, text),
            Answer::Counted(counts, spills) => write_counts(counts, *spills, text),
        }
    }
}

// The values of a run, which are the first `len` of the slots.
fn write_run<V: Value>(len: usize, slots: &[V], text: &mut String) -> Result<(), fmt::Error> {
    text.write_str("run")?;
    for value in slots.iter().take(len) {
        write!(text, " {value}")?;
    }
    text.write_str("\n")
}

// The places of a walk.
fn write_walk<K: SubKey>(places: &[Place<K>], text: &mut String) -> Result<(), fmt::Error> {
    text.write_str("walk")?;
    for place in places {
        write!(text, " {}:{}", place.partition, place.key)?;
    }
    text.write_str("\n")
}

// The counts of a book, and the spills of a pile.
fn write_counts(counts: &Counts, spills: Option<u64>, text: &mut String) -> Result<(), fmt::Error> {
    write!(text, "{counts}")?;
    if let Some(n) = spills {
        write!(text, " spills {n}")?;
    }
    text.write_str("\n")
}

// All answers, one line each, and whether a line was wrong.
#[derive(Drop)]
pub struct Report {
    pub text: String,
    pub wrong: bool,
}

impl Report {
    // A report of no lines.
    pub fn new(heap: Global) -> Report
        ensures { result.wrong ≡ false }
    {
        Report {
            text: String::new(heap),
            wrong: false,
        }
    }

    // Answers a book that was opened.
    pub fn opened(&mut self) -> Result<(), fmt::Error>
        ensures { self.new.wrong ≡ self.old.wrong }
    {
        self.text.write_str("opened\n")
    }

    // Answers a wrong line.
    pub fn wrong(&mut self, number: u64, why: Reason) -> Result<(), fmt::Error>
        ensures { self.new.wrong ≡ true }
    {
        self.wrong = true;
        writeln!(self.text, "error line {number}: {why}")?;
        Ok(())
    }

    // Answers a line that has no answer of its own; where an answer found no memory, there is none.
    pub(crate) fn fault(&mut self, number: u64, why: Fault) -> Result<(), fmt::Error>
        ensures { self.new.wrong ≡ marked self.old.wrong why }
    {
        match why {
            Fault::Refused(why) => writeln!(self.text, "refused {}", why.code())?,
            Fault::Wrong(why) => self.wrong(number, why)?,
            Fault::Text(why) => return Err(why),
        }
        Ok(())
    }

    // Writes the answer to line `number`, whose run is in the slots.
    pub fn tell<K: SubKey, V: Value>(
        &mut self,
        number: u64,
        answer: Result<Answer<K>, Fault>,
        slots: &[V],
    ) -> Result<(), fmt::Error>
        ensures { self.new.wrong ≡ told self.old.wrong answer }
    {
        match answer {
            Ok(answer) => answer.write(slots, &mut self.text),
            Err(why) => self.fault(number, why),
        }
    }
}
