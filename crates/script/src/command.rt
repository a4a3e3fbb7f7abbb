// The commands of a script.
use crate::opening::Opening;
use std::alloc::Global;
use words::{Reason, SubkeyWord, ValueWord, Words};

// A line opens a book, or calls the book that is open.
#[derive(Debug, Drop)]
pub enum Command {
    Open(Opening),
    Call(Call),
}

// A call of a book; `Slots` says how many slots its reads are handed from then on.
#[derive(Debug, Drop)]
pub enum Call {
    Slots(usize),
    Insert { key: Vec<u8>, value: ValueWord },
    Get { key: Vec<u8> },
    Run { partition: u64, subkey: SubkeyWord },
    First,
    Last,
    Walk,
    Counts,
}

// The call of that name, with the words that it takes.
fn read_call(heap: Global, name: &str, words: &mut Words<'_>) -> Result<Call, Reason> {
    match name {
        "slots" => words.slots().map(Call::Slots),
        "insert" => Ok(Call::Insert {
            key: words.key(heap)?,
            value: words.value()?,
        }),
        "get" => Ok(Call::Get {
            key: words.key(heap)?,
        }),
        "run" => Ok(Call::Run {
            partition: words.number()?,
            subkey: words.subkey()?,
        }),
        "first" => Ok(Call::First),
        "last" => Ok(Call::Last),
        "walk" => Ok(Call::Walk),
        "counts" => Ok(Call::Counts),
        "remove" | "retain" | "insert_and_retain" => Err(Reason::NotBuilt),
        "get_mut" | "get_mut_or_insert" | "edit" => Err(Reason::NotBuilt),
        "get_many" | "walk_back" => Err(Reason::NotBuilt),
        "next" | "previous" | "next_from" | "previous_from" => Err(Reason::NotBuilt),
        _ => Err(Reason::UnknownCommand),
    }
}

// The command of that name, with the words that it takes.
fn read_command(heap: Global, name: &str, words: &mut Words<'_>) -> Result<Command, Reason> {
    match name {
        "open" => Opening::read(words).map(Command::Open),
        _ => read_call(heap, name, words).map(Command::Call),
    }
}

impl Command {
    // The command that a line is, from its first word to its last.
    pub(crate) fn read(heap: Global, line: &str) -> Result<Command, Reason> {
        let mut words = Words::new(line);
        let name = words.word()?;
        let command = read_command(heap, name, &mut words)?;
        words.end()?;
        Ok(command)
    }
}
