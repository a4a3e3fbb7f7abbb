// The lines of a script.
use crate::command::Command;
use std::alloc::{AllocError, Global};
use words::Reason;

// A line that is answered, with its number from 1 among all lines.
#[derive(Drop)]
pub struct Line {
    pub number: u64,
    pub command: Result<Command, Reason>,
}

// The command of a line, or none where it is passed over. A comment may hold any bytes. A CR may end
// a line, also one that is the last and has no LF.
fn read_line(heap: Global, line: &[u8]) -> Option<Result<Command, Reason>> {
    match line.strip_suffix(b"\r").unwrap_or(line) {
        [] | [b'#', ..] => None,
        bytes => Some(
            std::str::from_utf8(bytes)
                .map_err(|_| Reason::NotUtf8)
                .and_then(|text| Command::read(heap, text)),
        ),
    }
}

// The lines of a script that are answered. A last line without an LF counts; what follows a last LF
// is empty, and so is passed over.
pub fn read_script(heap: Global, script: &[u8]) -> Result<Vec<Line>, AllocError> {
    let mut lines = Vec::new(heap);
    for (number, line) in (1..).zip(script.split(|b| *b == b'\n')) {
        if let Some(command) = read_line(heap, line) {
            lines.push(Line { number, command })?;
        }
    }
    Ok(lines)
}
