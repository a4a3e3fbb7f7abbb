// A script's lines as text.
use script::{Command, Line, read_script};
use std::alloc::Global;
use std::fmt::Write;
use std::process::Abort;
use std::test::Fail;

// Each line with its number and its command, or why it is wrong.
pub fn shown(heap: Global, script: &[u8]) -> anyhow::Result<String> {
    let lines = read_script(heap, script)?;
    let mut text = String::new(heap);
    for Line { number, command } in &lines {
        match command {
            Ok(Command::Call(call)) => writeln!(text, "{number} {call:?}")?,
            Ok(Command::Open(opening)) => writeln!(text, "{number} {opening:?}")?,
            Err(why) => writeln!(text, "{number} {why}")?,
        }
    }
    Ok(text)
}

// Each script shows as the text beside it.
pub fn check_shown(rt: &impl Abort, heap: Global, table: &[(&[u8], &str)]) -> Result<(), Fail> {
    for (script, want) in table {
        let got = shown(heap, script)?;
        assert!(rt; got.as_str() == *want, "{}; {}", *want, got.as_str());
    }
    Ok(())
}
