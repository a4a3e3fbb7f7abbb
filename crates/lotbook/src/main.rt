// Reads a script from standard input, and prints one line of answer for each command.
#![tactic(auto)]

use anyhow::ensure;
use runner::run_script;
use std::io::Read;

fn main(rt: HostRuntime) -> anyhow::Result<()> {
    let heap = rt.alloc();
    let mut script = Vec::new(heap);
    rt.stdin().read_to_end(&mut script)?;
    let report = run_script(heap, &script)?;
    rt.print(&report.text)?;
    ensure!(!report.wrong, "a line of the script is wrong");
    Ok(())
}
