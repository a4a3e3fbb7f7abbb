// The run of a script.
ghost use Rattle.std.specs.Prelude.{◌≡◌, false};

use crate::answer::Report;
use script::Line;
use std::alloc::Global;

// The lines that are left to answer, and the answers so far.
#[derive(Drop)]
pub struct Session<'a> {
    pub heap: Global,
    pub lines: &'a [Line],
    pub report: Report,
}

impl<'a> Session<'a> {
    // All lines are left, and none was wrong.
    pub fn new(heap: Global, lines: &'a [Line]) -> Session<'a>
        ensures lines { result.lines.now ≡ lines.now }
        ensures right { result.report.wrong ≡ false }
    {
        Session {
            heap,
            lines,
            report: Report::new(heap),
        }
    }
}
