// Runs a whole script.
ghost use Rattle.runner.specs.Lines.{Behind};

use crate::answer::Report;
use crate::fault::Fault;
use crate::session::Session;
use script::{Command, Line, read_script};
use std::alloc::Global;
use std::fmt;
use words::Reason;

impl Session<'_> {
    // Answers a line while no book is open; where it opens one, the lines of that book too.
    fn run_line(&mut self, line: &Line) -> Result<(), Fault>
        ensures { Behind self.old.lines.now self.new.lines.now }
    {
        match &line.command {
            Ok(Command::Open(opening)) => self.open(opening),
            Ok(Command::Call(_)) => Err(Fault::Wrong(Reason::NoBook)),
            Err(why) => Err(Fault::Wrong(*why)),
        }
    }

    // Answers all lines.
    fn run(&mut self) -> Result<(), fmt::Error> {
        while let [line, rest @ ..] = self.lines {
            self.lines = rest;
            if let Err(why) = self.run_line(line) {
                self.report.fault(line.number, why)?;
            }
        }
        Ok(())
    }
}

// What a script is answered.
pub fn run_script(heap: Global, script: &[u8]) -> anyhow::Result<Report> {
    let lines = read_script(heap, script)?;
    let mut session = Session::new(heap, &lines);
    session.run()?;
    Ok(session.report)
}
