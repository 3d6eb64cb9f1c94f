// Answers as numbers, each held to the one that is wanted, and the lines of how many were right.
ghost use Rattle.std.specs.Prelude.{◌≤◌, ◌+◌};

use crate::given::RECORD;
use std::io;
use watcher::state::{Refusal, Verdict, Watcher};

// The numbers of the verdicts, above those of the refusals.
pub(crate) const KEPT: usize = 101;

pub(crate) const BROKEN: usize = 102;

// What a call says: a refusal, or how the log ends, where the call is one that asks or closes.
pub(crate) type Said = Result<Option<Verdict>, Refusal>;

// The number of what is said: a refusal's own, a verdict's, or 0.
fn number(said: Said) -> usize {
    match said {
        Ok(None) => 0,
        Ok(Some(Verdict::Kept)) => KEPT,
        Ok(Some(Verdict::Broken)) => BROKEN,
        Err(refusal) => refusal.number(),
    }
}

// What a watcher says to a record, to asking, to asking again, and to closing.
fn answers(watcher: Watcher, area: &mut [u64]) -> [Said; 4] {
    [
        watcher.feed(&RECORD, area).answer.map(|_| None),
        watcher.ask(area).map(Some),
        watcher.ask(area).map(Some),
        watcher.close(area).answer.map(Some),
    ]
}

// Where lines are written, and how many answers were right since the last one.
#[derive(Drop)]
pub(crate) struct Tried<'a, P> {
    pub(crate) rt: &'a P,
    pub(crate) right: u64,
}

impl<P: Print> Tried<'_, P> {
    // Counts a number that is the wanted one; else a line is written.
    fn count(&mut self, said: usize, wanted: usize) -> io::Result<()>
        ensures { self.new.right ≤ self.old.right + 1 }
    {
        if said != wanted {
            return println!(self.rt; "DIFFERENCE said {said} wanted {wanted}");
        }
        self.right = self.right.saturating_add(1);
        Ok(())
    }

    // Holds an answer to the number that is wanted, spelled by the caller and not asked of the watcher.
    pub(crate) fn hold(&mut self, said: Said, wanted: usize) -> io::Result<()>
        ensures { self.new.right ≤ self.old.right + 1 }
    {
        self.count(number(said), wanted)
    }

    // Holds what should be so.
    pub(crate) fn hold_so(&mut self, so: bool) -> io::Result<()>
        ensures { self.new.right ≤ self.old.right + 1 }
    {
        self.count(usize::from(so), 1)
    }

    // Holds a watcher's four answers to a refusal's number.
    pub(crate) fn refused(
        &mut self,
        wanted: usize,
        watcher: Watcher,
        area: &mut [u64],
    ) -> io::Result<()>
        ensures { self.new.right ≤ self.old.right + 4 }
    {
        for said in answers(watcher, area) {
            self.hold(said, wanted)?;
        }
        Ok(())
    }

    // Writes a line: a name, and how many answers were right.
    pub(crate) fn line(&mut self, name: &str) -> io::Result<()> {
        let right = self.right;
        self.right = 0;
        println!(self.rt; "{name} {right}")
    }
}
