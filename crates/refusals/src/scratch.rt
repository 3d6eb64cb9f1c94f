// Asking where the scratch is dirty: it stays, and closing clears it and says the same.
ghost use Rattle.std.specs.Prelude.{◌≤◌, ◌+◌};

use crate::given::{met_a, running_a};
use crate::tried::{BROKEN, KEPT, Tried};
use std::io;
use watcher::state::Watcher;

// The first word of the scratch, which is the second half of the area.
const SCRATCH: usize = Watcher::WORDS / 2;

// A word of dirt: every bit.
const DIRT: u64 = u64::MAX;

// Whether every word of the scratch is this one.
fn scratch_is(area: &[u64; Watcher::WORDS], word: u64) -> bool {
    area[SCRATCH..].iter().all(|here| *here == word)
}

impl<P: Print> Tried<'_, P> {
    // Holds what is said where the scratch is made dirty: asking twice, the dirt after it, closing, the clear scratch.
    fn asked_on_dirt(
        &mut self,
        wanted: usize,
        watcher: Watcher,
        area: &mut [u64; Watcher::WORDS],
    ) -> io::Result<()>
        ensures { self.new.right ≤ self.old.right + 5 }
    {
        area[SCRATCH..].fill(DIRT);
        self.hold(watcher.ask(area).map(Some), wanted)?;
        self.hold(watcher.ask(area).map(Some), wanted)?;
        self.hold_so(scratch_is(area, DIRT))?;
        self.hold(watcher.close(area).answer.map(Some), wanted)?;
        self.hold_so(scratch_is(area, 0))
    }

    // A log that is broken so far, and one that is kept.
    pub(crate) fn dirty_scratch(&mut self, area: &mut [u64; Watcher::WORDS]) -> io::Result<()> {
        let early = running_a(area);
        self.asked_on_dirt(BROKEN, early, area)?;
        let late = met_a(area);
        self.asked_on_dirt(KEPT, late, area)
    }
}
