// States that are damaged, one for each part of document 01's account of 12, and damaged ones that are fresh or closed.
ghost use Rattle.std.specs.Prelude.{◌≤◌, ◌+◌};

use crate::given::{RULE_A, RULE_B, closed_a, fresh, running, running_a};
use crate::tried::Tried;
use std::io;
use watcher::state::{Phase, Watcher};

// A bit at 2^5 of a row.
const WIDE: u64 = 1 << 32;

// Words of rule A's area that are overwritten: a past row and the remainder with a bit at 2^5, a row that is not used,
// a signal's that is not its constant, and an until's that is not itself.
const OVERWRITTEN: [(usize, u64); 5] = [(128, WIDE), (768, WIDE), (320, 1), (0, 0), (128, 0)];

// The state with a byte behind its rule.
fn followed(watcher: Watcher) -> Watcher {
    let mut rule = watcher.rule;
    rule[127] = 1;
    Watcher { rule, ..watcher }
}

// The state with a signal that its list of two does not have.
fn brightened(watcher: Watcher) -> Watcher {
    Watcher {
        phase: Phase::Running {
            time: 0,
            signals: 5,
        },
        ..watcher
    }
}

impl<P: Print> Tried<'_, P> {
    // Holds a state with a word of its area overwritten.
    fn word_refused(
        &mut self,
        watcher: Watcher,
        place: usize,
        word: u64,
        area: &mut [u64],
    ) -> io::Result<()>
        ensures { self.new.right ≤ self.old.right + 4 }
    {
        if let Some(old) = area.get_mut(place) {
            *old = word;
        }
        self.refused(12, watcher, area)
    }

    // Rows of another shape; a fresh state with a past row, since 12 comes before 11, and a closed one with a row that
    // is not used, since it comes before 10; and a since's row that names a signal.
    fn rows_refused(&mut self, area: &mut [u64]) -> io::Result<()>
        ensures { self.new.right ≤ self.old.right + 32 }
    {
        for (place, word) in OVERWRITTEN {
            let watcher = running_a(area);
            self.word_refused(watcher, place, word, area)?;
        }
        let early = fresh(&RULE_A, area);
        self.word_refused(early, 0, 1, area)?;
        let late = closed_a(area);
        self.word_refused(late, 320, 1, area)?;
        let naming = running(&RULE_B, area);
        self.word_refused(naming, 128, 2, area)
    }

    // The damaged states, the watcher's with its area as they are first: with no rule, no list, a byte behind the rule,
    // and a signal above the list.
    pub(crate) fn states_refused(&mut self, watcher: Watcher, area: &mut [u64]) -> io::Result<()>
        ensures { self.new.right ≤ self.old.right + 48 }
    {
        let states = [
            Watcher {
                records: 0,
                ..watcher
            },
            Watcher {
                signals: 0,
                ..watcher
            },
            followed(watcher),
            brightened(watcher),
        ];
        for state in states {
            self.refused(12, state, area)?;
        }
        self.rows_refused(area)
    }
}
