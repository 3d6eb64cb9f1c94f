// Tests of signals, by the watcher and by the second evaluator.
use crate::answers::letters::test_letter;
use crate::cases::case::{Case, PIECES};
use crate::cases::compare::Comparison;
use crate::judge::lists::Lists;
use crate::judge::log::Record;
use std::io;
use watcher::readings::{Tested, test_signal};
use watcher::state::Watcher;

// Signals that are tested, one more than a list may have.
const TESTED: u8 = 17;

// A test as the watcher would say it: none is no reading.
fn tested(held: Option<bool>) -> Tested {
    match held {
        Some(true) => Tested::Holds,
        Some(false) => Tested::DoesNotHold,
        None => Tested::NoReading,
    }
}

impl<P: Print> Comparison<'_, P> {
    // Compares a test of signal n in a record. A difference is written with the first bytes of the rule that is this
    // signal.
    fn compare_test(
        &mut self,
        case: &Case<'_>,
        lists: &Lists<'_>,
        n: u8,
        record: &Record,
    ) -> io::Result<()> {
        let place = usize::from(n);
        let said = test_letter(test_signal(case.signals, case.signals.len() / 8, case.log, place));
        let mine = test_letter(tested(lists.test(place, record)));
        self.tally.count_test(said, lists.defines(place));
        if said == mine {
            return Ok(());
        }
        let case = Case {
            rule: &[3, n],
            ..*case
        };
        self.differs(&case, &said, &mine)
    }

    // Compares the tests of signals 0 to 16, whether the list has them or not, in the twelve pieces of a log that are
    // records, where the lists are not refused.
    pub(crate) fn compare_tests(&mut self, case: &Case<'_>) -> io::Result<()> {
        let Ok(lists) = Lists::read(case.rule, case.signals) else {
            return Ok(());
        };
        for piece in case.log.chunks(Watcher::LOG_BYTES).take(PIECES) {
            if let Some(record) = Record::read(piece) {
                for n in 0..TESTED {
                    self.compare_test(
                        &Case {
                            log: piece,
                            ..*case
                        },
                        &lists,
                        n,
                        &record,
                    )?;
                }
            }
        }
        Ok(())
    }
}
