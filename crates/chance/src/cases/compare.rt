// Cases by chance, through the watcher and the second evaluator.
use crate::answers::watch::{horizon_said, run};
use crate::cases::agree::agree;
use crate::cases::case::Case;
use crate::judge::letters::wanted;
use crate::judge::lists::Lists;
use crate::random::lists::{random_rule, random_signals};
use crate::random::logs::random_log;
use crate::tally::Tally;
use std::fmt::Display;
use std::io;

// A comparison: where it tells differences, the watcher's area, and what it counted.
#[derive(Drop)]
pub(crate) struct Comparison<'a, P> {
    pub(crate) rt: &'a P,
    pub(crate) area: &'a mut [u64],
    pub(crate) tally: Tally,
}

// The second evaluator's horizon of the lists; none where they are refused.
fn horizon_wanted(case: &Case<'_>) -> Option<usize> {
    let lists = Lists::read(case.rule, case.signals).ok()?;
    Some(lists.horizon()? as usize)
}

impl<P: Print> Comparison<'_, P> {
    // Counts a difference, and writes it: the case whole, what was said and what was wanted.
    pub(crate) fn differs<S: Display, W: Display>(
        &mut self,
        case: &Case<'_>,
        said: &S,
        wanted: &W,
    ) -> io::Result<()> {
        self.tally.count_difference();
        println!(self.rt; "DIFFERENCE {case} said {said} wanted {wanted}")
    }

    // Compares the horizon that the watcher says with the second evaluator's.
    fn compare_horizon(&mut self, case: &Case<'_>) -> io::Result<()> {
        let said = horizon_said(case, self.area);
        self.tally.count_horizon(said.is_some());
        if said == horizon_wanted(case) {
            return Ok(());
        }
        self.differs(&Case { log: &[], ..*case }, &"another horizon", &"")
    }

    // Counts the letters that the watcher said, and compares them with the second evaluator's.
    fn compare_letters(&mut self, case: &Case<'_>) -> io::Result<()> {
        let said = run(case, self.area);
        let mine = wanted(case.rule, case.signals, case.log);
        self.tally.count_letters(said.as_str());
        if agree(said.as_str(), mine.as_str()) {
            return Ok(());
        }
        self.differs(case, &said, &mine)
    }

    // Counts and compares one case.
    fn compare(&mut self, case: &Case<'_>) -> io::Result<()> {
        self.tally.count_case();
        self.compare_letters(case)?;
        self.compare_horizon(case)?;
        self.compare_tests(case)
    }

    // Makes so many cases by chance, and compares each.
    pub(crate) fn random_cases(&mut self, cases: u64) -> io::Result<()> {
        for case in 0..cases {
            self.compare(&Case {
                rule: random_rule(case).as_slice(),
                signals: random_signals(case).as_slice(),
                log: random_log(case).as_slice(),
            })?;
        }
        Ok(())
    }
}
