// The horizon in minutes, from document 01's words; none where the rule has no limit.
use crate::judge::lists::{LIST_RECORDS, Lists};
use crate::judge::rule::{Formula, Interval};

// The larger of two waits.
fn larger(one: Option<u32>, other: Option<u32>) -> Option<u32> {
    Some(one?.max(other?))
}

// A wait, and the interval's high end more.
fn more(interval: Interval, wait: Option<u32>) -> Option<u32> {
    Some(wait?.saturating_add(u32::from(interval.high?)))
}

// How long a rule record can stay open, by the waits of the records before it.
fn wait_of(formula: Formula, waits: &[Option<u32>]) -> Option<u32> {
    let wait = |k: u8| waits.get(usize::from(k)).copied().flatten();
    match formula {
        Formula::True | Formula::False | Formula::Signal(_) => Some(0),
        Formula::Next(interval, left) => more(interval, wait(left)),
        Formula::Until(interval, left, right) => more(interval, larger(wait(left), wait(right))),
        Formula::Previous(_, left) => wait(left),
        Formula::And(left, right) | Formula::Xor(left, right) | Formula::Since(_, left, right) => {
            larger(wait(left), wait(right))
        }
    }
}

impl Lists<'_> {
    // The horizon of the rule. This stays a loop over k: each wait is found from those before it in the same array.
    pub(crate) fn horizon(&self) -> Option<u32> {
        let mut waits = [None; LIST_RECORDS];
        let mut last = None;
        for k in 0..LIST_RECORDS {
            if let Some(formula) = self.formula(k) {
                last = wait_of(formula, &waits);
                waits[k] = last;
            }
        }
        last
    }
}
