// What a rule means: the value at each record, by looking for the records that the words name.
use crate::judge::lists::{LIST_RECORDS, Lists};
use crate::judge::log::{LOG_RECORDS, Record};
use crate::judge::rule::{Formula, Interval};

// What is known of a log: for each rule record looked at so far, at which log records it holds.
#[derive(Clone, Copy)]
struct Known<'a> {
    lists: Lists<'a>,
    log: &'a [Record],
    table: [[bool; LOG_RECORDS]; LIST_RECORDS],
}

impl Known<'_> {
    // Whether rule record k holds at log record i.
    fn held(&self, k: u8, i: usize) -> bool {
        let row = self.table.get(usize::from(k));
        row.and_then(|row| row.get(i)).is_some_and(|held| *held)
    }

    // Whether rule record k holds at every log record from one up to but not including another.
    fn every(&self, k: u8, from: usize, to: usize) -> bool {
        (from..to).all(|i| self.held(k, i))
    }

    // Whether some log record shows it, among those whose minutes from log record i are in the interval.
    fn shown<F: Fn(usize) -> bool>(&self, interval: Interval, i: usize, shows: F) -> bool
        requires { F.IsAlwaysCallable shows }
    {
        let Some(now) = self.log.get(i) else {
            return false;
        };
        self.log.iter().enumerate().any(|(j, then)| interval.has(now.time.abs_diff(then.time))
            && shows(j))
    }

    // Whether a rule record holds at log record i.
    fn holds(&self, formula: Formula, i: usize) -> bool {
        let after = i.saturating_add(1);
        match formula {
            Formula::True => true,
            Formula::False => false,
            Formula::Signal(n) => self.signal_holds(n, i),
            Formula::And(left, right) => self.held(left, i) && self.held(right, i),
            Formula::Xor(left, right) => self.held(left, i) != self.held(right, i),
            Formula::Next(within, left) => {
                self.shown(within, i, |j| j == after && self.held(left, j))
            }
            Formula::Until(within, left, right) => self.shown(within, i, |j| {
                i <= j && self.held(right, j) && self.every(left, i, j)
            }),
            Formula::Previous(within, left) => self.shown(within, i, |j| {
                j.saturating_add(1) == i && self.held(left, j)
            }),
            Formula::Since(within, left, right) => self.shown(within, i, |j| {
                j <= i && self.held(right, j) && self.every(left, j.saturating_add(1), after)
            }),
        }
    }

    // Whether signal n holds at log record i.
    fn signal_holds(&self, n: u8, i: usize) -> bool {
        let record = self.log.get(i);
        record.and_then(|record| self.lists.test(usize::from(n), record)) == Some(true)
    }

    // At which log records a rule record holds.
    fn row(&self, formula: Formula) -> [bool; LOG_RECORDS] {
        let mut row = [false; LOG_RECORDS];
        for (i, held) in row.iter_mut().enumerate().take(self.log.len()) {
            *held = self.holds(formula, i);
        }
        row
    }
}

impl Lists<'_> {
    // The value of a log: the rule's value at the first record; none where there is no record. This stays a loop over
    // k: each row is found from those before it in the same table.
    pub(crate) fn value(&self, log: &[Record]) -> Option<bool> {
        let mut known = Known {
            lists: *self,
            log,
            table: [[false; LOG_RECORDS]; LIST_RECORDS],
        };
        let mut last = [false; LOG_RECORDS];
        for k in 0..LIST_RECORDS {
            if let Some(formula) = self.formula(k) {
                last = known.row(formula);
                known.table[k] = last;
            }
        }
        if log.is_empty() { None } else { Some(last[0]) }
    }
}
