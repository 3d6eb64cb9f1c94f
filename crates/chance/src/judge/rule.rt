// Rule records, read from the bytes that document 01 lays out.

// How many minutes a word looks ahead or back: from low to high, which is none where there is no upper end.
#[derive(Clone, Copy, Debug, PartialEq, Eq)]
pub(crate) struct Interval {
    pub(crate) low: u8,
    pub(crate) high: Option<u8>,
}

impl Interval {
    // The interval of two bytes; none where the low end is 255, or a finite high end is below it.
    fn read(low: u8, high: u8) -> Option<Interval> {
        match (low, high) {
            (255, _) => None,
            (low, 255) => Some(Interval { low, high: None }),
            (low, high) if high < low => None,
            (low, high) => Some(Interval {
                low,
                high: Some(high),
            }),
        }
    }

    // Whether so many minutes are inside.
    pub(crate) fn has(self, minutes: u32) -> bool {
        let below = self.high.is_none_or(|high| minutes <= u32::from(high));
        u32::from(self.low) <= minutes && below
    }

    // How many shifts a word has that waits so long: one for each minute up to the last that is told apart.
    fn shifts(self) -> u32 {
        u32::from(self.high.unwrap_or(self.low)) + 1
    }
}

// A rule record: what it says of the signals, and of earlier records of the rule, left and right.
#[derive(Clone, Copy, Debug, PartialEq, Eq)]
pub(crate) enum Formula {
    True,
    False,
    Signal(u8),
    And(u8, u8),
    Xor(u8, u8),
    Next(Interval, u8),
    Until(Interval, u8, u8),
    Previous(Interval, u8),
    Since(Interval, u8, u8),
}

impl Formula {
    // Rule record k, from its bytes; none where they break the layout.
    pub(crate) fn read(bytes: &[u8; 8], k: u8) -> Option<Formula> {
        match *bytes {
            [1, 0, 0, 0, 0, 0, 0, 0] => Some(Formula::True),
            [2, 0, 0, 0, 0, 0, 0, 0] => Some(Formula::False),
            [3, signal, 0, 0, 0, 0, 0, 0] if signal < 16 => Some(Formula::Signal(signal)),
            [4, left, right, 0, 0, 0, 0, 0] if left < k && right < k => {
                Some(Formula::And(left, right))
            }
            [5, left, right, 0, 0, 0, 0, 0] if left < k && right < k => {
                Some(Formula::Xor(left, right))
            }
            [6, left, 0, 0, low, high, 0, 0] if left < k => {
                Some(Formula::Next(Interval::read(low, high)?, left))
            }
            [7, left, right, 0, low, high, 0, 0] if left < k && right < k => {
                Some(Formula::Until(Interval::read(low, high)?, left, right))
            }
            [8, left, 0, 0, low, high, 0, 0] if left < k => {
                Some(Formula::Previous(Interval::read(low, high)?, left))
            }
            [9, left, right, 0, low, high, 0, 0] if left < k && right < k => {
                Some(Formula::Since(Interval::read(low, high)?, left, right))
            }
            _ => None,
        }
    }

    // How many parameters the record has.
    pub(crate) fn parameters(self) -> u32 {
        match self {
            Formula::Signal(_) | Formula::Next(_, _) | Formula::Previous(_, _) => 1,
            Formula::Until(interval, _, _) | Formula::Since(interval, _, _) => interval.shifts(),
            _ => 0,
        }
    }

    // Whether it names a signal that a list of so many does not define.
    pub(crate) fn names_missing(self, signals: usize) -> bool {
        match self {
            Formula::Signal(signal) => signals <= usize::from(signal),
            _ => false,
        }
    }
}
