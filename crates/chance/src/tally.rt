// How many cases there were and how often each answer came: words, closings, asks, horizons, tests of signals and
// refusals; and how many were not the wanted ones.
use std::fmt;

// Refusals by their numbers, which have one hexadecimal digit.
const REFUSALS: usize = 16;

// The counts.
#[derive(Clone, Copy, Debug, Default)]
pub(crate) struct Tally {
    cases: u64,
    kept: u64,
    broken: u64,
    pending: u64,
    decided: u64,
    closed_kept: u64,
    closed_broken: u64,
    asked_kept: u64,
    asked_broken: u64,
    horizon: u64,
    no_horizon: u64,
    holds: u64,
    does_not_hold: u64,
    no_reading: u64,
    not_listed: u64,
    refused: [u64; REFUSALS],
    differences: u64,
}

// Counts one more.
fn count(place: &mut u64) {
    *place = place.wrapping_add(1);
}

// Whether the letter stands for a decided word.
pub(crate) fn is_decided(letter: char) -> bool {
    letter == 'K' || letter == 'B'
}

impl Tally {
    // Counts a case.
    pub(crate) fn count_case(&mut self) {
        count(&mut self.cases);
    }

    // Counts a difference.
    pub(crate) fn count_difference(&mut self) {
        count(&mut self.differences);
    }

    // Counts a horizon, or that there is none.
    pub(crate) fn count_horizon(&mut self, has_horizon: bool) {
        if has_horizon {
            count(&mut self.horizon);
        } else {
            count(&mut self.no_horizon);
        }
    }

    // Counts a test by its letter, or that the list does not have the signal.
    pub(crate) fn count_test(&mut self, letter: char, listed: bool) {
        match letter {
            _ if !listed => count(&mut self.not_listed),
            '+' => count(&mut self.holds),
            '-' => count(&mut self.does_not_hold),
            _ => count(&mut self.no_reading),
        }
    }

    // Counts a letter behind another: behind a point it is a closing's, and a point behind a decided word ends a log
    // that was decided before its end.
    fn count_letter(&mut self, before: Option<char>, letter: char) {
        match (before, letter) {
            (Some('K' | 'B'), '.') => count(&mut self.decided),
            (Some('.'), 'K') => count(&mut self.closed_kept),
            (Some('.'), 'B') => count(&mut self.closed_broken),
            (_, 'K') => count(&mut self.kept),
            (_, 'B') => count(&mut self.broken),
            (_, 'P') => count(&mut self.pending),
            (_, 'y') => count(&mut self.asked_kept),
            (_, 'n') => count(&mut self.asked_broken),
            _ => self.count_refusal(letter),
        }
    }

    // Counts a refusal, if the letter is one.
    fn count_refusal(&mut self, letter: char) {
        if let Some(number) = letter.to_digit(16)
            && let Some(place) = self.refused.get_mut(number as usize)
        {
            count(place);
        }
    }

    // Counts the letters that were said.
    pub(crate) fn count_letters(&mut self, said: &str) {
        let mut before = None;
        for letter in said.chars() {
            self.count_letter(before, letter);
            before = Some(letter);
        }
    }
}

// The whole tally, a line for each count; lists and logs bring up no refusal 7.
impl fmt::Display for Tally {
    fn fmt<W: fmt::Write>(&self, f: &mut fmt::Formatter<W>) -> fmt::Result {
        writeln!(f, "cases {}", self.cases)?;
        writeln!(f, "kept {}", self.kept)?;
        writeln!(f, "broken {}", self.broken)?;
        writeln!(f, "pending {}", self.pending)?;
        writeln!(f, "decided before the end {}", self.decided)?;
        writeln!(f, "closed kept {}", self.closed_kept)?;
        writeln!(f, "closed broken {}", self.closed_broken)?;
        writeln!(f, "asked kept {}", self.asked_kept)?;
        writeln!(f, "asked broken {}", self.asked_broken)?;
        writeln!(f, "with a horizon {}", self.horizon)?;
        writeln!(f, "without a horizon {}", self.no_horizon)?;
        writeln!(f, "tests that hold {}", self.holds)?;
        writeln!(f, "tests that do not hold {}", self.does_not_hold)?;
        writeln!(f, "tests with no reading {}", self.no_reading)?;
        writeln!(f, "tests of a signal past the list {}", self.not_listed)?;
        for number in [1usize, 2, 3, 4, 5, 6, 8, 9, 10, 11] {
            writeln!(f, "refused {number} {}", self.refused[number])?;
        }
        writeln!(f, "differences {}", self.differences)
    }
}
