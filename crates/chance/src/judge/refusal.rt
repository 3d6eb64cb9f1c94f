// The refusals that lists and logs bring up, by document 01's numbers.
#[derive(Clone, Copy, Debug, PartialEq, Eq)]
pub(crate) enum Refusal {
    RuleLength,
    RuleRecord,
    RuleTwins,
    RuleParameters,
    SignalList,
    SignalMissing,
    LogRecord,
    LogTime,
    AlreadyClosed,
    NothingFed,
}

impl Refusal {
    // The hexadecimal digit of its number.
    pub(crate) fn letter(self) -> char {
        match self {
            Refusal::RuleLength => '1',
            Refusal::RuleRecord => '2',
            Refusal::RuleTwins => '3',
            Refusal::RuleParameters => '4',
            Refusal::SignalList => '5',
            Refusal::SignalMissing => '6',
            Refusal::LogRecord => '8',
            Refusal::LogTime => '9',
            Refusal::AlreadyClosed => 'a',
            Refusal::NothingFed => 'b',
        }
    }
}
