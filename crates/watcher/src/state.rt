// The watcher's state, its limits, and its answers.
ghost use Rattle.watcher.specs.Clauses.{LimitsClause, IsRefusedClause, VerdictClause, WordClause, LastClause};
ghost use Rattle.watcher.specs.Clauses.{ZeroStateClause};

use rewriting::rule::RECORD_BYTES;
use rewriting::step::Moment;

// The word after a record.
#[derive(Clone, Copy)]
pub enum Word {
    Kept,
    Broken,
    Pending,
}

// How a closed log ended.
#[derive(Clone, Copy, Debug, PartialEq, Eq)]
pub enum Verdict {
    Kept,
    Broken,
}

// What the watcher has seen: nothing yet, a last record with its time and signals, or the end.
#[derive(Clone, Copy)]
pub enum Phase {
    Fresh,
    Running { time: u32, signals: u16 },
    Closed(Verdict),
}

// A refusal: document 01's numbers 1 to 12, in that order.
#[derive(Clone, Copy)]
pub enum Refusal {
    RuleLength = 1,
    RuleRecord = 2,
    RuleTwins = 3,
    RuleParameters = 4,
    SignalList = 5,
    SignalMissing = 6,
    AreaLength = 7,
    LogRecord = 8,
    LogTime = 9,
    AlreadyClosed = 10,
    NothingFed = 11,
    BrokenState = 12,
}

// Where a search of a list first finds something: at a record and, second, its byte or an earlier record.
#[derive(Clone, Copy)]
pub struct Place {
    pub record: usize,
    pub second: usize,
}

// What an accepted record is told: the word.
#[derive(Clone, Copy)]
pub struct Report {
    pub word: Word,
}

// The rule's bytes and its records, the signals' bytes and their count, zeros behind each, and the phase. They stay
// arrays with a count: memory is fixed, and a state that is handed in may have anything behind, which check 12 judges.
#[derive(Clone, Copy)]
pub struct Watcher {
    pub rule: [u8; Watcher::LIST_BYTES],
    pub records: usize,
    pub list: [u8; Watcher::LIST_BYTES],
    pub signals: usize,
    pub phase: Phase,
}

// What start hands back: what it found, and the state; they stand side by side, since a refusal hands a state back too.
#[derive(Clone, Copy)]
pub struct Started {
    pub found: Result<(), Refusal>,
    pub next: Watcher,
}

// What feeding a record hands back: its report or a refusal, and the next state.
#[derive(Clone, Copy)]
pub struct Fed {
    pub answer: Result<Report, Refusal>,
    pub next: Watcher,
}

// What closing hands back: how the log ended or a refusal, and the next state.
#[derive(Clone, Copy)]
pub struct Ended {
    pub answer: Result<Verdict, Refusal>,
    pub next: Watcher,
}

// The limits of the watcher, as numbers.
#[derive(Clone, Copy)]
pub struct Limits {
    pub records: usize,
    pub signals: usize,
    pub parameters: usize,
    pub record_bytes: usize,
    pub list_bytes: usize,
    pub log_bytes: usize,
    pub words: usize,
}

// Whether something is refused.
pub fn is_refused(found: Result<(), Refusal>) -> bool
    ensures { IsRefusedClause found result }
{
    found.is_err()
}

impl From<bool> for Verdict {
    ghost from_gives = { VerdictClause };

    #[tactic(auto, unfolding(crate::specs::Numbers::verdict_for))]
    fn from(value: bool) -> Verdict
        ensures { VerdictClause value result }
    {
        if value {
            Verdict::Kept
        } else {
            Verdict::Broken
        }
    }
}

impl Verdict {
    // The word that says the same. It stays a method: Word::from would be a second name for it.
    #[tactic(auto, unfolding(crate::specs::Numbers::decided, crate::specs::Numbers::verdict_value))]
    pub fn word(self) -> Word
        ensures { WordClause self result }
    {
        match self {
            Verdict::Kept => Word::Kept,
            Verdict::Broken => Word::Broken,
        }
    }
}

impl Phase {
    // The last record; zeros where there is none, since the clause has a moment for every phase.
    #[tactic(auto, unfolding(crate::specs::Numbers::last_in, crate::specs::Numbers::stage_of))]
    pub fn last(self) -> Moment
        ensures { LastClause self result }
    {
        match self {
            Phase::Running { time, signals } => Moment { time, signals },
            Phase::Fresh | Phase::Closed(_) => Moment {
                time: 0,
                signals: 0,
            },
        }
    }
}

impl Watcher {
    pub const RECORDS: usize = 16;

    pub const SIGNALS: usize = 16;

    pub const PARAMETERS: usize = 12;

    pub const RECORD_BYTES: usize = RECORD_BYTES;

    pub const LIST_BYTES: usize = Self::RECORDS * Self::RECORD_BYTES;

    pub const LOG_BYTES: usize = 16;

    // Words of a row.
    const ROW_WORDS: usize = 64;

    // The past rows and the remainder, and as many rows of scratch.
    pub const WORDS: usize = Self::ROW_WORDS * (2 * (Self::PARAMETERS + 1));

    // A row for each record's form.
    pub const TABLE_WORDS: usize = Self::ROW_WORDS * Self::RECORDS;

    // The constants above are the limits that the definitions name.
    #[tactic(auto, unfolding(rewriting::specs::Known::words_for))]
    pub fn limits() -> Limits
        ensures { LimitsClause result }
    {
        Limits {
            records: Self::RECORDS,
            signals: Self::SIGNALS,
            parameters: Self::PARAMETERS,
            record_bytes: Self::RECORD_BYTES,
            list_bytes: Self::LIST_BYTES,
            log_bytes: Self::LOG_BYTES,
            words: Self::WORDS,
        }
    }

    // A fresh state of zeros.
    #[tactic(auto, unfolding(crate::specs::Calls::zero_state))]
    pub fn zero_state() -> Watcher
        ensures { ZeroStateClause result }
    {
        Watcher {
            rule: [0; Self::LIST_BYTES],
            records: 0,
            list: [0; Self::LIST_BYTES],
            signals: 0,
            phase: Phase::Fresh,
        }
    }
}
