// The codes of answers. They stay numbers, and have a function each for words and tests: C is handed them.
ghost use Rattle.std.specs.Prelude.{◌≡◌};
ghost use Rattle.watcher.specs.Numbers.{refusal_number, horizon_for};
ghost use Rattle.port.specs.Codes.{word_code, test_code, found_code, told_of, told_at, told_code, horizon_code};

use watcher::readings::Tested;
use watcher::state::{Refusal, Report, Verdict, Word};

// Codes that are not one for each piece of the log.
pub(crate) const CODES_LENGTH: u8 = 90;

// A state that is not 280 bytes.
pub(crate) const STATE_LENGTH: u8 = 91;

// The horizon of a rule that has none.
pub(crate) const FOREVER: u64 = 18446744073709551615;

// A refusal's code is its number.
pub(crate) fn refusal_code(refusal: Refusal) -> u8
    ensures { result ≡ refusal_number refusal }
{
    refusal.number() as u8
}

// The code of a word.
pub(crate) fn word_code(word: Word) -> u8
    ensures { result ≡ word_code word }
{
    match word {
        Word::Kept => 101,
        Word::Broken => 102,
        Word::Pending => 103,
    }
}

// The code of a test of a signal.
pub(crate) fn test_code(tested: Tested) -> u8
    ensures { result ≡ test_code tested }
{
    match tested {
        Tested::Holds => 111,
        Tested::DoesNotHold => 112,
        Tested::NoReading => 113,
    }
}

// The code of what a check finds.
#[tactic(auto, unfolding(crate::specs::Codes::found_code))]
pub(crate) fn found_code(found: Result<(), Refusal>) -> u8
    ensures { result ≡ found_code found }
{
    match found {
        Ok(()) => 0,
        Err(refusal) => refusal_code(refusal),
    }
}

// What the answer to a record tells.
#[tactic(auto, unfolding(crate::specs::Codes::told_of))]
pub(crate) fn told_of(answer: Result<Report, Refusal>) -> Result<Word, Refusal>
    ensures { result ≡ told_of answer }
{
    answer.map(|report| report.word)
}

// What the answer to asking or closing tells: a verdict is the word that says the same.
#[tactic(auto, unfolding(crate::specs::Codes::told_at))]
pub(crate) fn told_at(end: Result<Verdict, Refusal>) -> Result<Word, Refusal>
    ensures { result ≡ told_at end }
{
    end.map(Verdict::word)
}

// The code of what is told.
#[tactic(auto, unfolding(crate::specs::Codes::told_code))]
pub(crate) fn told_code(told: Result<Word, Refusal>) -> u8
    ensures { result ≡ told_code told }
{
    match told {
        Ok(word) => word_code(word),
        Err(refusal) => refusal_code(refusal),
    }
}

// A horizon in minutes.
#[tactic(auto, unfolding(crate::specs::Codes::horizon_code, watcher::specs::Numbers::horizon_for))]
pub(crate) fn horizon_code(wait: Option<usize>) -> u64
    ensures { result ≡ horizon_code (horizon_for wait) }
{
    wait.map_or(FOREVER, |minutes| minutes as u64)
}
