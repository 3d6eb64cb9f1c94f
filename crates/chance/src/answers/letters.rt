// The watcher's answers as letters: K, B and P for words, two letters that are given for verdicts, a hexadecimal digit
// for a refusal, +, - and ? for tests. `examples` has the like of its own: a crate between the two programs would need
// more contracts than it saves lines.
use watcher::readings::Tested;
use watcher::state::{Refusal, Report, Verdict, Word};

// The digit of a refusal's number; a hash where it has none.
pub(crate) fn refusal_letter(refusal: Refusal) -> char {
    u32::try_from(refusal.number())
        .ok()
        .and_then(|digit| char::from_digit(digit, 16))
        .unwrap_or('#')
}

// The letter of an answer to a record.
pub(crate) fn answer_letter(answer: Result<Report, Refusal>) -> char {
    match answer {
        Ok(report) => match report.word {
            Word::Kept => 'K',
            Word::Broken => 'B',
            Word::Pending => 'P',
        },
        Err(refusal) => refusal_letter(refusal),
    }
}

// The letter of an answer to closing or asking, with one for kept and one for broken.
pub(crate) fn end_letter(end: Result<Verdict, Refusal>, kept: char, broken: char) -> char {
    match end {
        Ok(Verdict::Kept) => kept,
        Ok(Verdict::Broken) => broken,
        Err(refusal) => refusal_letter(refusal),
    }
}

// The letter of a test: it holds, it does not, or there is no reading.
pub(crate) fn test_letter(tested: Tested) -> char {
    match tested {
        Tested::Holds => '+',
        Tested::DoesNotHold => '-',
        Tested::NoReading => '?',
    }
}
