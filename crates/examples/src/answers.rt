// One log through the watcher, as letters: the digit of a refused start alone, or a letter for each record of the log,
// a point, the letter of closing, a blank, and the letters of asking: after the start, after each record, and after
// closing. K, B and P are words, y and n what asking says, and a hexadecimal digit is a refusal. `chance` has the like
// for pieces and places of its own: a crate between the two programs would need more contracts than it saves lines.
use crate::given::Record;
use arrayvec::ArrayString;
use watcher::state::{Refusal, Report, Verdict, Watcher, Word};

// Letters, as many as there is room for: those of fourteen records.
pub(crate) type Letters = ArrayString<32>;

// Appends a letter, if there is room.
pub(crate) fn push(letters: &mut Letters, letter: char) {
    let _ = letters.try_push(letter);
}

// The digit of a refusal's number; a question mark where it has none.
fn refusal_letter(refusal: Refusal) -> char {
    u32::try_from(refusal.number())
        .ok()
        .and_then(|digit| char::from_digit(digit, 16))
        .unwrap_or('?')
}

// The letter of a record.
fn answer_letter(answer: Result<Report, Refusal>) -> char {
    match answer {
        Ok(report) => match report.word {
            Word::Kept => 'K',
            Word::Broken => 'B',
            Word::Pending => 'P',
        },
        Err(refusal) => refusal_letter(refusal),
    }
}

// The letter of closing or asking, with one for kept and one for broken.
fn end_letter(end: Result<Verdict, Refusal>, kept: char, broken: char) -> char {
    match end {
        Ok(Verdict::Kept) => kept,
        Ok(Verdict::Broken) => broken,
        Err(refusal) => refusal_letter(refusal),
    }
}

// The letter of asking.
fn asked(watcher: Watcher, area: &[u64]) -> char {
    end_letter(watcher.ask(area), 'y', 'n')
}

// Feeds the records to a watcher that started, and closes it.
fn whole(start: Watcher, log: &[Record], area: &mut [u64]) -> Letters {
    let mut watcher = start;
    let mut letters = Letters::new();
    let mut asking = Letters::new();
    push(&mut asking, asked(watcher, area));
    for record in log {
        let fed = watcher.feed(&record.bytes(), area);
        watcher = fed.next;
        push(&mut letters, answer_letter(fed.answer));
        push(&mut asking, asked(watcher, area));
    }
    let ended = watcher.close(area);
    push(&mut letters, '.');
    push(&mut letters, end_letter(ended.answer, 'K', 'B'));
    push(&mut letters, ' ');
    push(&mut asking, asked(ended.next, area));
    let _ = letters.try_push_str(asking.as_str());
    letters
}

// Starts, feeds and closes a watcher where the start is not refused.
pub(crate) fn run(rule: &[u8], signals: &[u8], log: &[Record], area: &mut [u64]) -> Letters {
    let started = Watcher::start(rule, signals, area);
    match started.found {
        Ok(()) => whole(started.next, log, area),
        Err(refusal) => {
            let mut letters = Letters::new();
            push(&mut letters, refusal_letter(refusal));
            letters
        }
    }
}
