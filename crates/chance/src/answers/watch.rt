// One log through the watcher, as letters: the digit of a refused start alone, or a letter for each 16 bytes of the
// log, a point, the letter of closing, a blank, and the letters of asking: after the start, after each 16 bytes, and
// after closing.
use crate::answers::letters::{answer_letter, end_letter, refusal_letter};
use crate::cases::case::{Case, PIECES};
use crate::judge::letters::{Letters, joined, only, push};
use watcher::state::Watcher;

// The letter of asking.
fn asked(watcher: Watcher, area: &[u64]) -> char {
    end_letter(watcher.ask(area), 'y', 'n')
}

// Feeds the log to a watcher that started, and closes it.
fn whole(start: Watcher, case: &Case<'_>, area: &mut [u64]) -> Letters {
    let mut watcher = start;
    let mut letters = Letters::new();
    let mut asking = only(asked(watcher, area));
    for piece in case.log.chunks(Watcher::LOG_BYTES).take(PIECES) {
        let fed = watcher.feed(piece, area);
        watcher = fed.next;
        push(&mut letters, answer_letter(fed.answer));
        push(&mut asking, asked(watcher, area));
    }
    let ended = watcher.close(area);
    push(&mut letters, '.');
    push(&mut letters, end_letter(ended.answer, 'K', 'B'));
    push(&mut letters, ' ');
    push(&mut asking, asked(ended.next, area));
    joined(&letters, &asking)
}

// The watcher that starts with the lists; one of zeros where they are refused.
fn started(case: &Case<'_>, area: &mut [u64]) -> Watcher {
    let started = Watcher::start(case.rule, case.signals, area);
    started.next
}

// Starts, feeds and closes a watcher where the start would not be refused.
pub(crate) fn run(case: &Case<'_>, area: &mut [u64]) -> Letters {
    match Watcher::start_would_refuse(case.rule, case.signals, area) {
        Ok(()) => whole(started(case, area), case, area),
        Err(refusal) => only(refusal_letter(refusal)),
    }
}

// The horizon of the watcher that starts with the lists, if it has one.
pub(crate) fn horizon_said(case: &Case<'_>, area: &mut [u64]) -> Option<usize> {
    started(case, area).horizon()
}
