// Start, feed and ask, each with the line that it prints.
ghost use Rattle.lines.specs.Clauses.{LineBytesClause, StartLineClause, FeedLineClause, AskLineClause};

use crate::line::Line;
use watcher::state::{Watcher, is_refused};

// Bytes that no line has more of.
pub const LINE_BYTES: usize = 80;

// What start hands back: the state, whether it is ready, and how many bytes its line has.
// It stays no Option: its clause says the state where start is refused too.
#[derive(Clone, Copy)]
pub struct Opened {
    pub next: Watcher,
    pub ready: bool,
    pub length: usize,
}

// What feeding hands back: the next state, and how many bytes its line has. The buffer is the caller's, so the length
// stays a number beside it.
#[derive(Clone, Copy)]
pub struct Turn {
    pub next: Watcher,
    pub length: usize,
}

// The constant above is the bound that the definitions name.
pub fn line_bytes() -> usize
    ensures { LineBytesClause result }
{
    LINE_BYTES
}

// Start a watcher; the line is its refusal, if there is one.
pub fn start_line(rule: &[u8], signals: &[u8], area: &mut [u64], out: &mut [u8]) -> Opened
    ensures { StartLineClause rule.now signals.now area.old out.old
        (result, area.new, out.new) }
{
    let started = Watcher::start(rule, signals, area);
    let mut line = Line::new(out);
    line.put_found(started.found);
    Opened {
        next: started.next,
        ready: !is_refused(started.found),
        length: line.len(),
    }
}

// Feed a piece of the log; the line is its time and word, and more behind it if so asked, or its refusal.
pub fn feed_line(
    watcher: Watcher,
    piece: &[u8],
    more: bool,
    area: &mut [u64],
    out: &mut [u8],
) -> Turn
    ensures { FeedLineClause watcher piece.now more area.old out.old
        (result, area.new, out.new) }
{
    let fed = watcher.feed(piece, area);
    let mut line = Line::new(out);
    line.put_answer(piece, fed.answer, more, fed.next, area);
    Turn {
        next: fed.next,
        length: line.len(),
    }
}

// Ask how the log ends; the line is the verdict, or the refusal.
pub fn ask_line(watcher: Watcher, area: &[u64], out: &mut [u8]) -> usize
    ensures { AskLineClause watcher area.now out.old (result, out.new) }
{
    let mut line = Line::new(out);
    line.put_end(watcher.ask(area));
    line.len()
}
