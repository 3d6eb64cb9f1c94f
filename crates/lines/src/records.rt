// The line of a record, with what stands behind its word.
ghost use Rattle.std.specs.Prelude.{◌≡◌};
ghost use Rattle.watcher.specs.Records.{time_of};
ghost use Rattle.lines.specs.inside.Puts.{Puts};
ghost use Rattle.lines.specs.Text.{answer_line};
ghost use Rattle.lines.specs.Lines.{behind_text};

use crate::line::Line;
use watcher::readings::time_of;
use watcher::state::{Refusal, Report, Watcher};

impl Line<'_> {
    // What stands behind a word: nothing, or more.
    fn put_behind(&mut self, piece: &[u8], more: bool, watcher: Watcher, area: &[u64])
        ensures { Puts self.old self.new (behind_text piece.now more watcher area.now) }
    {
        if more {
            self.put_ask(watcher.ask(area));
            self.put_blind(&watcher, piece);
        }
    }

    // The line of a record, by the state and area after it.
    pub(crate) fn put_answer(
        &mut self,
        piece: &[u8],
        answer: Result<Report, Refusal>,
        more: bool,
        watcher: Watcher,
        area: &[u64],
    )
        ensures { Puts self.old self.new
            (answer_line (time_of piece.now) (behind_text piece.now more watcher area.now) answer) }
    {
        match answer {
            Ok(report) => {
                self.put_number(time_of(piece) as usize);
                self.put_text(b" ");
                self.put_word(report.word);
                self.put_behind(piece, more, watcher, area);
                self.put_text(b"\n");
            }
            Err(refusal) => self.put_refused(refusal),
        }
    }
}
