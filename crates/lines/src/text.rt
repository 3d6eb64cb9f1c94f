// The lines that say what was found, refused or decided.
ghost use Rattle.std.specs.Prelude.{◌≡◌};
ghost use Rattle.lines.specs.inside.Puts.{Puts};
ghost use Rattle.lines.specs.Text.{word_text, verdict_text, refused_line, found_line, ask_text, end_line};

use crate::line::Line;
use watcher::state::{Refusal, Verdict, Word};

impl Line<'_> {
    // A word.
    #[tactic(auto, unfolding(crate::specs::Text::word_text))]
    pub(crate) fn put_word(&mut self, word: Word)
        ensures { Puts self.old self.new (word_text word) }
    {
        match word {
            Word::Kept => self.put_text(b"kept"),
            Word::Broken => self.put_text(b"broken"),
            Word::Pending => self.put_text(b"pending"),
        }
    }

    // A verdict.
    #[tactic(auto, unfolding(crate::specs::Text::verdict_text))]
    fn put_verdict(&mut self, verdict: Verdict)
        ensures { Puts self.old self.new (verdict_text verdict) }
    {
        self.put_word(verdict.word());
    }

    // The line of a refusal.
    pub(crate) fn put_refused(&mut self, refusal: Refusal)
        ensures { Puts self.old self.new (refused_line refusal) }
    {
        self.put_text(b"refused ");
        self.put_number(refusal.number());
        self.put_text(b"\n");
    }

    // The line of a start: none where nothing is refused.
    #[tactic(auto, using(crate::proofs::Texts::puts_none), unfolding(crate::specs::Text::found_line))]
    pub(crate) fn put_found(&mut self, found: Result<(), Refusal>)
        ensures { Puts self.old self.new (found_line found) }
    {
        if let Err(refusal) = found {
            self.put_refused(refusal);
        }
    }

    // What asking answers, behind a word: nothing where it is refused.
    pub(crate) fn put_ask(&mut self, end: Result<Verdict, Refusal>)
        ensures { Puts self.old self.new (ask_text end) }
    {
        if let Ok(verdict) = end {
            self.put_text(b" ask ");
            self.put_verdict(verdict);
        }
    }

    // The line of an end.
    pub(crate) fn put_end(&mut self, end: Result<Verdict, Refusal>)
        ensures { Puts self.old self.new (end_line end) }
    {
        self.put_text(b"end ");
        match end {
            Ok(verdict) => {
                self.put_verdict(verdict);
                self.put_text(b"\n");
            }
            Err(refusal) => self.put_refused(refusal),
        }
    }
}
