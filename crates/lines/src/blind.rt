// The signals that have no reading in a record, as text behind its word.
ghost use Rattle.std.specs.Prelude.{◌≡◌};
ghost use Rattle.std.specs.List.{list_any, range_with_len};
ghost use Rattle.watcher.specs.Limits.{most_signals};
ghost use Rattle.lines.specs.inside.Puts.{Puts};
ghost use Rattle.lines.specs.Blind.{is_blind, blind_text};

use crate::line::Line;
use watcher::readings::{Tested, test_signal};
use watcher::state::Watcher;

// Whether signal n has no reading in the record.
#[tactic(auto, using(crate::proofs::Blinds::blind_eq), unfolding(crate::specs::Blind::is_blind))]
fn is_blind(watcher: &Watcher, piece: &[u8], n: usize) -> bool
    ensures { result ≡ is_blind watcher.now.list watcher.now.signals piece.now n }
{
    test_signal(&watcher.list, watcher.signals, piece, n) == Tested::NoReading
}

// Whether some signal has no reading in the record.
fn some_blind(watcher: &Watcher, piece: &[u8]) -> bool
    ensures { result
        ≡ list_any (is_blind watcher.now.list watcher.now.signals piece.now) (range_with_len 0 most_signals) }
{
    (0..Watcher::SIGNALS).any(|n| is_blind(watcher, piece, n))
}

impl Line<'_> {
    // Which signals have no reading in the record: nothing where all have one.
    pub(crate) fn put_blind(&mut self, watcher: &Watcher, piece: &[u8])
        ensures { Puts self.old self.new (blind_text (is_blind watcher.now.list watcher.now.signals piece.now)) }
    {
        if some_blind(watcher, piece) {
            self.put_text(b" blind ");
            self.put_numbers(Watcher::SIGNALS, |n| is_blind(watcher, piece, n));
        }
    }
}
