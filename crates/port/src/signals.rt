// A test of one signal in one log record.
ghost use Rattle.port.specs.Clauses.{TestClause};

use crate::codes::{refusal_code, test_code};
use watcher::readings::{test_signal, wrong_record};
use watcher::signals::wrong_signals;
use watcher::state::{Refusal, Watcher};

// Test the signal with a number in the list: whether it holds in the record, or has no reading there.
pub fn hunchcold_test(signals: &[u8], number: usize, piece: &[u8]) -> u8
    ensures { TestClause signals.now number piece.now result }
{
    if wrong_signals(signals) {
        return refusal_code(Refusal::SignalList);
    }
    if wrong_record(piece) {
        return refusal_code(Refusal::LogRecord);
    }
    let count = signals.len() / Watcher::RECORD_BYTES;
    if count <= number {
        return refusal_code(Refusal::SignalMissing);
    }
    test_code(test_signal(signals, count, piece, number))
}
