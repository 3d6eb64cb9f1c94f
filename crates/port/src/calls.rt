// The watcher call by call, with its state in lent bytes. Each call tests their length by itself: to hand back an
// Option of the state costs more than that.
ghost use Rattle.std.specs.Prelude.{◌≡◌, List, ℕ, length};
ghost use Rattle.port.specs.Layout.{state_bytes};
ghost use Rattle.port.specs.Exports.{told_bytes};
ghost use Rattle.port.specs.Clauses.{StartClause, WouldRefuseClause, FeedClause};
ghost use Rattle.port.specs.Clauses.{AskClause, CloseClause, HorizonClause};

use crate::codes::{STATE_LENGTH, found_code, horizon_code, told_at, told_code, told_of};
use crate::layout::{STATE_BYTES, read_state, write_state};
use watcher::state::{Refusal, Watcher, Word};

// Start a watcher.
#[tactic(auto, unfolding(crate::specs::Exports::start_bytes, crate::specs::Exports::started_bytes, crate::specs::Exports::wrong_state))]
pub fn hunchcold_start(rule: &[u8], signals: &[u8], bytes: &mut [u8], area: &mut [u64]) -> u8
    ensures { StartClause rule.now signals.now bytes.old area.old
        (result, bytes.new, area.new) }
{
    if bytes.len() != STATE_BYTES {
        return STATE_LENGTH;
    }
    let started = Watcher::start(rule, signals, area);
    write_state(started.next, bytes);
    found_code(started.found)
}

// Would this record be refused, and by which number.
#[tactic(auto, unfolding(crate::specs::Exports::refusal_bytes, crate::specs::Exports::wrong_state))]
pub fn hunchcold_would_refuse(bytes: &[u8], piece: &[u8], area: &[u64]) -> u8
    ensures { WouldRefuseClause bytes.now piece.now area.now result }
{
    if bytes.len() != STATE_BYTES {
        return STATE_LENGTH;
    }
    found_code(read_state(bytes).would_refuse(piece, area))
}

// The code of what is told; the next state is written unless that is a refusal.
#[tactic(auto, unfolding(crate::specs::Exports::told_bytes, crate::specs::Exports::kept_unless))]
fn write_told(told: Result<Word, Refusal>, next: Watcher, bytes: &mut [u8]) -> u8
    requires { length bytes.old ≡ state_bytes }
    ensures { (ws : List ℕ) → (result, bytes.new, ws) ≡ told_bytes told next ws bytes.old }
{
    if told.is_ok() {
        write_state(next, bytes);
    }
    told_code(told)
}

// Feed one record.
#[tactic(auto, unfolding(crate::specs::Exports::feed_bytes, crate::specs::Exports::fed_bytes, crate::specs::Exports::wrong_state))]
pub fn hunchcold_feed(bytes: &mut [u8], piece: &[u8], area: &mut [u64]) -> u8
    ensures { FeedClause bytes.old piece.now area.old
        (result, bytes.new, area.new) }
{
    if bytes.len() != STATE_BYTES {
        return STATE_LENGTH;
    }
    let fed = read_state(bytes).feed(piece, area);
    write_told(told_of(fed.answer), fed.next, bytes)
}

// How the log ends, were this the last record.
#[tactic(auto, unfolding(crate::specs::Exports::ask_bytes, crate::specs::Codes::end_code, crate::specs::Exports::wrong_state))]
pub fn hunchcold_ask(bytes: &[u8], area: &[u64]) -> u8
    ensures { AskClause bytes.now area.now (result, bytes.now, area.now) }
{
    if bytes.len() != STATE_BYTES {
        return STATE_LENGTH;
    }
    told_code(told_at(read_state(bytes).ask(area)))
}

// Close the log.
#[tactic(auto, unfolding(crate::specs::Exports::close_bytes, crate::specs::Exports::ended_bytes, crate::specs::Exports::wrong_state))]
pub fn hunchcold_close(bytes: &mut [u8], area: &mut [u64]) -> u8
    ensures { CloseClause bytes.old area.old (result, bytes.new, area.new) }
{
    if bytes.len() != STATE_BYTES {
        return STATE_LENGTH;
    }
    let ended = read_state(bytes).close(area);
    write_told(told_at(ended.answer), ended.next, bytes)
}

// How long the rule can stay open, in minutes.
#[tactic(auto, unfolding(crate::specs::Exports::horizon_bytes, watcher::specs::Numbers::horizon_for, crate::specs::Exports::wrong_state))]
pub fn hunchcold_horizon(bytes: &[u8]) -> u64
    ensures { HorizonClause bytes.now result }
{
    if bytes.len() != STATE_BYTES {
        return horizon_code(None);
    }
    horizon_code(read_state(bytes).horizon())
}
