// The exports for C and Rust: each is the function of `port` with its name and its clause, since a crate is a library
// or one for C.
#![tactic(auto)]

ghost use Rattle.port.specs.Clauses.{StartClause, WouldRefuseClause, FeedClause, AskClause};
ghost use Rattle.port.specs.Clauses.{CloseClause, HorizonClause, TestClause, RunClause};

use port::{calls, whole};

// Start a watcher.
#[unsafe(no_mangle)]
pub extern "C" fn hunchcold_start(
    rule: &[u8],
    signals: &[u8],
    bytes: &mut [u8],
    area: &mut [u64],
) -> u8
    ensures { StartClause rule.now signals.now bytes.old area.old
        (result, bytes.new, area.new) }
{
    calls::hunchcold_start(rule, signals, bytes, area)
}

// Would this record be refused, and by which number.
#[unsafe(no_mangle)]
pub extern "C" fn hunchcold_would_refuse(bytes: &[u8], piece: &[u8], area: &[u64]) -> u8
    ensures { WouldRefuseClause bytes.now piece.now area.now result }
{
    calls::hunchcold_would_refuse(bytes, piece, area)
}

// Feed one record.
#[unsafe(no_mangle)]
pub extern "C" fn hunchcold_feed(bytes: &mut [u8], piece: &[u8], area: &mut [u64]) -> u8
    ensures { FeedClause bytes.old piece.now area.old
        (result, bytes.new, area.new) }
{
    calls::hunchcold_feed(bytes, piece, area)
}

// How the log ends, were this the last record.
#[unsafe(no_mangle)]
pub extern "C" fn hunchcold_ask(bytes: &[u8], area: &[u64]) -> u8
    ensures { AskClause bytes.now area.now (result, bytes.now, area.now) }
{
    calls::hunchcold_ask(bytes, area)
}

// Close the log.
#[unsafe(no_mangle)]
pub extern "C" fn hunchcold_close(bytes: &mut [u8], area: &mut [u64]) -> u8
    ensures { CloseClause bytes.old area.old (result, bytes.new, area.new) }
{
    calls::hunchcold_close(bytes, area)
}

// How long the rule can stay open, in minutes.
#[unsafe(no_mangle)]
pub extern "C" fn hunchcold_horizon(bytes: &[u8]) -> u64
    ensures { HorizonClause bytes.now result }
{
    calls::hunchcold_horizon(bytes)
}

// Test the signal with a number in the list: whether it holds in the record, or has no reading there.
#[unsafe(no_mangle)]
pub extern "C" fn hunchcold_test(signals: &[u8], number: usize, piece: &[u8]) -> u8
    ensures { TestClause signals.now number piece.now result }
{
    port::signals::hunchcold_test(signals, number, piece)
}

// Run a whole log: start, feed each piece, and close.
#[unsafe(no_mangle)]
pub extern "C" fn hunchcold_run(
    rule: &[u8],
    signals: &[u8],
    log: &[u8],
    area: &mut [u64],
    codes: &mut [u8],
) -> u8
    ensures { RunClause rule.now signals.now log.now area.old
        codes.old (result, area.new, codes.new) }
{
    whole::hunchcold_run(rule, signals, log, area, codes)
}
