// What the states are made from: two rules, a list of two signals, records, and watchers on them. They stay bytes,
// where `examples` makes its rules of types: a damaged state is told byte by byte.
use watcher::state::Watcher;

// Rule A: signal 0 until signal 1, from 0 to 2. It has five parameters: two signals, and the until's three shifts.
pub(crate) const RULE_A: [u8; 24] = [
    3, 0, 0, 0, 0, 0, 0, 0, 3, 1, 0, 0, 0, 0, 0, 0, 7, 0, 1, 0, 0, 2, 0, 0,
];

// Rule B: signal 0 since signal 1, from 1 to 1; next of it, with no upper end.
pub(crate) const RULE_B: [u8; 32] = [
    3, 0, 0, 0, 0, 0, 0, 0, 3, 1, 0, 0, 0, 0, 0, 0, 9, 0, 1, 0, 1, 1, 0, 0, 6, 2, 0, 0, 0, 255, 0,
    0,
];

// Signals 0 and 1: lee vent at least 1, windward vent at least 1.
pub(crate) const SIGNALS: [u8; 16] = [3, 0, 1, 0, 0, 0, 0, 0, 4, 0, 1, 0, 0, 0, 0, 0];

// A record at time 0 in which signal 0 holds, and signal 1 does not.
pub(crate) const RECORD: [u8; Watcher::LOG_BYTES] = [
    0, 0, 0, 0, 0, 0, 0, 0, 1, 0, 0, 0, 0, 0, 0, 0,
];

// A record at time 0 in which signal 1 holds, and signal 0 does not.
const VENTED: [u8; Watcher::LOG_BYTES] = [0, 0, 0, 0, 0, 0, 0, 0, 0, 1, 0, 0, 0, 0, 0, 0];

// A watcher that starts on the two vents.
pub(crate) fn fresh(rule: &[u8], area: &mut [u64]) -> Watcher {
    Watcher::start(rule, &SIGNALS, area).next
}

// A watcher that was fed the record.
pub(crate) fn running(rule: &[u8], area: &mut [u64]) -> Watcher {
    fresh(rule, area).feed(&RECORD, area).next
}

// A watcher of rule A that was fed it: broken, were it the last record.
pub(crate) fn running_a(area: &mut [u64]) -> Watcher {
    running(&RULE_A, area)
}

// A watcher of rule A that was fed both records: kept, were the second the last.
pub(crate) fn met_a(area: &mut [u64]) -> Watcher {
    running_a(area).feed(&VENTED, area).next
}

// A watcher of rule A that is closed.
pub(crate) fn closed_a(area: &mut [u64]) -> Watcher {
    running_a(area).close(area).next
}
