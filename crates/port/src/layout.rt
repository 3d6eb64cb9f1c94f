// A state in lent bytes: read from them, and written to them.
ghost use Rattle.std.specs.Prelude.{◌≡◌, ◌+◌, ◌≤◌, length};
ghost use Rattle.watcher.specs.Limits.{list_bytes};
ghost use Rattle.port.specs.Layout.{state_bytes, phase_number, written, phase_with, list_at, state_in};

use ground::bytes::little;
use watcher::state::{Phase, Verdict, Watcher};

// The places of the lists, of their numbers of records, of the last record's time and signals, and of the phase.
const RULE: usize = 0;

const LIST: usize = RULE + Watcher::LIST_BYTES;

const RECORDS: usize = LIST + Watcher::LIST_BYTES;

const SIGNALS: usize = RECORDS + 8;

const TIME: usize = SIGNALS + 8;

const WORD: usize = TIME + 4;

const PHASE: usize = WORD + 2;

const ZERO: usize = PHASE + 1;

// The bytes of a state.
pub(crate) const STATE_BYTES: usize = ZERO + 1;

// The list of records from a place on.
fn list_at(bytes: &[u8], place: usize) -> [u8; Watcher::LIST_BYTES]
    requires { place + list_bytes ≤ length bytes.now }
    ensures { result ≡ list_at bytes.now place }
{
    let mut list = [0; Watcher::LIST_BYTES];
    list.copy_from_slice(&bytes[place..place + Watcher::LIST_BYTES]);
    list
}

// The phase with a number up to 3. It is no From: neither type is of this crate, and C keeps the number.
#[tactic(auto, unfolding(crate::specs::Layout::phase_with))]
fn phase_with(number: u8, time: u32, signals: u16) -> Phase
    ensures { result ≡ phase_with number time signals }
{
    match number {
        0 => Phase::Fresh,
        1 => Phase::Running { time, signals },
        2 => Phase::Closed(Verdict::Kept),
        _ => Phase::Closed(Verdict::Broken),
    }
}

// The state that bytes hold. That they are as many as a state has stays a clause: C lends a slice.
pub(crate) fn read_state(bytes: &[u8]) -> Watcher
    requires { length bytes.now ≡ state_bytes }
    ensures { result ≡ state_in bytes.now }
{
    let number = bytes[PHASE];
    if number > 3 {
        return Watcher::zero_state();
    }
    let time = little::<4>(bytes, TIME) as u32;
    let signals = little::<2>(bytes, WORD) as u16;
    Watcher {
        rule: list_at(bytes, RULE),
        records: little::<8>(bytes, RECORDS) as usize,
        list: list_at(bytes, LIST),
        signals: little::<8>(bytes, SIGNALS) as usize,
        phase: phase_with(number, time, signals),
    }
}

// The number of a phase.
fn phase_number(phase: Phase) -> u8
    ensures { result ≡ phase_number phase }
{
    match phase {
        Phase::Fresh => 0,
        Phase::Running {
            time: _,
            signals: _,
        } => 1,
        Phase::Closed(Verdict::Kept) => 2,
        Phase::Closed(Verdict::Broken) => 3,
    }
}

// A state put into bytes.
pub(crate) fn write_state(state: Watcher, bytes: &mut [u8])
    requires { length bytes.old ≡ state_bytes }
    ensures { bytes.new ≡ written state }
{
    let last = state.phase.last();
    bytes[RULE..LIST].copy_from_slice(&state.rule);
    bytes[LIST..RECORDS].copy_from_slice(&state.list);
    bytes[RECORDS..SIGNALS].copy_from_slice(&state.records.to_le_bytes());
    bytes[SIGNALS..TIME].copy_from_slice(&state.signals.to_le_bytes());
    bytes[TIME..WORD].copy_from_slice(&last.time.to_le_bytes());
    bytes[WORD..PHASE].copy_from_slice(&last.signals.to_le_bytes());
    bytes[PHASE] = phase_number(state.phase);
    bytes[ZERO] = 0;
}
