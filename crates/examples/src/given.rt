// What the examples give: rules, signals and log records, as the bytes that document 01 lays out.
use watcher::state::Watcher;

// Bytes of a rule record, and of a signal record.
const RECORD_BYTES: usize = 8;

// A channel, by its number in a signal record.
#[derive(Clone, Copy)]
pub(crate) enum Channel {
    Air = 1,
    Wind,
    Lee,
    Windward,
    Rain,
}

// What a signal asks of its reading: at least the limit, or below it.
#[derive(Clone, Copy)]
pub(crate) enum Sense {
    AtLeast,
    Below,
}

// The unit of a wind: km/h or m/s.
#[derive(Clone, Copy)]
pub(crate) enum Unit {
    Kmh,
    Ms,
}

// A log record.
#[derive(Clone, Copy)]
pub(crate) struct Record {
    pub(crate) time: u32,
    pub(crate) air: i16,
    pub(crate) wind: u16,
    pub(crate) lee: u8,
    pub(crate) windward: u8,
    pub(crate) rain: bool,
    pub(crate) unit: Unit,
}

impl Record {
    // The record's bytes.
    pub(crate) fn bytes(&self) -> [u8; Watcher::LOG_BYTES] {
        let [t0, t1, t2, t3] = self.time.to_le_bytes();
        let [a0, a1] = self.air.to_le_bytes();
        let [w0, w1] = self.wind.to_le_bytes();
        let (lee, windward) = (self.lee, self.windward);
        let rain = u8::from(self.rain);
        let unit = self.unit as u8;
        [
            t0, t1, t2, t3, a0, a1, w0, w1, lee, windward, rain, unit, 0, 0, 0, 0,
        ]
    }
}

// A record of nothing.
pub(crate) const NOTHING: Record = Record {
    time: 0,
    air: 0,
    wind: 0,
    lee: 0,
    windward: 0,
    rain: false,
    unit: Unit::Kmh,
};

// The record of a step: its time, and the two vents, which carry signals 0 and 1.
pub(crate) fn step(time: u32, lee: u8, windward: u8) -> Record {
    Record {
        time,
        lee,
        windward,
        ..NOTHING
    }
}

// The bytes of a list of records. A rule record has its kind, left, right, 0, low, high and two more zeros.
fn list<const BYTES: usize>(records: &[[u8; RECORD_BYTES]]) -> [u8; BYTES] {
    let mut bytes = [0; BYTES];
    for (to, from) in bytes.iter_mut().zip(records.iter().flatten()) {
        *to = *from;
    }
    bytes
}

// The rule record of signal n.
pub(crate) const fn rule_signal(n: u8) -> [u8; RECORD_BYTES] {
    [3, n, 0, 0, 0, 0, 0, 0]
}

// Rule A: signal 0 until signal 1, with the interval given.
pub(crate) fn rule_a(low: u8, high: u8) -> [u8; 24] {
    list(&[
        rule_signal(0),
        rule_signal(1),
        [7, 0, 1, 0, low, high, 0, 0],
    ])
}

// Rule B: signal 0 since signal 1, from 1 to 1; next of it, with no upper end.
pub(crate) fn rule_b() -> [u8; 32] {
    list(&[
        rule_signal(0),
        rule_signal(1),
        [9, 0, 1, 0, 1, 1, 0, 0],
        [6, 2, 0, 0, 0, 255, 0, 0],
    ])
}

// True, and exclusive or of it with itself.
pub(crate) fn rule_nothing() -> [u8; 16] {
    list(&[[1, 0, 0, 0, 0, 0, 0, 0], [5, 0, 0, 0, 0, 0, 0, 0]])
}

// The signal record of a channel, its sense and its limit.
pub(crate) fn signal_record(channel: Channel, sense: Sense, limit: i16) -> [u8; RECORD_BYTES] {
    let [low, high] = limit.to_le_bytes();
    [channel as u8, sense as u8, low, high, 0, 0, 0, 0]
}

// Signals 0 and 1: lee vent at least 1, windward vent at least 1.
pub(crate) fn vent_signals() -> [u8; 16] {
    list(&[
        signal_record(Channel::Lee, Sense::AtLeast, 1),
        signal_record(Channel::Windward, Sense::AtLeast, 1),
    ])
}
