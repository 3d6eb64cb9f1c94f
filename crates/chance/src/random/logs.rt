// Logs by chance: mostly right, now and then with a record that is spoilt or a short last piece.
ghost use Rattle.std.specs.Prelude.{◌≤◌};

use crate::random::dice::{Dice, records, small};
use arrayvec::ArrayVec;

// Bytes of a log record.
const RECORD_BYTES: usize = 16;

// Room for twelve records.
const ROOM: usize = 192;

// A log's bytes, in a fixed buffer.
pub(crate) type Log = ArrayVec<u8, ROOM>;

// A temperature: mostly a small one, and now and then none, one just beside none, or the lowest.
fn temperature(face: u64) -> u16 {
    match face % 16 {
        0 | 1 => 32767,
        2 => 32766,
        3 => 32768,
        _ => small(face / 16),
    }
}

// A wind: mostly one that meets a limit exactly in one of the units, and now and then none, one just below none, or
// the number that is no temperature.
fn strength(face: u64) -> u16 {
    let more = face / 20;
    match face % 20 {
        0 => (more % 65536) as u16,
        1 | 2 => 65535,
        3 => 65534,
        4 => 32767,
        5..=8 => (more % 40) as u16,
        9..=12 => (more % 3 * 5) as u16,
        _ => (more % 3 * 18) as u16,
    }
}

// The time of the next record: 0 to 3 minutes later, now and then one earlier.
fn later(face: u64, time: u32) -> u32 {
    if face % 12 == 0 {
        return time.saturating_sub(1);
    }
    time.wrapping_add((face / 12 % 4) as u32)
}

// A log record at a time.
fn log_record(dice: Dice, time: u32) -> [u8; RECORD_BYTES] {
    let [t0, t1, t2, t3] = time.to_le_bytes();
    let [a0, a1] = temperature(dice.face(14)).to_le_bytes();
    let [w0, w1] = strength(dice.face(15)).to_le_bytes();
    let unit = dice.byte(16, 2);
    let lee = dice.byte(17, 12);
    let windward = dice.byte(18, 12);
    let rain = dice.byte(19, 2);
    [
        t0, t1, t2, t3, a0, a1, w0, w1, lee, windward, rain, unit, 0, 0, 0, 0,
    ]
}

// Now and then overwrites a byte of a log record.
fn spoil(face: u64, record: &mut [u8; RECORD_BYTES]) {
    if face % 12 == 0 {
        record[(face / 12 % 16) as usize] = (face / 192 % 256) as u8;
    }
}

// The length of a log of so many records, now and then with a short last piece.
fn length(face: u64, count: usize) -> usize
    requires { count ≤ 200 }
{
    let more = if face % 8 == 0 { face / 8 % 16 } else { 0 };
    RECORD_BYTES * count + more as usize
}

// A log.
pub(crate) fn random_log(case: u64) -> Log {
    let dice = Dice { case, record: 42 };
    let begun = dice.face(0);
    let mut time = if begun % 8 == 0 {
        65534
    } else {
        (begun / 8 % 4) as u32
    };
    let mut bytes = [0u8; ROOM];
    let count = records(dice.face(1), 0, 11);
    let (records, _) = bytes.as_chunks_mut::<RECORD_BYTES>();
    for (n, to) in records.iter_mut().take(count).enumerate() {
        let dice = Dice {
            record: n as u64,
            ..dice
        };
        time = later(dice.face(13), time);
        *to = log_record(dice, time);
        spoil(dice.face(5), to);
    }
    let mut log = Log::from(bytes);
    log.truncate(length(dice.face(2), count));
    log
}
