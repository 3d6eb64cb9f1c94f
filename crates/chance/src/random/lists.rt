// Rules and signal lists by chance: mostly right, now and then damaged.
ghost use Rattle.std.specs.Prelude.{◌≤◌};

use crate::random::dice::{Dice, records, small};
use arrayvec::ArrayVec;

// Room for a list with a record too many.
const ROOM: usize = 136;

// A list's bytes, in a fixed buffer.
pub(crate) type List = ArrayVec<u8, ROOM>;

// The kinds of rule records, by document 01's numbers. The judge has its own, and so has the watcher: what makes the
// cases takes from neither.
#[derive(Clone, Copy, Debug, PartialEq, Eq)]
enum Kind {
    True = 1,
    False,
    Signal,
    And,
    Xor,
    Next,
    Until,
    Previous,
    Since,
}

impl Kind {
    // Whether records of the kind have an interval.
    fn has_interval(self) -> bool {
        matches!(
            self,
            Kind::Next | Kind::Until | Kind::Previous | Kind::Since
        )
    }

    // The kind of rule record k by a roll of 24: a signal first, then all kinds. The last one mostly looks ahead, for
    // nothing lies behind the first log record.
    fn by_roll(face: u64, k: u8, last: bool) -> Kind {
        match face {
            _ if k == 0 => Kind::Signal,
            0..=5 if last => Kind::Next,
            6..=15 if last => Kind::Until,
            0 => Kind::True,
            1 => Kind::False,
            2..=4 => Kind::Signal,
            5 => Kind::And,
            6 | 7 => Kind::Xor,
            8 | 9 => Kind::Next,
            10..=13 => Kind::Until,
            14..=16 => Kind::Previous,
            _ => Kind::Since,
        }
    }

    // What stands left in rule record k: nothing, signal k, or an earlier record, mostly the one just before.
    fn left(self, k: u8, face: u8) -> u8 {
        match self {
            Kind::True | Kind::False => 0,
            Kind::Signal => k,
            _ if k < 2 => 0,
            _ if face < 86 => face % k,
            _ => k - 1,
        }
    }

    // What stands right: nothing, or an earlier record.
    fn right(self, earlier: u8) -> u8 {
        match self {
            Kind::And | Kind::Xor | Kind::Until | Kind::Since => earlier,
            _ => 0,
        }
    }

    // The low end by a roll of 6, if the kind has one: 0 half of the time.
    fn low(self, face: u8) -> u8 {
        if self.has_interval() {
            face.saturating_sub(3)
        } else {
            0
        }
    }

    // The high end by a roll of 12, if the kind has one: 0 to 2 above the low end, and now and then none.
    fn high(self, low: u8, face: u8) -> u8 {
        if !self.has_interval() {
            return 0;
        }
        if face < 3 { 255 } else { low % 3 + face % 3 }
    }
}

// Rule record k, which may be the last.
fn rule_record(dice: Dice, k: u8, last: bool) -> [u8; 8] {
    let kind = Kind::by_roll(dice.roll(0, 24), k, last);
    let low = kind.low(dice.byte(1, 6));
    let left = kind.left(k, dice.byte(2, 256));
    let right = kind.right(dice.byte(3, u64::from(k)));
    let high = kind.high(low, dice.byte(4, 12));
    [kind as u8, left, right, 0, low, high, 0, 0]
}

// A limit: half of the time one that a wind in km/h can meet exactly, and now and then the highest or the lowest.
fn limit(face: u64) -> u16 {
    match face % 16 {
        0 => 32767,
        1 => 32768,
        2..=8 => (face / 16 % 3 * 5) as u16,
        _ => small(face / 16),
    }
}

// A signal record.
fn signal_record(dice: Dice) -> [u8; 8] {
    let channel = dice.byte(10, 5) % 5 + 1;
    let [low, high] = limit(dice.face(12)).to_le_bytes();
    [channel, dice.byte(11, 2), low, high, 0, 0, 0, 0]
}

// Now and then overwrites a byte among the first so many, by any byte or by a small one.
fn damage(face: u64, bytes: &mut [u8], count: usize) {
    let any = (face / 5632 % 256) as u8;
    let new = match face % 22 {
        0 => any,
        1 => any % 10,
        _ => return,
    };
    if count != 0 {
        let place = face / 22 % count as u64;
        if let Some(byte) = bytes.get_mut(place as usize) {
            *byte = new;
        }
    }
}

// The length of a list: the usual one, and now and then another.
fn length(face: u64, usual: usize) -> usize {
    match face % 90 {
        0 => ROOM,
        1 | 2 => (face / 90 % 40) as usize,
        _ => usual,
    }
}

// A list of so many records, each by its dice, its number and whether it is the last.
fn random_list<F: Fn(Dice, u8, bool) -> [u8; 8]>(dice: Dice, count: usize, record_of: F) -> List
    requires can { F.IsAlwaysCallable record_of }
    requires room { count ≤ 200 }
{
    let mut bytes = [0u8; ROOM];
    let (records, _) = bytes.as_chunks_mut::<8>();
    for (k, to) in (0u8..).zip(records.iter_mut().take(count)) {
        let dice = Dice {
            record: u64::from(k),
            ..dice
        };
        *to = record_of(dice, k, usize::from(k) + 1 == count);
    }
    damage(dice.face(1), &mut bytes, 8 * count);
    let mut list = List::from(bytes);
    list.truncate(length(dice.face(2), 8 * count));
    list
}

// A rule.
pub(crate) fn random_rule(case: u64) -> List {
    let dice = Dice { case, record: 40 };
    random_list(dice, records(dice.face(0), 1, 8), rule_record)
}

// A signal list.
pub(crate) fn random_signals(case: u64) -> List {
    let dice = Dice { case, record: 41 };
    random_list(dice, records(dice.face(0), 4, 6), |dice, _, _| {
        signal_record(dice)
    })
}
