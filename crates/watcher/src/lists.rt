// The checks of a rule list, and how many parameters its rule has.
ghost use Rattle.std.specs.Prelude.{◌≡◌, Bool, false, Option, ℕ, get_or, ◌+◌, ◌*◌, ◌/◌, ◌<◌, ◌≤◌, length};
ghost use Rattle.std.specs.List.{find, range_with_len};
ghost use Rattle.rewriting.specs.Decode.{record_bytes, record_in, kind_number};
ghost use Rattle.watcher.specs.Limits.{list_bytes};
ghost use Rattle.watcher.specs.Places.{first_where};
ghost use Rattle.watcher.specs.Rules.{records_of, wrong_length_in, uses, fair_limits, names_right, used_right};
ghost use Rattle.watcher.specs.Rules.{byte_breaks, first_broken, same_record, first_twins, many_parameters};

use crate::state::{Place, Watcher};
use ground::bytes::byte;
use rewriting::interval::endless;
use rewriting::kind::Kind;
use rewriting::rule::{byte_of, parameters_in, record_at};
use rewriting::step::{Interval, Record};

// Kinds 0, which is none, to 9.
const KINDS: usize = 10;

// For each kind, which of the eight bytes are used: kind, left, right, zero, low, high, zero, zero. It stays a table of
// tables, and no match: document 01 asks for that form.
const USED: [[bool; Watcher::RECORD_BYTES]; KINDS] = [
    [false, false, false, false, false, false, false, false],
    [true, false, false, false, false, false, false, false],
    [true, false, false, false, false, false, false, false],
    [true, true, false, false, false, false, false, false],
    [true, true, true, false, false, false, false, false],
    [true, true, true, false, false, false, false, false],
    [true, true, false, false, true, true, false, false],
    [true, true, true, false, true, true, false, false],
    [true, true, false, false, true, true, false, false],
    [true, true, true, false, true, true, false, false],
];

// The row of a kind in the table.
#[tactic(auto, using(crate::proofs::Checking::uses_none), unfolding(rewriting::specs::Decode::kind_number))]
fn used_row(kind: Kind) -> usize
    ensures inside { result < 10 }
    ensures same { (i : ℕ) → uses result i ≡ uses (kind_number kind) i }
{
    match kind {
        Kind::True => 1,
        Kind::False => 2,
        Kind::Signal => 3,
        Kind::And => 4,
        Kind::Xor => 5,
        Kind::Next => 6,
        Kind::Until => 7,
        Kind::Previous => 8,
        Kind::Since => 9,
        Kind::Other(_) => 0,
    }
}

// Whether a kind uses byte `i`.
pub(crate) fn uses(kind: Kind, i: usize) -> bool
    ensures { result ≡ uses (kind_number kind) i }
{
    i < Watcher::RECORD_BYTES && USED[used_row(kind)][i]
}

// How many records a list has.
#[tactic(auto, unfolding(crate::specs::Rules::records_of))]
pub(crate) fn records_of(list: &[u8]) -> usize
    ensures { result ≡ records_of list.now }
{
    list.len() / Watcher::RECORD_BYTES
}

// Whether the length is not that of 1 to `most` whole records of `size` bytes.
#[tactic(auto, unfolding(crate::specs::Rules::wrong_length_in))]
pub(crate) fn wrong_length(list: &[u8], size: usize, most: usize) -> bool
    requires { 0 < size }
    ensures { result ≡ wrong_length_in size most list.now }
{
    list.len() % size != 0 || list.is_empty() || most < list.len() / size
}

// Whether `low` is at most `high`, or at most 254 where there is no upper end.
#[tactic(auto, unfolding(crate::specs::Rules::fair_limits))]
pub(crate) fn fair_limits(interval: Interval) -> bool
    ensures { result ≡ fair_limits interval }
{
    if endless(interval) {
        interval.low <= 254
    } else {
        interval.low <= interval.high
    }
}

// Whether a byte of record `k` names a signal, or else an earlier record.
#[tactic(auto, unfolding(crate::specs::Rules::names_right))]
pub(crate) fn names_right(kind: Kind, named: u8, k: usize) -> bool
    ensures { result ≡ names_right (kind_number kind) named k }
{
    match kind {
        Kind::Signal => (named as usize) < Watcher::SIGNALS,
        _ => (named as usize) < k,
    }
}

// Whether byte `i` of record `k` is what its kind wants there.
#[tactic(auto, unfolding(crate::specs::Rules::used_right))]
pub(crate) fn used_right(record: Record, k: usize, i: usize) -> bool
    ensures { result ≡ used_right «record» k i }
{
    match i {
        0 => !matches!(record.kind, Kind::Other(_)),
        1 => names_right(record.kind, record.left, k),
        2 => names_right(record.kind, record.right, k),
        _ => fair_limits(record.interval),
    }
}

// Whether byte `i` of record `k`, which was read, breaks the layout.
#[tactic(auto, using(rewriting::proofs::Rules::record_kind), unfolding(crate::specs::Rules::byte_breaks))]
pub(crate) fn byte_breaks(list: &[u8], record: Record, k: usize, i: usize) -> bool
    requires { «record» ≡ record_in list.now k }
    ensures { result ≡ byte_breaks list.now k i }
{
    if i == 0 || uses(record.kind, i) {
        !used_right(record, k, i)
    } else {
        byte_of(list, k, i) != 0
    }
}

// Where a search of records first finds something: the lowest of so many records, and what is found in it. It stays a
// `for`: `find_map` was tried, and the check did not show that what was handed in may be called.
fn first_place<F: Fn(usize) -> Option<usize>>(records: usize, within: F) -> Option<Place>
    requires { (k : ℕ) → k < records → F.pre within k }
    ensures { (bound : ℕ → ℕ) (test : ℕ → ℕ → Bool)
        → ((k : ℕ) (r : Option ℕ) → k < records → F.post within k r → r ≡ find (test k) (range_with_len 0 (bound k)))
        → result ≡ first_where records bound test }
{
    for record in 0..records {
        if let Some(second) = within(record) {
            return Some(Place { record, second });
        }
    }
    None
}

// Where the layout is first broken: the lowest record, and its lowest byte. A record is read once for its eight bytes.
pub(crate) fn first_broken(list: &[u8]) -> Option<Place>
    ensures { result ≡ first_broken record_bytes byte_breaks list.now }
{
    let broken_byte = |k: usize|
        ensures { result ≡ find (byte_breaks list.entry.now k) (range_with_len 0 record_bytes) }
    {
        let record = record_at(list, k);
        (0..Watcher::RECORD_BYTES).find(|i| byte_breaks(list, record, k, *i))
    };
    first_place(records_of(list), broken_byte)
}

// Whether records `i` and `j`, of `size` bytes, have the same bytes.
pub(crate) fn same_record(list: &[u8], size: usize, i: usize, j: usize) -> bool
    requires { (size * i + size ≤ length list.now) × (size * j + size ≤ length list.now) }
    ensures { result ≡ same_record size list.now i j }
{
    list[size * i..size * i + size] == list[size * j..size * j + size]
}

// Where the first twins are: the lowest record that has an earlier twin, and the earliest; they end the search.
// The loops stay nested, with a label: document 01 asks for that form.
pub(crate) fn first_twins(list: &[u8], size: usize) -> Option<Place>
    requires { 0 < size }
    ensures { result ≡ first_twins size list.now }
{
    let records = list.len() / size;
    let mut found = None;
    'pairs: for i in 0..records {
        for j in 0..i {
            if same_record(list, size, i, j) {
                found = Some(Place {
                    record: i,
                    second: j,
                });
                break 'pairs;
            }
        }
    }
    found
}

// Whether the rule has more parameters than it may.
pub(crate) fn many_parameters(list: &[u8]) -> bool
    requires { length list.now ≤ list_bytes }
    ensures { result ≡ many_parameters list.now }
{
    Watcher::PARAMETERS < parameters_in(list, records_of(list))
}
