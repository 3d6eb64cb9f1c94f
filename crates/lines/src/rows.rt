// The lines of the rows of a work area.
ghost use Rattle.std.specs.Prelude.{◌≡◌, ◌<◌};
ghost use Rattle.ground.specs.Bits.{bit_at};
ghost use Rattle.lines.specs.inside.Puts.{Puts};
ghost use Rattle.lines.specs.Rows.{row_bits, row_text, rest_of_line};
ghost use Rattle.lines.specs.Rows.{rows_of, row_of};
ghost use Rattle.lines.specs.Clauses.{RowLineClause};

use crate::line::Line;
use forms::area::load;
use rewriting::rule::parameters_in;
use watcher::state::Watcher;

// Bits of a row, one for each term.
const ROW_BITS: usize = 1 << Watcher::PARAMETERS;

// Bytes that no line of a row has more of: a term has a comma and four digits at most.
pub const ROW_BYTES: usize = 5 * ROW_BITS + 8;

// Whether the row has term k.
#[tactic(auto, unfolding(ground::specs::Bits::bit, ground::specs::Bits::bit_at))]
fn has_term(row: &[u64; 64], k: usize) -> bool
    requires { k < row_bits }
    ensures { result ≡ bit_at row.now k }
{
    (row[k / 64] >> (k % 64)) % 2 == 1
}

impl Line<'_> {
    // The terms of a row: a dash where there is none.
    fn put_row(&mut self, row: &[u64; 64])
        ensures { Puts self.old self.new (row_text row.now) }
    {
        if !self.put_numbers(ROW_BITS, |k| has_term(row, k)) {
            self.put_text(b"-");
        }
    }

    // What stands behind the name of the row at a place.
    fn put_rest(&mut self, area: &[u64], place: usize)
        ensures { Puts self.old self.new (rest_of_line area.now place) }
    {
        self.put_text(b" ");
        self.put_row(&load(area, place));
        self.put_text(b"\n");
    }

    // Line j of the rows, of so many past ones and the remainder.
    fn put_line(&mut self, rows: usize, area: &[u64], j: usize)
        ensures { Puts self.old self.new (row_of rows area.now j) }
    {
        if j < rows {
            self.put_text(b"p");
            self.put_number(j);
            self.put_rest(area, j);
        } else if j == rows {
            self.put_text(b"r");
            self.put_rest(area, Watcher::PARAMETERS);
        }
    }
}

// How many past rows a state has.
fn rows_of(watcher: Watcher) -> usize
    ensures { result ≡ rows_of watcher }
{
    if watcher.records > Watcher::RECORDS {
        0
    } else {
        parameters_in(&watcher.rule, watcher.records)
    }
}

// Line j of a state's rows: its past rows, then the remainder, then none.
pub fn row_line(watcher: Watcher, area: &[u64], j: usize, out: &mut [u8]) -> usize
    ensures { RowLineClause watcher area.now j out.old (result, out.new) }
{
    let mut line = Line::new(out);
    line.put_line(rows_of(watcher), area, j);
    line.len()
}
