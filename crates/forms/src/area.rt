// Rows of 64 words in a lent area: the row at a place is words 64 * place to 64 * place + 63.
ghost use Rattle.std.specs.Prelude.{◌≡◌, ◌+◌, ◌*◌, min};
ghost use Rattle.forms.specs.Area.{row_at};
ghost use Rattle.forms.specs.Clauses.{LoadClause, RowClause, StoreClause, ClearClause};

// The count rows of an area from base on.
#[derive(Clone, Copy)]
pub struct Rows<'a> {
    pub area: &'a [u64],
    pub base: usize,
    pub count: usize,
}

impl<'a> Rows<'a> {
    // Row j of these; false from count on.
    pub fn row(self, j: usize) -> [u64; 64]
        ensures { RowClause self.entry.area.now self.entry.base self.entry.count j result }
    {
        if j < self.count {
            row_from(self.area, self.base, j)
        } else {
            [0; 64]
        }
    }
}

// The word at which the count rows from base on end, or the area's end where that comes first.
fn edge(len: usize, base: usize, count: usize) -> usize
    ensures { result ≡ min len (64 * (base + count)) }
{
    base.saturating_add(count).saturating_mul(64).min(len)
}

// Row j of those from base on; zeros past the area's end.
fn row_from(area: &[u64], base: usize, j: usize) -> [u64; 64]
    ensures { result ≡ row_at area.now (base + j) }
{
    let rest = &area[edge(area.len(), base, j)..];
    let words = rest.len().min(64);
    let mut row = [0; 64];
    row[..words].copy_from_slice(&rest[..words]);
    row
}

// The row at a place; zeros past the area's end.
pub fn load(area: &[u64], place: usize) -> [u64; 64]
    ensures { LoadClause area.now place result }
{
    row_from(area, place, 0)
}

// A row, put at a place; nothing is written past the area's end.
pub fn store(area: &mut [u64], place: usize, row: [u64; 64])
    ensures { StoreClause area.old place row area.new }
{
    let from = edge(area.len(), place, 0);
    let to = edge(area.len(), place, 1);
    area[from..to].copy_from_slice(&row[..to - from]);
}

// Zeros in count rows from base on.
pub fn clear(area: &mut [u64], base: usize, count: usize)
    ensures { ClearClause area.old base count area.new }
{
    let from = edge(area.len(), base, 0);
    let to = edge(area.len(), base, count);
    area[from..to].fill(0);
}
