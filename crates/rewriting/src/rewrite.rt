// A record of the log rewrites the work area: past rows from place 0 on, the remainder behind the places for them,
// then the scratch. Of `Ready`, which is asked for, `Tabled` keeps all but the area's part.
ghost use Rattle.rewriting.specs.Plans.{Ready};
ghost use Rattle.rewriting.specs.Clauses.{FirstClause, FeedClause};

use crate::row::Row;
use crate::rule::Tabled;
use crate::step::Moment;
use crate::walk::rule_rows;
use forms::area::{Rows, clear, load, store};
use forms::table::put_in;

// The first record leaves the remainder, and makes its past rows.
pub fn first(tabled: Tabled<'_, '_>, new: Moment, area: &mut [u64])
    requires { Ready tabled.rule.list.now tabled.rule.plan tabled.forms.now area.old }
    ensures { FirstClause tabled.entry.rule.list.now tabled.entry.rule.plan new tabled.entry.forms.now area.old
        area.new }
{
    let scratch = tabled.rule.plan.places + 1;
    rule_rows(Row::Past, tabled, new, None, 0, area);
    clear(area, scratch, scratch);
}

// A later record puts the derived rows of the one before into the remainder, then makes its past rows.
pub fn feed(tabled: Tabled<'_, '_>, last: Moment, new: Moment, area: &mut [u64])
    requires { Ready tabled.rule.list.now tabled.rule.plan tabled.forms.now area.old }
    ensures { FeedClause tabled.entry.rule.list.now tabled.entry.rule.plan last new tabled.entry.forms.now area.old
        area.new }
{
    let plan = tabled.rule.plan;
    let derived = plan.places + 1;
    let later = Some(new.time);
    rule_rows(Row::Derived, tabled, last, later, plan.m, area);
    let rows = Rows {
        area,
        base: derived,
        count: plan.m,
    };
    let rest = put_in(load(area, plan.places), rows);
    store(area, plan.places, rest);
    let before = Some(last.time);
    rule_rows(Row::Past, tabled, new, before, plan.m, area);
    clear(area, derived, derived);
}
