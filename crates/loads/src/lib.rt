// "Its load at t, for t at least 1, is the largest total e over its prefixes with span strictly below t."
//
// Over a task's columns, the loads of each complete path at t from 1 to d, in every other row of a stretch. They are written by runs, since a path's
// load stays the same from one release to the next. One recursion over the edges goes on from a prefix, whose loads stand in the row of the first path that
// begins with it and are copied to the row of each other.
#![tactic(auto)]

mod follow;
mod runs;

ghost use Rattle.std.specs.Prelude.{◌≡◌, ◌+◌, ◌-◌, ◌*◌, ◌≤◌, ◌<◌, length};
ghost use Rattle.meaning.specs.Bounds.{largest_d};
ghost use Rattle.columns.specs.Columns.{widest};
ghost use Rattle.ways.specs.Ways.{most_counted, ways, all_ways};
ghost use Rattle.loads.specs.Rows.{Room, RowsPut, put_rows};
ghost use Rattle.ways.specs.Runs.{way_rows};

use columns::{Columns, TaskVertex};
use follow::{Begun, follow_row};
use kinds::{Ticks, VertexNumber};
use runs::{copy_front, fill_run};

// Where the row of the path of place i begins.
fn row_of(i: usize, d: Ticks) -> usize
    requires { (i ≤ most_counted) × (d.0 ≤ largest_d) }
    ensures { result ≡ 2 * i * d.0 }
{
    2 * i * usize::from(d.0)
}

// The rows of all complete paths that go on from where a prefix has begun, of which the first has place i. The row of place i holds the loads up to its
// span. Gives the next place.
fn rows_from(part: &mut [u32], d: Ticks, columns: &Columns, begun: Begun, i: usize) -> usize
    requires span { (begun.span.0 < d.0) × (d.0 ≤ largest_d) × (begun.below ≤ widest * begun.span.0) }
    requires room { Room d.0 (i + length (ways columns.now.start columns.now.to columns.now.p begun.v.number.0 (d.0 - begun.span.0))) (length part.old) }
    ensures { RowsPut columns.now.e columns.now.start columns.now.to columns.now.p d.0 begun.v.number.0 begun.span.0 begun.below i part.old part.new result }
{
    let row = row_of(i, d);
    let s = follow_row(part, row, d, columns, begun);
    let total = s.below + columns.execution(s.v);
    let mut n = i;
    for k in columns.first(s.v)..columns.end(s.v) {
        let edge = columns.edge(k);
        if d.0 - s.span.0 <= edge.p.0 {
            continue;
        }
        let here = row_of(n, d);
        copy_front(part, row, here, s.span);
        fill_run(part, here + usize::from(s.span.0), edge.p, total);
        let next = Begun {
            v: edge.to,
            span: Ticks(s.span.0 + edge.p.0),
            below: total,
        };
        n = rows_from(part, d, columns, next, n);
    }
    if n == i {
        fill_run(
            part,
            row + usize::from(s.span.0),
            Ticks(d.0 - s.span.0),
            total,
        );
        return i + 1;
    }
    n
}

// The row of the path of place i is row 2i of the part, each of d cells; the rows between are unchanged. Gives how many paths there are.
pub fn rows_all(part: &mut [u32], d: Ticks, columns: &Columns) -> usize
    requires d_nonzero { (0 < d.0) × (d.0 ≤ largest_d) }
    requires room { Room d.0 (length (all_ways columns.now.start columns.now.to columns.now.p d.0 0 columns.now.n)) (length part.old) }
    ensures { (result ≡ length (all_ways columns.now.start columns.now.to columns.now.p d.0 0 columns.now.n))
        × (part.new ≡ put_rows d.0 0 (way_rows columns.now.e columns.now.to columns.now.p d.0 (all_ways columns.now.start columns.now.to columns.now.p d.0 0 columns.now.n)) part.old) }
{
    let mut i: usize = 0;
    for v in 0..columns.n {
        let first = TaskVertex {
            number: VertexNumber(v),
        };
        let begun = Begun {
            v: first,
            span: Ticks(0),
            below: 0,
        };
        i = rows_from(part, d, columns, begun, i);
    }
    i
}
