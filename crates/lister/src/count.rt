// How many complete paths there are, by recursion over the edges, which stops at the cap.
ghost use Rattle.std.specs.Prelude.{◌≡◌, ◌≤◌, ◌<◌, min, length};
ghost use Rattle.ways.specs.Ways.{most_counted, ways, all_ways};

use crate::follow::follow;
use columns::{Columns, TaskVertex};
use kinds::{Ticks, VertexNumber};

// How many complete paths go on from v with r ticks left, at most cap.
fn count_from(columns: &Columns, v: TaskVertex, r: Ticks, cap: usize) -> usize
    requires { (0 < r.0) × (0 < cap) × (cap ≤ most_counted) }
    ensures { result ≡ min cap (length (ways columns.now.start columns.now.to columns.now.p v.number.0 r.0)) }
{
    let s = follow(columns, v, r);
    let mut sum: usize = 0;
    for k in columns.first(s.v)..columns.end(s.v) {
        let edge = columns.edge(k);
        if s.r.0 <= edge.p.0 {
            continue;
        }
        sum += count_from(columns, edge.to, Ticks(s.r.0 - edge.p.0), cap - sum);
        if sum == cap {
            return cap;
        }
    }
    sum.max(1)
}

// From every vertex, for horizon d.
pub fn count_all(columns: &Columns, d: Ticks, cap: usize) -> usize
    requires { (0 < d.0) × (0 < cap) × (cap ≤ most_counted) }
    ensures { result ≡ min cap (length (all_ways columns.now.start columns.now.to columns.now.p d.0 0 columns.now.n)) }
{
    let mut sum: usize = 0;
    for v in 0..columns.n {
        let first = TaskVertex {
            number: VertexNumber(v),
        };
        sum += count_from(columns, first, d, cap - sum);
        if sum == cap {
            return cap;
        }
    }
    sum
}
