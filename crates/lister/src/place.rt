// "A path kept by value in an array of [..] zeros with a length, rebuilt from its place in the order." It has 1,000 of them since wish 7.
ghost use Rattle.std.specs.Prelude.{◌≡◌, ◌+◌, ◌≤◌, ◌<◌, List, get_or};
ghost use Rattle.meaning.specs.Bounds.{largest_d};
ghost use Rattle.ways.specs.Ways.{most_counted, all_ways, path_by};
ghost use Rattle.lister.specs.Place.{Found, path_record};

use crate::{Path, PathNumber};
use bounds::LARGEST_D;
use columns::{Columns, TaskVertex};
use kinds::{Ticks, VertexNumber};
use std::ops::ControlFlow;

// The path of place i of those that go on from v with r ticks left goes to the cells from depth on: where it ends. It is behind them: its place there.
fn path_from(
    columns: &Columns,
    cells: &mut [u8; LARGEST_D],
    v: TaskVertex,
    r: Ticks,
    depth: usize,
    i: PathNumber,
) -> ControlFlow<usize, PathNumber>
    requires { (0 < r.0) × (depth + r.0 ≤ largest_d) × (i.0 ≤ most_counted) }
    ensures { Found columns.now.start columns.now.to columns.now.p v.number.0 r.0 depth i.0 cells.old cells.new result }
{
    let mut left = i;
    for k in columns.first(v)..columns.end(v) {
        let edge = columns.edge(k);
        if r.0 <= edge.p.0 {
            continue;
        }
        let rest = Ticks(r.0 - edge.p.0);
        match path_from(columns, cells, edge.to, rest, depth + 1, left) {
            ControlFlow::Break(len) => {
                cells[depth] = v.number.0;
                return ControlFlow::Break(len);
            }
            ControlFlow::Continue(place) => left = place,
        }
    }
    if left.0 != i.0 {
        return ControlFlow::Continue(left);
    }
    if i.0 == 0 {
        cells[depth] = v.number.0;
        return ControlFlow::Break(depth + 1);
    }
    ControlFlow::Continue(PathNumber(i.0 - 1))
}

// The complete path of place i for horizon d; of length 0 where there is none, and no Option, as `path_record` in this promise and in that of `path_at` has it.
pub fn path_all(columns: &Columns, d: Ticks, i: PathNumber) -> Path
    requires { (0 < d.0) × (d.0 ≤ largest_d) × (i.0 ≤ most_counted) }
    ensures { result ≡ path_record (path_by columns.now.to (get_or (all_ways columns.now.start columns.now.to columns.now.p d.0 0 columns.now.n) i.0 List.[])) }
{
    let mut vertices = [0u8; LARGEST_D];
    let mut left = i;
    for v in 0..columns.n {
        let first = TaskVertex {
            number: VertexNumber(v),
        };
        match path_from(columns, &mut vertices, first, d, 0, left) {
            ControlFlow::Break(len) => return Path { vertices, len },
            ControlFlow::Continue(place) => left = place,
        }
    }
    Path { vertices, len: 0 }
}
