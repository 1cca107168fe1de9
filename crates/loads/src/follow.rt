// Where one edge alone leaves a vertex, a path can go on in one way only: such edges are followed in a loop, which costs less than a call for each.
ghost use Rattle.std.specs.Prelude.{◌+◌, ◌*◌, ◌≤◌, ◌<◌, length};
ghost use Rattle.meaning.specs.Bounds.{largest_d};
ghost use Rattle.columns.specs.Columns.{widest};
ghost use Rattle.loads.specs.Follow.{FollowedRow};

use crate::runs::fill_run;
use columns::{Columns, TaskVertex};
use kinds::Ticks;

// A vertex, the span up to it, and the total e up to there, without its own.
#[derive(Clone, Copy)]
pub(crate) struct Begun {
    pub v: TaskVertex,
    pub span: Ticks,
    pub below: u32,
}

// From where a prefix has begun, to the first vertex where there is a choice, or no room below d; the row from `row` on gets the loads of what is followed.
pub(crate) fn follow_row(
    part: &mut [u32],
    row: usize,
    d: Ticks,
    columns: &Columns,
    begun: Begun,
) -> Begun
    requires { (begun.span.0 < d.0) × (d.0 ≤ largest_d) × (begun.below ≤ widest * begun.span.0) × (row + d.0 ≤ length part.old) }
    ensures { FollowedRow columns.now.e columns.now.start columns.now.to columns.now.p d.0 begun.v.number.0 begun.span.0 begun.below row part.old result.v.number.0 result.span.0 result.below part.new }
{
    let mut v = begun.v;
    let mut span = begun.span;
    let mut below = begun.below;
    while let Some(edge) = columns.only_edge(v, Ticks(d.0 - span.0)) {
        below += columns.execution(v);
        fill_run(part, row + usize::from(span.0), edge.p, below);
        span = Ticks(span.0 + edge.p.0);
        v = edge.to;
    }
    Begun { v, span, below }
}
