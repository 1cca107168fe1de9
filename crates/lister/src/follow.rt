// Where one edge alone leaves a vertex, a path can go on in one way only: such edges are followed in a loop, which costs less than a call for each.
ghost use Rattle.std.specs.Prelude.{◌<◌};
ghost use Rattle.lister.specs.Follow.{Followed};

use columns::{Columns, TaskVertex};
use kinds::Ticks;

// A vertex, and the ticks left there.
#[derive(Clone, Copy)]
pub(crate) struct Reached {
    pub v: TaskVertex,
    pub r: Ticks,
}

// From v with r ticks left, to the first vertex where there is a choice, or no room.
pub(crate) fn follow(columns: &Columns, v: TaskVertex, r: Ticks) -> Reached
    requires { 0 < r.0 }
    ensures { Followed columns.now.start columns.now.to columns.now.p v.number.0 r.0 result.v.number.0 result.r.0 }
{
    let mut u = v;
    let mut left = r;
    while let Some(edge) = columns.only_edge(u, left) {
        left = Ticks(left.0 - edge.p.0);
        u = edge.to;
    }
    Reached { v: u, r: left }
}
