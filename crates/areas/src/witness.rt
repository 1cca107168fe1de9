// "On a miss its front holds, per higher task in order, the path's length and vertices; all else in it is unchanged."
ghost use Rattle.std.specs.Prelude.{◌+◌, ◌≤◌, ◌<◌, length};
ghost use Rattle.meaning.specs.Bounds.{largest_d};
ghost use Rattle.meaning.specs.Areas.{Wrote};
ghost use Rattle.table.specs.Inner.{task_of, HeldTask};
ghost use Rattle.ways.specs.Ways.{most_counted};
ghost use Rattle.areas.specs.Witness.{path_cell, path_at};

use kinds::Ticks;
use paths::path_at;
use table::Task;

// The path at a place of a task's list, from a place of the area on; gives the place behind it.
pub fn write_place(witness: &mut [u16], at: usize, t: &Task, d: Ticks, place: usize) -> usize
    requires { HeldTask t.now × (0 < d.0) × (d.0 ≤ largest_d) × (place ≤ most_counted) × (at + (1 + d.0) ≤ length witness.old) }
    ensures { Wrote (path_cell (path_at (task_of t.now) d.0 place)) witness.old at witness.new result × (result ≤ at + (1 + d.0)) }
{
    let path = path_at(t, d, place);
    let vertices = &path.vertices[..path.len];
    witness[at] = path.len as u16;
    let from = at + 1;
    for (i, v) in vertices.iter().enumerate() {
        witness[from + i] = u16::from(*v);
    }
    from + path.len
}
