// "For a vertex with deadline d, a path is complete when its span is below d and each edge out of its last vertex, if any, would make the span d or
// more. [..] Complete paths are ordered as lists of vertex numbers, first difference first." "A path may now have 1,000 vertices".
// "Its load at t, for t at least 1, is the largest total e over its prefixes with span strictly below t."
//
// How many complete paths a task has for a horizon, the one at a place of the order, and the loads of them all.
//
// `HeldTask` and the horizon's bounds are clauses, here and in the crates above: a task is a part of a table, so that a type of held tasks would be made anew
// for each call, and the horizon of `path_count` has no upper bound.
#![tactic(auto)]

ghost use Rattle.std.specs.Prelude.{◌≡◌, ◌≤◌, ◌<◌, min, List, map, length, get_or};
ghost use Rattle.meaning.specs.Bounds.{largest_d};
ghost use Rattle.meaning.specs.Paths.{paths_of};
ghost use Rattle.table.specs.Inner.{task_of, HeldTask};
ghost use Rattle.ways.specs.Ways.{most_counted};
ghost use Rattle.lister.specs.Place.{path_record};
ghost use Rattle.loads.specs.Rows.{Room, put_rows};
ghost use Rattle.ways.specs.Runs.{load_row};

use columns::columns_of;
use kinds::Ticks;
use lister::count::count_all;
use lister::place::path_all;
use lister::{Path, PathNumber};
use loads::rows_all;
use table::Task;

// How many complete paths a task has for horizon d, exactly up to the cap, and the cap above.
pub fn path_count(t: &Task, d: Ticks, cap: usize) -> usize
    requires held_task { HeldTask t.now }
    requires d_nonzero { (0 < d.0) × (0 < cap) × (cap ≤ most_counted) }
    ensures { result ≡ min cap (length (paths_of (task_of t.now) d.0)) }
{
    let columns = columns_of(t);
    count_all(&columns, d, cap)
}

// The complete path of place i; of length 0, with zeros alone, where there is none.
pub fn path_at(t: &Task, d: Ticks, i: usize) -> Path
    requires held_task { HeldTask t.now }
    requires d_nonzero { (0 < d.0) × (d.0 ≤ largest_d) × (i ≤ most_counted) }
    ensures { result ≡ path_record (get_or (paths_of (task_of t.now) d.0) i List.[]) }
{
    path_all(&columns_of(t), d, PathNumber(i))
}

// The loads of the path of place i at t from 1 to d are row 2i of the part, each row of d cells; the rows between are unchanged.
pub fn path_rows(part: &mut [u32], t: &Task, d: Ticks)
    requires held_task { HeldTask t.now }
    requires d_nonzero { (0 < d.0) × (d.0 ≤ largest_d) }
    requires room { Room d.0 (length (paths_of (task_of t.now) d.0)) (length part.old) }
    ensures { part.new ≡ put_rows d.0 0 (map (load_row (task_of t.now) d.0) (paths_of (task_of t.now) d.0)) part.old }
{
    rows_all(part, d, &columns_of(t));
}
