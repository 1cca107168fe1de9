// For a host that has no record of a table: a task's counts and m, then its vertices, then its edges, task after task, in one list of 16-bit cells.
//
// The record of such a list, and its text. A list that ends inside a task has 0 for the cells that it lacks, and 0 breaks a rule.
#![tactic(auto)]

mod cursor;

ghost use Rattle.std.specs.Prelude.{◌≡◌, ◌+◌, ◌≤◌, length};
ghost use Rattle.meaning.specs.Bounds.{most_vertices, most_edges};
ghost use Rattle.cells.specs.Cells.{cells_taken};
ghost use Rattle.cells.specs.Inner.{TaskRead, WrittenAlike, CellsWritten};

use bounds::{MOST_EDGES, MOST_TASKS, MOST_VERTICES};
use cursor::Cursor;
use kinds::{RefusedAt, Ticks};
use table::{Table, Task, no_edge, no_table, no_vertex, task_of};

// The next task; where it has more vertices or edges than a task may have, with as many as that, and what lies behind them isn't looked at.
fn task_from(cells: &mut Cursor) -> Task
    requires { cells.old.at ≤ length cells.old.list.now }
    ensures read { TaskRead cells.old.list.now cells.old.at result }
    ensures same_list { cells.new.list.now ≡ cells.old.list.now }
    ensures place { result.nv ≤ most_vertices → result.ne ≤ most_edges → cells.new.at ≡ cells.old.at + cells_taken result.nv result.ne }
{
    let nv = cells.next();
    let ne = cells.next();
    let m = Ticks(cells.next());
    let mut vertices = [no_vertex(); MOST_VERTICES];
    cells.fill(&mut vertices, usize::from(nv));
    let mut edges = [no_edge(); MOST_EDGES];
    cells.fill(&mut edges, usize::from(ne));
    task_of(m, nv, ne, vertices, edges)
}

// Up to the first task that has too many vertices or edges, or is the ninth: that one breaks a rule, and what lies behind it plays no part.
fn table_from(list: &[u16]) -> Table
    ensures { WrittenAlike list.now result }
{
    let mut t = no_table();
    let mut cells = Cursor { list, at: 0 };
    // A `while`: how many cells a task takes is said by the task's own.
    while cells.at < list.len() {
        let k = t.n;
        t.n = k + 1;
        if k == MOST_TASKS {
            return t;
        }
        let task = task_from(&mut cells);
        t.tasks[k] = task;
        if MOST_VERTICES < usize::from(task.nv) {
            return t;
        }
        if MOST_EDGES < usize::from(task.ne) {
            return t;
        }
    }
    t
}

pub fn write_cells(cells: &[u16], out: &mut [u8]) -> Result<usize, RefusedAt>
    ensures { CellsWritten cells.now out.old result out.new }
{
    let t = table_from(cells);
    writer::write(&t, out)
}
