// "Complete paths are ordered as lists of vertex numbers, first difference first." "A range is a run of neighbours in one task's ordered complete
// paths; its load at t is the largest in it."
//
// The lines of each task of a readable text, in task.rt; the horizon is the d of vertex 0 of the table's last task. An unreadable text gives one line, `-`.
ghost use Rattle.table.specs.Inner.{Held};

use crate::lent::WORK_CELLS;
use crate::print::end_line;
use crate::task::list_task;
use reader::read;
use table::Table;

fn list_table(work: &mut [u32; WORK_CELLS], t: &Table)
    requires { Held t.now }
{
    let d = t.tasks[t.n - 1].vertices[0].d;
    for task in &t.tasks[..t.n] {
        list_task(work, task, d);
    }
}

pub(crate) fn print(text: &[u8], work: &mut [u32; WORK_CELLS]) {
    match read(text) {
        Ok(table) => list_table(work, &table),
        Err(_) => {
            io::write_all(1, b"-");
            end_line();
        }
    }
}
