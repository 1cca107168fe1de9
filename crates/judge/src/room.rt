// How many bytes the desk's output can have, so that an area may be as short as its table allows. `as` here: the proofs read the numbers themselves.
ghost use Rattle.std.specs.Prelude.{◌≡◌, ◌+◌, ◌*◌};
ghost use Rattle.meaning.specs.Bounds.{verdict_line, path_line};
ghost use Rattle.table.specs.Inner.{table_of, Held};
ghost use Rattle.judge.specs.Desk.{table_room};

use crate::places::Places;
use bounds::{COUNTS_LINE, VERDICT_LINE};
use kinds::{TaskNumber, Ticks};
use table::Table;

// A vertex's verdict, and for each higher task a path: 12, task, length in 2 bytes and at most d vertices.
fn vertex_room(task: TaskNumber, d: Ticks) -> usize
    ensures { result ≡ verdict_line + task.0 * path_line d.0 }
{
    VERDICT_LINE + task.0 as usize * (2 * (4 + d.0 as usize) + 1)
}

pub(crate) fn table_room(t: &Table) -> usize
    requires { Held t.now }
    ensures { result ≡ table_room (table_of t.now) }
{
    let mut room = COUNTS_LINE;
    for at in Places::of(t) {
        let job = t.tasks[at.task.0 as usize].vertices[at.vertex.0 as usize];
        room += vertex_room(at.task, job.d);
    }
    room
}
