// "A vertex's e in the overload rule becomes e + B, with B the largest m among lower tasks, 0 if none."
ghost use Rattle.std.specs.Prelude.{◌≡◌, ◌<◌};
ghost use Rattle.meaning.specs.Verdict.{B};
ghost use Rattle.table.specs.Inner.{table_of, Held};

use counts::places::first_lower;
use kinds::{TaskNumber, Ticks, longer};
use table::Table;

// B, of a task of the table.
pub(crate) fn longest_mask(t: &Table, task: TaskNumber) -> Ticks
    requires { Held t.now × (task.0 < t.now.n) }
    ensures { result.0 ≡ B (table_of t.now) task.0 }
{
    let mut masked = Ticks(0);
    for lower in &t.tasks[first_lower(task)..t.n] {
        masked = longer(masked, lower.m);
    }
    masked
}
