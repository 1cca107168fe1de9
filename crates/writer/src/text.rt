// "A task frame is followed by its vertices, numbered from 0, then its edges": the lines of a table that breaks no rule.
ghost use Rattle.std.specs.Prelude.{◌+◌, ◌≤◌, length};
ghost use Rattle.meaning.specs.Lists.{gather};
ghost use Rattle.meaning.specs.Bounds.{most_vertices, most_edges};
ghost use Rattle.meaning.specs.Text.{line};
ghost use Rattle.meaning.specs.Texts.{task_length, text_length};
ghost use Rattle.meaning.specs.Sound.{SoundTable};
ghost use Rattle.meaning.specs.Writing.{frames_of_task, text_of};
ghost use Rattle.meaning.specs.Areas.{Wrote};
ghost use Rattle.table.specs.Record.{task_held, table_held};
ghost use Rattle.put.specs.Pens.{Penned};

use put::Pen;
use table::{Table, Task};

fn put_task(pen: &mut Pen, k: &Task)
    requires { (k.now.nv ≤ most_vertices) × (k.now.ne ≤ most_edges) × (pen.old.at + task_length (task_held k.now) ≤ length pen.old.out.now) }
    ensures { Penned (gather line (frames_of_task (task_held k.now))) pen.old pen.new }
{
    let vertices = &k.vertices[..usize::from(k.nv)];
    let edges = &k.edges[..usize::from(k.ne)];
    pen.task_line(k.m, k.nv as u8, k.ne as u8);
    pen.part_lines(vertices);
    pen.part_lines(edges);
}

// From the area's front on; gives the number of bytes.
pub(crate) fn put_table(t: &Table, out: &mut [u8]) -> usize
    requires { SoundTable (table_held t.now) × (text_length (table_held t.now) ≤ length out.old) }
    ensures { Wrote (text_of (table_held t.now)) out.old 0 out.new result }
{
    let mut pen = Pen { out, at: 0 };
    let tasks = &t.tasks[..t.n];
    for k in tasks {
        put_task(&mut pen, k);
    }
    pen.end_line();
    pen.at
}
