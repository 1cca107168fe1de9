// "Lends 8,192 work cells [..], and uses budget 100,000. Output is frames [..] for each vertex, in rising order of task and then vertex; after a miss, one
// frame a higher task [..]; last 1f and the four counts." "The program lends 7,007 witness cells."
ghost use Rattle.std.specs.Prelude.{◌≤◌, length};
ghost use Rattle.table.specs.Inner.{table_of, Held};
ghost use Rattle.meaning.specs.Areas.{Wrote};
ghost use Rattle.judge.specs.Desk.{table_room};
ghost use Rattle.judge.specs.Inner.{table_output};

use crate::places::Places;
use crate::vertex::judge_vertex;
use bounds::{DESK_BUDGET, DESK_WORK, MOST_WITNESS};
use counts::Counts;
use desk_frames::{counts_line, vertex_lines};
use kinds::Verdict;
use put::Pen;
use table::Table;

pub(crate) fn table_lines(t: &Table, out: &mut [u8]) -> usize
    requires { Held t.now × (table_room (table_of t.now) ≤ length out.old) }
    ensures { Wrote (table_output (table_of t.now)) out.old 0 out.new result }
{
    let mut work = [0u32; DESK_WORK];
    let mut witness = [0u16; MOST_WITNESS];
    let mut counts = Counts::none();
    let mut pen = Pen { out, at: 0 };
    for at in Places::of(t) {
        let told = judge_vertex(t, at, DESK_BUDGET, false, &mut work, &mut witness);
        let verdict = Verdict::from(told);
        vertex_lines(&mut pen, at.task, at.vertex, verdict, &witness);
        counts = counts.counted(verdict);
    }
    counts_line(&mut pen, counts);
    pen.at
}
