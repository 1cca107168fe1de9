// "Output is frames: 10, task, vertex, verdict, 4 bytes count (or refusal number) [..]; after a miss, one frame a higher task: [..] task, length, vertices;
// last 1f and the four counts. A refused text or input gives only 1e, number, line in 2 bytes." By wish 7 a path's frame is 12, its length in 2 bytes.
//
// Each function writes its lines with a lent pen.
#![tactic(auto)]

mod path;

ghost use Rattle.std.specs.Prelude.{◌+◌, ◌≤◌, length};
ghost use Rattle.meaning.specs.Bounds.{verdict_line, counts_line, refusal_line};
ghost use Rattle.meaning.specs.Text.{line};
ghost use Rattle.meaning.specs.Desk.{counts_frame, refusal_frame};
ghost use Rattle.kinds.specs.Numbers.{refusal_number};
ghost use Rattle.counts.specs.Counts.{meant_counts};
ghost use Rattle.put.specs.Pens.{Penned};
ghost use Rattle.desk_frames.specs.Lines.{WholeShown, place_of, shown_verdict, shown_lines};

use counts::Counts;
use kinds::{RefusedAt, TaskNumber, Verdict, VertexNumber};
use path::path_lines;
use put::Pen;

// The first byte of each frame; that of a path stands in path.rt.
const VERDICT_FRAME: u8 = 16;

const REFUSAL_FRAME: u8 = 30;

const COUNTS_FRAME: u8 = 31;

// A vertex's verdict, and after a miss one path a higher task, out of the witness area's cells.
pub fn vertex_lines(
    pen: &mut Pen,
    task: TaskNumber,
    vertex: VertexNumber,
    verdict: Verdict,
    cells: &[u16],
)
    requires { WholeShown verdict task.0 cells.now × (pen.old.at + length (shown_lines (place_of task vertex) verdict cells.now) ≤ length pen.old.out.now) }
    ensures { Penned (shown_lines (place_of task vertex) verdict cells.now) pen.old pen.new }
{
    verdict_line(pen, task, vertex, verdict);
    if let Verdict::Misses(_, _) = verdict {
        path_lines(pen, cells, task.0);
    }
}

fn verdict_line(pen: &mut Pen, task: TaskNumber, vertex: VertexNumber, verdict: Verdict)
    requires { pen.old.at + verdict_line ≤ length pen.old.out.now }
    ensures { Penned (shown_verdict (place_of task vertex) verdict) pen.old pen.new }
{
    let kind = verdict.number();
    let [first, second, third, last] = verdict.value().to_be_bytes();
    let frame = [
        VERDICT_FRAME,
        task.0,
        vertex.0,
        kind,
        first,
        second,
        third,
        last,
    ];
    pen.line(&frame);
}

pub fn counts_line(pen: &mut Pen, counts: Counts)
    requires { pen.old.at + counts_line ≤ length pen.old.out.now }
    ensures { Penned (line (counts_frame (meant_counts counts))) pen.old pen.new }
{
    let Counts {
        meeting,
        missing,
        unfinishing,
        refusing,
    } = counts;
    let frame = [COUNTS_FRAME, meeting, missing, unfinishing, refusing];
    pen.line(&frame);
}

// A refused text or input.
pub fn refusal_line(pen: &mut Pen, refused: RefusedAt)
    requires { pen.old.at + refusal_line ≤ length pen.old.out.now }
    ensures { Penned (line (refusal_frame (refusal_number refused.refusal) refused.place)) pen.old pen.new }
{
    let number = refused.refusal.number();
    let [_, _, high, low] = refused.place.to_be_bytes();
    let frame = [REFUSAL_FRAME, number, high, low];
    pen.line(&frame);
}
