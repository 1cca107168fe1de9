// "After the text: 8, 9, 10, 11. Each is given exactly when its row holds and none before it in this order does. No refusal changes a lent area."
// "Every public judging call takes the text itself, never a table record, and takes the reading apart first: a readable table goes on, anything else
// returns at once."
//
// `work` and `witness` are lent apart, as a user lends them: an inner function has to do with one of them, but for `judge_vertex` and who calls it. `Held` is
// a clause of the inner functions: `read` gives a table and promises it in `Reads`; a type of held tables would be made in each call, to be lent once.
#![tactic(auto)]

mod desk;
mod higher_tasks;
mod lower_tasks;
pub mod places;
mod room;
mod vertex;
mod whole;

ghost use Rattle.std.specs.Prelude.{◌≡◌, List, length, ltb};
ghost use Rattle.meaning.specs.Lists.{pick};
ghost use Rattle.meaning.specs.Bounds.{refusal_line, longest_output};
ghost use Rattle.meaning.specs.Text.{line};
ghost use Rattle.meaning.specs.Desk.{refusal_frame};
ghost use Rattle.kinds.specs.Numbers.{refusal_number};
ghost use Rattle.table.specs.Inner.{table_of, Held};
ghost use Rattle.meaning.specs.Areas.{Wrote};
ghost use Rattle.judge.specs.Judged.{Judged, LatestJudged};
ghost use Rattle.judge.specs.Inner.{TextJudged, table_output};
ghost use Rattle.search.specs.Meant.{asked_by};
ghost use Rattle.judge.specs.Whole.{TableJudged};
ghost use Rattle.judge.specs.Desk.{no_output, table_room, output_into};

use crate::desk::table_lines;
use crate::room::table_room;
use crate::vertex::judge_vertex;
use crate::whole::count_verdicts;
use bounds::{LONGEST_OUTPUT, REFUSAL_LINE};
use counts::Counts;
use counts::places::Place;
use desk_frames::refusal_line;
use kinds::{Lateness, Refusal, RefusedAt, TaskNumber, Verdict, VertexNumber};
use put::Pen;
use reader::read;
use sheet::{input_too_long, no_such, no_such_vertex};
use table::Table;

// One vertex of the text's table, and where it is asked for how late its latest is; else the finish beside a meets is its deadline, where the bar was.
// `late` is the flag of `search`'s functions.
fn judge_text(
    text: &[u8],
    at: Place,
    budget: u32,
    late: bool,
    work: &mut [u32],
    witness: &mut [u16],
) -> Lateness
    ensures { TextJudged (asked_by late) text.now at.task.0 at.vertex.0 budget work.old witness.old result work.new witness.new }
{
    let table = match read(text) {
        Ok(table) => table,
        Err(refused) => return Lateness::Refused(refused),
    };
    if no_such(at.task.0, table.n) {
        return no_such_vertex();
    }
    if no_such(at.vertex.0, table.tasks[at.task.0 as usize].nv as usize) {
        return no_such_vertex();
    }
    judge_vertex(&table, at, budget, late, work, witness)
}

// One vertex of the text's table. After meets, misses and unfinished the needed work cells are zero; a miss's paths are in the witness area.
pub fn judge(
    text: &[u8],
    task: TaskNumber,
    vertex: VertexNumber,
    budget: u32,
    work: &mut [u32],
    witness: &mut [u16],
) -> Verdict
    ensures { Judged text.now task.0 vertex.0 budget work.old witness.old result work.new witness.new }
{
    let told = judge_text(text, Place { task, vertex }, budget, false, work, witness);
    Verdict::from(told)
}

// The same verdict over this call's own C, and how late the latest is: a meets comes with its worst finish, and the first paths that reach it are in the
// witness area.
pub fn latest(
    text: &[u8],
    task: TaskNumber,
    vertex: VertexNumber,
    budget: u32,
    work: &mut [u32],
    witness: &mut [u16],
) -> Lateness
    ensures { LatestJudged text.now task.0 vertex.0 budget work.old witness.old result work.new witness.new }
{
    judge_text(text, Place { task, vertex }, budget, true, work, witness)
}

// "Judging a whole table first checks the text (1 to 7, nothing changed). [..] Zeroed from the front are as many work cells as the largest need among
// vertices not refused." By wish 6 the text can get 13, too.
pub fn judge_table(text: &[u8], budget: u32, work: &mut [u32]) -> Result<Counts, RefusedAt>
    ensures { TableJudged text.now budget work.old result work.new }
{
    let table = read(text)?;
    Ok(count_verdicts(&table, budget, work))
}

// Room for any output. A function of its own, so that who calls it sees its length and not its cells.
pub fn output_room() -> [u8; LONGEST_OUTPUT]
    ensures value { result ≡ no_output }
    ensures longest_output_value { longest_output ≡ length result }
{
    [0; LONGEST_OUTPUT]
}

// Of a table that is readable; nothing, where the area might be too short.
fn table_output(t: &Table, out: &mut [u8]) -> usize
    requires { Held t.now }
    ensures { Wrote (pick (ltb (length out.old) (table_room (table_of t.now))) List.[] (table_output (table_of t.now))) out.old 0 out.new result }
{
    if out.len() < table_room(t) {
        return 0;
    }
    table_lines(t, out)
}

// Of a refused text or input, likewise.
fn refusal_output(at: RefusedAt, out: &mut [u8]) -> usize
    ensures { Wrote (pick (ltb (length out.old) refusal_line) List.[] (line (refusal_frame (refusal_number at.refusal) at.place))) out.old 0 out.new result }
{
    if out.len() < REFUSAL_LINE {
        return 0;
    }
    let mut pen = Pen { out, at: 0 };
    refusal_line(&mut pen, at);
    pen.at
}

// The desk's whole output for an input, from the front of a lent area; gives its length. Nothing is written where it might not fit, and the length is 0,
// which C's call hands on.
pub fn desk_output(text: &[u8], out: &mut [u8]) -> usize
    ensures { Wrote (output_into text.now (length out.old)) out.old 0 out.new result }
{
    if input_too_long(text.len()) {
        let refusal = Refusal::InputTooLong;
        return refusal_output(RefusedAt { refusal, place: 0 }, out);
    }
    match read(text) {
        Ok(table) => table_output(&table, out),
        Err(at) => refusal_output(at, out),
    }
}
