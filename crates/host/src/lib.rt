// "The customer desk's C host calls the text check directly": `text_check` is the reader's. Here it has the project's name too, beside the writer and the judging calls
// that a C host may want, over numbers and slices. A slice comes from C as a pointer and a length; an empty one may have a null pointer.
//
// Names that a C program sees start with the project's. A vertex's value, place and finish come back behind pointers, C's way to return more than one
// number: a count may take 32 bits, and the place beside it has no width of its own.
#![tactic(auto)]

ghost use Rattle.std.specs.Prelude.{◌≡◌, ◌+◌, ◌*◌, length};
ghost use Rattle.meaning.specs.Text.{read, packed};
ghost use Rattle.meaning.specs.Areas.{Wrote};
ghost use Rattle.kinds.specs.Numbers.{refusal_number};
ghost use Rattle.judge.specs.Desk.{output_into};
ghost use Rattle.counts.specs.Counts.{meant_counts};
ghost use Rattle.host.specs.Told.{VertexTold, LatestTold, counts_number, TableTold, WriteTold};

use cells::write_cells;
use counts::Counts;
use judge::{desk_output, judge, judge_table, latest};
use kinds::{RefusedAt, TaskNumber, Verdict, VertexNumber, narrow};
use reader::text_check;

// The text check, by the project's name.
pub fn tectavirio_text_check(text: &[u8]) -> u32
    ensures { result ≡ packed (read text.now) }
{
    text_check(text)
}

// One vertex of the text's table: gives the verdict's number, 0 meets, 1 misses, 2 unfinished, 3 refused. The value is the count, the budget or the
// refusal's number; the place is the cells written by a miss, what is returned with a refusal, else zero.
pub fn tectavirio_judge(
    text: &[u8],
    task: u32,
    vertex: u32,
    budget: u32,
    work: &mut [u32],
    witness: &mut [u16],
    value: &mut u32,
    place: &mut u32,
) -> u8
    ensures { VertexTold text.now task vertex budget work.old witness.old result value.new place.new work.new witness.new }
{
    let verdict = judge(
        text,
        TaskNumber(narrow(task)),
        VertexNumber(narrow(vertex)),
        budget,
        work,
        witness,
    );
    *value = verdict.value();
    *place = verdict.place();
    verdict.number()
}

// One vertex, and how late its latest is: as the call above, but a meets has the cells that it wrote as its place, and the finish is its worst finish; 0
// beside any other verdict.
pub fn tectavirio_latest(
    text: &[u8],
    task: u32,
    vertex: u32,
    budget: u32,
    work: &mut [u32],
    witness: &mut [u16],
    value: &mut u32,
    place: &mut u32,
    finish: &mut u32,
) -> u8
    ensures { LatestTold text.now task vertex budget work.old witness.old result value.new place.new finish.new work.new witness.new }
{
    let late = latest(
        text,
        TaskNumber(narrow(task)),
        VertexNumber(narrow(vertex)),
        budget,
        work,
        witness,
    );
    let said = Verdict::from(late);
    *value = said.value();
    *place = late.place();
    *finish = u32::from(late.finish());
    said.number()
}

// Each count in a byte, those that meet highest. Plain numbers: C reads them.
fn counts_number(c: Counts) -> u32
    ensures { result ≡ counts_number (meant_counts c) }
{
    u32::from_be_bytes([c.meeting, c.missing, c.unfinishing, c.refusing])
}

// Its number in the upper half, and what is returned with it in the lower: C reads it, too.
fn refused_number(at: RefusedAt) -> u64
    ensures { result ≡ refusal_number at.refusal * 4294967296 + at.place }
{
    (u64::from(at.refusal.number()) << 32) + u64::from(at.place)
}

// The four counts of the text's table, below 4,294,967,296; else the refusal's number x 4,294,967,296 + its line.
pub fn tectavirio_judge_table(text: &[u8], budget: u32, work: &mut [u32]) -> u64
    ensures { TableTold text.now budget work.old result work.new }
{
    match judge_table(text, budget, work) {
        Ok(counts) => u64::from(counts_number(counts)),
        Err(at) => refused_number(at),
    }
}

// A table in cells, written as text: the number of bytes, below 4,294,967,296; else the refusal's number x 4,294,967,296 + what is returned with it.
pub fn tectavirio_write(cells: &[u16], out: &mut [u8]) -> u64
    ensures { WriteTold cells.now out.old result out.new }
{
    match write_cells(cells, out) {
        Ok(n) => n as u64,
        Err(at) => refused_number(at),
    }
}

// The desk's whole output, as the judge's own call gives it.
pub fn tectavirio_desk_output(text: &[u8], out: &mut [u8]) -> usize
    ensures { Wrote (output_into text.now (length out.old)) out.old 0 out.new result }
{
    desk_output(text, out)
}
