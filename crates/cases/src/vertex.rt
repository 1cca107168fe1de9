// One vertex, judged on areas of the header's cells: a line with the verdict's number (1 byte), its count, budget or refusal number (4), its cells or place
// (4), then what is in the two areas, as lent.rt has it. In mode f the worst finish (4) stands before the areas, and a meets has its cells too.
use crate::lent::{Areas, WITNESS_CELLS, WORK_CELLS, mark, print_witness, print_work};
use crate::print::end_line;
use judge::{judge, latest};
use kinds::{Lateness, TaskNumber, Verdict, VertexNumber};
use sequences::Header;

fn print_numbers(verdict: Verdict, place: u32) {
    io::print_hex(1, u64::from(verdict.number()), 2);
    io::print_hex(1, u64::from(verdict.value()), 8);
    io::print_hex(1, u64::from(place), 8);
}

fn print_lateness(told: Lateness) {
    print_numbers(Verdict::from(told), told.place());
    io::print_hex(1, u64::from(told.finish()), 8);
}

fn print_verdict(verdict: Verdict) {
    print_numbers(verdict, verdict.place());
}

// What `ask` writes of an answer that it asks for on marked areas, and then what is in them. A case that asks for more cells than there are gets all of them.
fn print_on<F: FnOnce(&mut [u32], &mut [u16])>(
    header: &Header,
    work: &mut [u32; WORK_CELLS],
    witness: &mut [u16; WITNESS_CELLS],
    ask: F,
)
    requires { F.IsAlwaysCallable ask }
{
    let work_cells = header.work_cells.min(WORK_CELLS);
    let witness_cells = header.witness_cells.min(WITNESS_CELLS);
    let work = &mut work[..work_cells];
    let witness = &mut witness[..witness_cells];
    mark(work);
    mark(witness);
    ask(work, witness);
    print_work(work);
    print_witness(witness);
    end_line();
}

pub(crate) fn print(header: &Header, text: &[u8], areas: &mut Areas) {
    let task = TaskNumber(header.task);
    let vertex = VertexNumber(header.vertex);
    let budget = header.budget;
    print_on(
        header,
        &mut areas.work,
        &mut areas.witness,
        |work: &mut [u32], witness: &mut [u16]| {
            print_verdict(judge(text, task, vertex, budget, work, witness))
        },
    );
}

pub(crate) fn print_latest(header: &Header, text: &[u8], areas: &mut Areas) {
    let task = TaskNumber(header.task);
    let vertex = VertexNumber(header.vertex);
    let budget = header.budget;
    print_on(
        header,
        &mut areas.work,
        &mut areas.witness,
        |work: &mut [u32], witness: &mut [u16]| {
            print_lateness(latest(text, task, vertex, budget, work, witness))
        },
    );
}
