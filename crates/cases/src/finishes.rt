// How late is the latest, of every vertex of a table: a line, the desk's frame of the four counts, here of these verdicts, and the sum of the worst
// finishes (4 bytes); or the desk's frame of a refused text. With the desk's budget, and areas for any vertex that are neither marked nor looked at.
ghost use Rattle.table.specs.Inner.{Held};

use crate::lent::Areas;
use crate::print::end_line;
use crate::whole::{print_counts, print_refusal};
use bounds::DESK_BUDGET;
use counts::Counts;
use judge::latest;
use judge::places::Places;
use kinds::Verdict;
use reader::read;
use table::Table;

fn print_line(counts: Counts, finishes: u64) {
    print_counts(counts, 1);
    io::print_hex(1, finishes, 8);
    end_line();
}

// The sum of the finishes doesn't get to where it stops: at most 96 of at most 1,000 ticks.
fn print_finishes(text: &[u8], table: &Table, areas: &mut Areas)
    requires { Held table.now }
{
    let mut counts = Counts::none();
    let mut finishes: u64 = 0;
    for at in Places::of(table) {
        let told = latest(
            text,
            at.task,
            at.vertex,
            DESK_BUDGET,
            &mut areas.work,
            &mut areas.witness,
        );
        counts = counts.counted(Verdict::from(told));
        finishes = finishes.saturating_add(u64::from(told.finish()));
    }
    print_line(counts, finishes);
}

pub(crate) fn print(text: &[u8], areas: &mut Areas) {
    match read(text) {
        Ok(table) => print_finishes(text, &table, areas),
        Err(at) => print_refusal(at, 0),
    }
}
