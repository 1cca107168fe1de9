// "The rest are run and compared, also with an independent second program."
//
// Answers many cases in one run. Standard input is a sequence of cases, as the crate `sequences` has it. What is asked of a text is its mode, a letter
// (modes.rt), and what is written for it stands in the file of that mode:
//   c  the text check (check.rt)              v  one vertex, on marked areas (vertex.rt)
//   l  the paths of its tasks (list.rt)       t  the whole table, on a marked area (whole.rt)
//   d  the desk's output (desk.rt)            u  the whole table, unmarked, for docs/COST.md (whole.rt)
//   f  one vertex and its worst finish, on marked areas (vertex.rt)
//   g  every vertex of a table with its worst finish, unmarked, for docs/COST.md (finishes.rt)
//   r  a record, written into a marked area (record.rt)
//   b  back: the text's table, written into a marked area (back.rt)
// Any other mode is a line that says so.
#![tactic(auto)]

mod back;
mod check;
mod desk;
mod finishes;
mod lent;
mod list;
mod modes;
mod print;
mod record;
mod task;
mod vertex;
mod whole;
mod writing;

use crate::lent::Areas;
use crate::modes::{Mode, UnknownMode};
use crate::print::end_line;
use sequences::{HEADER_BYTES, Header, case_end};

fn say_unknown(letter: u8) {
    io::write_all(1, b"no such mode: ");
    io::print_hex(1, u64::from(letter), 2);
    end_line();
}

// One case.
fn answer(header: &Header, text: &[u8], areas: &mut Areas) {
    match Mode::try_from(header.mode) {
        Ok(Mode::Check) => check::print(text),
        Ok(Mode::List) => list::print(text, &mut areas.work),
        Ok(Mode::Desk) => desk::print(text, &mut areas.out),
        Ok(Mode::Vertex) => vertex::print(header, text, areas),
        Ok(Mode::Latest) => vertex::print_latest(header, text, areas),
        Ok(Mode::Table) => whole::print_marked(header, text, &mut areas.work),
        Ok(Mode::Unmarked) => whole::print(text, &mut areas.work),
        Ok(Mode::Finishes) => finishes::print(text, areas),
        Ok(Mode::Record) => record::print(header, text),
        Ok(Mode::Back) => back::print(header, text),
        Err(UnknownMode(letter)) => say_unknown(letter),
    }
}

fn answer_all(bytes: &[u8], areas: &mut Areas) {
    let mut at = 0;
    while let Some(header) = Header::read(bytes, at) {
        let end = case_end(bytes, at);
        answer(&header, &bytes[at + HEADER_BYTES..end], areas);
        at = end;
    }
}

fn main() {
    let mut bytes = sequences::room();
    let mut areas = Areas::room();
    let n = io::read_full(0, &mut bytes);
    answer_all(&bytes[..n], &mut areas);
}
