// "The refusal sheet": each of its rows in words. A refusal that has none doesn't pass the compiler.
use bounds::{DESK_WORK, LONGEST_INPUT, MOST_PATHS, MOST_WITNESS};
use kinds::{Refusal, RefusedAt};
use std::fmt;

#[derive(Drop)]
pub(crate) struct Refused(pub RefusedAt);

// The rows that refuse a line, 1 to 7 and 13; no words of those that refuse a vertex or an input, which say a number.
fn line_row(refusal: Refusal) -> &'static str {
    match refusal {
        Refusal::BadLine =>
            "a line must be pairs of the digits 0-9a-f, at least one pair, and end in a line feed",
        Refusal::WrongFrame =>
            "this kind of frame isn't allowed here, or its length is wrong for its kind",
        Refusal::OutOfBounds =>
            "a number is outside its bounds, an edge names a vertex that the task hasn't, or the task's masked length exceeds its largest e",
        Refusal::DeadlineOverSeparation =>
            "the deadline of the edge's starting vertex exceeds the separation",
        Refusal::EdgeNotAfter => "the edge doesn't come after the one before it in its task",
        Refusal::NoEnd => "the text ends and no end frame was read",
        Refusal::BytesAfterEnd => "there are bytes after the end frame",
        Refusal::JobOverDeadline => "the job is longer than its own deadline",
        Refusal::NoSuchVertex
        | Refusal::TooManyPaths
        | Refusal::WorkTooShort
        | Refusal::WitnessTooShort
        | Refusal::InputTooLong => "",
    }
}

// With what a row returns, and the number that this is held to.
impl fmt::Display for Refused {
    fn fmt<W: fmt::Write>(&self, f: &mut fmt::Formatter<W>) -> fmt::Result {
        let RefusedAt { refusal, place } = self.0;
        write!(f, "REFUSED ({})", refusal.number())?;
        match refusal {
            Refusal::NoSuchVertex => write!(f, ": there is no such task or vertex"),
            Refusal::TooManyPaths => write!(
                f,
                ": task {place} has more than {MOST_PATHS} complete paths"
            ),
            Refusal::WorkTooShort => write!(
                f,
                ": {place} work cells are needed and there are {DESK_WORK}"
            ),
            Refusal::WitnessTooShort => write!(
                f,
                ": {place} witness cells are needed and there are {MOST_WITNESS}"
            ),
            Refusal::InputTooLong => write!(f, ": the input is longer than {LONGEST_INPUT} bytes"),
            line => write!(f, " at line {place}: {}", line_row(line)),
        }
    }
}
