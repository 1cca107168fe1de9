// "After the text: 8, 9, 10, 11. Each is given exactly when its row holds and none before it in this order does." "12 is checked before all."
// "Verdicts: meets with C, misses with C and the cells written, unfinished with the budget."
//
// The refusal sheet's rows 8 to 12 from numbers alone, and the answer from a walk's ending: no table is known here.
#![tactic(auto)]

ghost use Rattle.std.specs.Prelude.{◌≡◌, ◌+◌, ◌*◌, ◌≤◌, leb, ltb};
ghost use Rattle.meaning.specs.Bounds.{most_higher, most_paths, largest_d, longest_input};
ghost use Rattle.meaning.specs.Areas.{rows_for};
ghost use Rattle.sheet.specs.Sheet.{no_such_vertex, too_many_paths, area_rows, said_of};

use bounds::LONGEST_INPUT;
use kinds::{Lateness, Refusal, RefusedAt, TaskNumber, Ticks};
use walk::Ending;

// Row 8 holds where a table of so many tasks has none of this number, or a task of so many vertices.
pub fn no_such(number: u8, count: usize) -> bool
    ensures { result ≡ leb count number }
{
    count <= usize::from(number)
}

pub fn no_such_vertex() -> Lateness
    ensures { result ≡ no_such_vertex }
{
    Lateness::Refused(RefusedAt {
        refusal: Refusal::NoSuchVertex,
        place: 0,
    })
}

// Row 9, of the lowest-numbered task that it holds of.
pub fn too_many_paths(task: TaskNumber) -> Lateness
    ensures { result ≡ too_many_paths task.0 }
{
    Lateness::Refused(RefusedAt {
        refusal: Refusal::TooManyPaths,
        place: u32::from(task.0),
    })
}

// Rows 10 and 11, for h higher tasks with so many rows of d cells, and areas of so many cells: whether they let a vertex be judged.
pub fn area_rows(
    rows: usize,
    h: usize,
    d: Ticks,
    work: usize,
    witness: usize,
) -> Result<(), RefusedAt>
    requires { (rows ≤ rows_for most_paths * most_higher) × (h ≤ most_higher) × (d.0 ≤ largest_d) }
    ensures { result ≡ area_rows (rows * d.0) (h * (1 + d.0)) work witness }
{
    let ticks = usize::from(d.0);
    let need = rows * ticks;
    let cells = h * (1 + ticks);
    if work < need {
        return Err(RefusedAt {
            refusal: Refusal::WorkTooShort,
            place: need as u32,
        });
    }
    if witness < cells {
        return Err(RefusedAt {
            refusal: Refusal::WitnessTooShort,
            place: cells as u32,
        });
    }
    Ok(())
}

// Row 12, the program's alone.
pub fn input_too_long(bytes: usize) -> bool
    ensures { result ≡ ltb longest_input bytes }
{
    LONGEST_INPUT < bytes
}

// The answer of a walk that ended so, with the bar at this tick and so many cells written.
pub fn said(ending: Ending, finish: u32, cells: usize) -> Lateness
    requires { (finish ≤ largest_d + 1) × (cells ≤ most_higher * (1 + largest_d)) }
    ensures { result ≡ said_of ending finish cells }
{
    let bar = Ticks(finish as u16);
    let place = cells as u32;
    match ending {
        Ending::Meets(count) => Lateness::Meets(count, bar, place),
        Ending::Misses(count) => Lateness::Misses(count, place),
        Ending::Unfinished(budget) => Lateness::Unfinished(budget),
    }
}
