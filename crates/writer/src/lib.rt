// "The configurator builds tables in memory and needs them as text. A writer takes a table and a byte area and writes the frames. A table that breaks a
// rule gets 2 to 5 with the line its frame would have, first line first [..]; then 10 with the bytes needed. A refusal changes nothing; else the rest of
// the area is unchanged." A job longer than its own deadline gets 13, by wish 6.
#![tactic(auto)]

mod text;

ghost use Rattle.writer.specs.Written.{Writes};

use checks::check_table;
use kinds::{Refusal, RefusedAt};
use table::Table;
use text::put_table;

// How many bytes were written.
pub fn write(t: &Table, out: &mut [u8]) -> Result<usize, RefusedAt>
    ensures { Writes t.now out.old result out.new }
{
    // No `?`: the must-fail edit turns what is handed on, and a wrong refusal behind `?` would be refused for its form.
    let need = match check_table(t) {
        Ok(need) => need,
        Err(at) => return Err(at),
    };
    if out.len() < need {
        let place = need as u32;
        return Err(RefusedAt {
            refusal: Refusal::WorkTooShort,
            place,
        });
    }
    let end = put_table(t, out);
    Ok(end)
}
