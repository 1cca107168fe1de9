// "Lines are read from the first, and the first faulty line decides; within a line the order is 1 to 5. A last stretch without a line feed is
// a line. After the end frame's line nothing is read: any byte there is 7, whatever it is." By wish 6, 13 comes between 3 and 4.
//
// The reader goes down by task: a line is tested for just the frame that must stand there, and looked through for its refusal only where
// that fails. Each line that is taken has as many bytes as its frame, so that places in the text and line numbers are sums.
#![tactic(auto)]

ghost use Rattle.std.specs.Prelude.{◌≡◌, ◌≤◌};
ghost use Rattle.meaning.specs.Text.{read, packed};
ghost use Rattle.meaning.specs.Texts.{last_line};
ghost use Rattle.reader.specs.Record.{Reads};
ghost use Rattle.reader.specs.Inner.{refused_at};

use digits::Digits;
use frames::{END_BYTES, task_or_end_line};
use kinds::{Refusal, RefusedAt};
use lines::read_task;
use table::Table;

fn refused_at(refusal: Refusal, line: usize) -> RefusedAt
    requires { line ≤ last_line }
    ensures { result ≡ refused_at refusal line }
{
    RefusedAt {
        refusal,
        place: line as u32,
    }
}

// The table of a readable text, or the row and the line that refuse it.
pub fn read(text: &[u8]) -> Result<Table, RefusedAt>
    ensures { Reads text.now result }
{
    let digits = Digits::new();
    let mut table = table::no_table();
    let mut at = 0;
    let mut line = 1;
    // No range: where a line stands is a sum of what was read, and how many tasks there are shows at the end; the ninth's line is looked at, too. `match` and
    // not `map_err`, whose promise goes through a closure.
    loop {
        let head = match task_or_end_line(&digits, &text[at..], table.n) {
            Ok(Some(head)) => head,
            Ok(None) => break,
            Err(refusal) => return Err(refused_at(refusal, line)),
        };
        let from = at + head.bytes();
        let lines = match read_task(&digits, text, from, head, &mut table.tasks[table.n]) {
            Ok(lines) => lines,
            Err(stop) => return Err(refused_at(stop.refusal, line + 1 + stop.count)),
        };
        table.n += 1;
        line += 1 + lines.count;
        at = from + lines.bytes;
    }
    if text.len() - at != END_BYTES {
        return Err(refused_at(Refusal::BytesAfterEnd, line + 1));
    }
    Ok(table)
}

// "The customer desk's C host calls the text check directly, with the bytes and a length, and gets refusal number and line, both 0 for a
// readable text": number x 65,536 + line.
pub fn text_check(text: &[u8]) -> u32
    ensures { result ≡ packed (read text.now) }
{
    match read(text) {
        Ok(_) => 0,
        Err(at) => u32::from(at.refusal.number()) * 65536 + at.place,
    }
}
