// A readable table: a line for each vertex, "in rising order of task and then vertex", by what the desk program lends: "8,192 work cells", "7,007 witness
// cells", "budget 100,000".
ghost use Rattle.std.specs.Prelude.{◌≡◌};
ghost use Rattle.meaning.specs.Bounds.{desk_budget, desk_work, desk_witness};
ghost use Rattle.meaning.specs.Text.{readable, read};
ghost use Rattle.meaning.specs.Verdict.{numbers, plain};
ghost use Rattle.meaning.specs.Judge.{answer};
ghost use Rattle.meaning.specs.Whole.{verdicts, counts_of, table_answer};
ghost use Rattle.kinds.specs.Numbers.{verdict_numbers};
ghost use Rattle.table.specs.Inner.{table_of, Held};
ghost use Rattle.counts.specs.Counts.{meant_counts};
ghost use Rattle.judge.specs.Whole.{answer_of};

use crate::masks::masked_below;
use crate::print::say;
use crate::verdicts::{Judged, Worst};
use bounds::{DESK_BUDGET, DESK_WORK, MOST_WITNESS};
use counts::Counts;
use counts::places::Place;
use judge::places::Places;
use judge::{judge, latest};
use kinds::{Lateness, RefusedAt, Verdict};
use reader::read;
use table::{Table, Vertex};

// The areas that are lent.
#[derive(Drop)]
pub(crate) struct Lent {
    work: [u32; DESK_WORK],
    witness: [u16; MOST_WITNESS],
}

impl Lent {
    fn judge(&mut self, text: &[u8], at: Place) -> Verdict
        ensures { verdict_numbers result ≡ numbers (answer plain text.now at.task.0 at.vertex.0 desk_budget desk_work desk_witness) }
    {
        judge(
            text,
            at.task,
            at.vertex,
            DESK_BUDGET,
            &mut self.work,
            &mut self.witness,
        )
    }

    // "A figure beside "meets"": the worst finish, and the cells of "the first choice" that reaches it; none beside any other verdict, and where the
    // search for it is cut short.
    fn worst(&mut self, text: &[u8], at: Place, verdict: Verdict) -> Option<Worst> {
        let Verdict::Meets(_) = verdict else {
            return None;
        };
        let told = latest(
            text,
            at.task,
            at.vertex,
            DESK_BUDGET,
            &mut self.work,
            &mut self.witness,
        );
        match told {
            Lateness::Meets(_, finish, cells) => Some(Worst { finish, cells }),
            Lateness::Misses(_, _) | Lateness::Unfinished(_) | Lateness::Refused(_) => None,
        }
    }
}

// One vertex; gives its verdict, to be counted.
fn say_vertex(
    text: &[u8],
    table: &Table,
    at: Place,
    job: Vertex,
    why: bool,
    lent: &mut Lent,
) -> Verdict
    ensures { verdict_numbers result ≡ numbers (answer plain text.now at.task.0 at.vertex.0 desk_budget desk_work desk_witness) }
{
    let verdict = lent.judge(text, at);
    let worst = lent.worst(text, at, verdict);
    say(Judged {
        table,
        at,
        job,
        masked: masked_below(table, at.task),
        verdict,
        worst,
        witness: &lent.witness,
        why,
    });
    verdict
}

// Every vertex of a text's table; gives the four counts of the table's verdicts.
fn say_vertices(text: &[u8], table: &Table, why: bool) -> Counts
    requires { Held table.now × (read text.now ≡ readable (table_of table.now)) }
    ensures { meant_counts result ≡ counts_of (verdicts (table_of table.now) desk_budget desk_work) }
{
    let mut lent = Lent {
        work: [0; DESK_WORK],
        witness: [0; MOST_WITNESS],
    };
    let mut counts = Counts::none();
    for at in Places::of(table) {
        let job = table.tasks[usize::from(at.task.0)].vertices[usize::from(at.vertex.0)];
        counts = counts.counted(say_vertex(text, table, at, job, why, &mut lent));
    }
    counts
}

// The lines of a readable text; gives what `judge_table` answers for the text.
pub(crate) fn say_lines(text: &[u8], why: bool) -> Result<Counts, RefusedAt>
    ensures { answer_of result ≡ table_answer (read text.now) desk_budget desk_work }
{
    let table = read(text)?;
    Ok(say_vertices(text, &table, why))
}
