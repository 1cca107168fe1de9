// "For a vertex judged under the tasks of higher priority": their paths are counted, their stretches filled, the groups walked, a miss's paths written, and
// where the latest finish is asked for a meets's too. "A vertex's e in the overload rule becomes e + B, with B the largest m among lower tasks."
ghost use Rattle.table.specs.Inner.{table_of, Held};
ghost use Rattle.search.specs.Meant.{asked_by};
ghost use Rattle.counts.specs.Place.{meant_place};
ghost use Rattle.judge.specs.Inner.{VertexJudged, There};

use crate::higher_tasks::{count_paths, fill_stretches, write_paths};
use crate::lower_tasks::longest_mask;
use counts::places::Place;
use kinds::{Lateness, Ticks};
use search::{first_bar, search, written_paths};
use sheet::{area_rows, said, too_many_paths};
use table::Table;

// "After the text: 8, 9, 10, 11." A vertex of the table: 9 to 11, and then the walk.
pub(crate) fn judge_vertex(
    t: &Table,
    at: Place,
    budget: u32,
    late: bool,
    work: &mut [u32],
    witness: &mut [u16],
) -> Lateness
    requires { Held t.now × There (table_of t.now) (meant_place at) }
    ensures { VertexJudged (asked_by late) (table_of t.now) at.task.0 at.vertex.0 budget work.old witness.old result work.new witness.new }
{
    // `as`: the proofs read the number itself, and `From`'s through an equation.
    let h = at.task.0 as usize;
    let job = t.tasks[h].vertices[at.vertex.0 as usize];
    let above = match count_paths(t, h, job.d) {
        Ok(above) => above,
        Err(crowded) => return too_many_paths(crowded),
    };
    let rows = area_rows(above.rows, h, job.d, work.len(), witness.len());
    if let Err(refused) = rows {
        return Lateness::Refused(refused);
    }
    fill_stretches(t, h, job.d, &above, work);
    let e = Ticks(job.e.0 + longest_mask(t, at.task).0);
    let bar = first_bar(late, job.d);
    let walked = search(work, &above, h, e, job.d, bar, budget);
    let shown = written_paths(late, walked.ending, h);
    let cells = write_paths(t, &walked.places[..shown], job.d, witness);
    said(walked.ending, walked.finish, cells)
}
