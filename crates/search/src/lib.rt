// "The walk is written as a step that examines one group, and a run that takes at most as many steps as the budget." "After any of the three verdicts the
// needed cells, from the front, are zero and the rest unchanged."
//
// The walk over the stretches of the higher tasks, once they are filled; it leaves their cells zero. `proofs/` shows that what it says is document 01's
// C and witness, and with the bar at 0 the worst finish, whatever the tasks: no table is known here.
#![tactic(auto)]

ghost use Rattle.std.specs.Prelude.{◌≡◌, ◌*◌, ◌≤◌, length, take};
ghost use Rattle.meaning.specs.Bounds.{most_higher, most_paths, largest_d};
ghost use Rattle.meaning.specs.Areas.{rows_for, zeroed};
ghost use Rattle.groups.specs.Lent.{roots, counts};
ghost use Rattle.walk.specs.Lent.{Walkable};
ghost use Rattle.walk.specs.Steps.{run_rows};
ghost use Rattle.search.specs.Meant.{asked_by, first_bar, written};

use areas::above::Above;
use areas::clear;
use groups::Layout;
use kinds::Ticks;
use walk::{Ending, Rows, Walked};

// Where the bar is at first: at d for the verdict alone, since then a group is gone into only if it overloads. `late`, here and in the judge, is a flag, whether
// the latest finish is asked for: an enum of its two cases would be no plainer.
pub fn first_bar(late: bool, d: Ticks) -> Ticks
    ensures { result.0 ≡ first_bar (asked_by late) d.0 }
{
    if late {
        return Ticks(0);
    }
    d
}

// Of h paths how many are written.
pub fn written_paths(late: bool, ending: Ending, h: usize) -> usize
    ensures { result ≡ written (asked_by late) ending h }
{
    match ending {
        Ending::Misses(_) => h,
        Ending::Unfinished(_) => 0,
        Ending::Meets(_) => {
            if late {
                return h;
            }
            0
        }
    }
}

// A job of e ticks and deadline d under h tasks, whose stretches fill the front of the work area, with the bar here.
pub fn search(
    work: &mut [u32],
    above: &Above,
    h: usize,
    e: Ticks,
    d: Ticks,
    bar: Ticks,
    budget: u32,
) -> Walked
    requires rows_bound { (above.now.rows ≤ rows_for most_paths * most_higher) × (d.0 ≤ largest_d) × (above.now.rows * d.0 ≤ length work.old) }
    requires walkable { Walkable h d.0 e.0 (roots above.now.stretches) (counts above.now.stretches) (take (above.now.rows * d.0) work.old) }
    ensures value { result ≡ run_rows (take (above.now.rows * d.0) work.old) d.0 e.0
        (take h (roots above.now.stretches)) (take h (counts above.now.stretches)) bar.0 budget }
    ensures work_after { work.new ≡ zeroed (above.now.rows * d.0) work.old }
{
    let ticks = usize::from(d.0);
    let need = above.rows * ticks;
    let layout = Layout {
        stretches: &above.stretches[..h],
        d: ticks,
    };
    let rows = Rows {
        work: &work[..need],
        layout,
        e: u32::from(e.0),
    };
    let walked = rows.run(u32::from(bar.0), budget);
    clear(work, need);
    walked
}
