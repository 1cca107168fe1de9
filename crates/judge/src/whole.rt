// "Judging a whole table [..] takes one budget, given afresh to each vertex, and returns how many meet, miss, are unfinished and are refused by 9 or 10.
// [..] It takes no witness area."
ghost use Rattle.table.specs.Inner.{table_of, Held};
ghost use Rattle.judge.specs.Inner.{TableCounted};

use crate::places::Places;
use crate::vertex::judge_vertex;
use bounds::MOST_WITNESS;
use counts::Counts;
use kinds::Verdict;
use table::Table;

// A witness area of its own, as long as any vertex needs, so that no vertex is refused by 11.
pub(crate) fn count_verdicts(t: &Table, budget: u32, work: &mut [u32]) -> Counts
    requires { Held t.now }
    ensures { TableCounted (table_of t.now) budget work.old result work.new }
{
    let mut witness = [0u16; MOST_WITNESS];
    let mut counts = Counts::none();
    for at in Places::of(t) {
        let told = judge_vertex(t, at, budget, false, work, &mut witness);
        counts = counts.counted(Verdict::from(told));
    }
    counts
}
