// "Returns how many meet, miss, are unfinished and are refused", for each vertex "in rising order of task and then vertex": the four counts, one verdict
// after the other, and in `places` which vertex is next. On numbers alone: nothing here knows a table.
#![tactic(auto)]

pub mod places;

ghost use Rattle.std.specs.Prelude.{◌≡◌, ◌*◌, ◌<◌};
ghost use Rattle.meaning.specs.Bounds.{most_tasks, most_vertices};
ghost use Rattle.counts.specs.Counts.{meant_counts};
ghost use Rattle.counts.specs.GoesOut.{goes_out};
ghost use Rattle.counts.specs.Inner.{total, no_counts, one_more};

use kinds::Verdict;

// Of a table's vertices, at most 96 in all: how many meet, miss, are unfinished and are refused.
#[derive(Clone, Copy, PartialEq, Eq)]
pub struct Counts {
    pub meeting: u8,
    pub missing: u8,
    pub unfinishing: u8,
    pub refusing: u8,
}

impl Counts {
    pub fn none() -> Counts
        ensures { result ≡ no_counts }
    {
        Counts {
            meeting: 0,
            missing: 0,
            unfinishing: 0,
            refusing: 0,
        }
    }

    // One more of the verdict's kind.
    pub fn counted(self, x: Verdict) -> Counts
        requires { total self < most_tasks * most_vertices }
        ensures { result ≡ one_more self x }
    {
        let mut more = self;
        match x {
            Verdict::Meets(_) => more.meeting += 1,
            Verdict::Misses(_, _) => more.missing += 1,
            Verdict::Unfinished(_) => more.unfinishing += 1,
            Verdict::Refused(_) => more.refusing += 1,
        }
        more
    }

    // "The stock controller wants a no whenever there is doubt": a yes needs that nothing misses, nothing was cut short and nothing was refused.
    pub fn goes_out(self) -> bool
        ensures { result ≡ goes_out (meant_counts self) }
    {
        self.missing == 0 && self.unfinishing == 0 && self.refusing == 0
    }
}
