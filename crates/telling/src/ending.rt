// How many vertices meet, miss, are unfinished and are refused, and what follows from that for the whole table.
use counts::Counts;
use std::fmt;

#[derive(Drop)]
pub(crate) struct Ending(pub Counts);

fn conclusion(counts: Counts) -> &'static str {
    if counts.goes_out() {
        "This may go out: every job type meets its deadline."
    } else if counts.missing != 0 {
        "This may NOT go out: a job type misses its deadline."
    } else {
        "This may NOT go out: not every job type was shown to meet its deadline."
    }
}

impl fmt::Display for Ending {
    fn fmt<W: fmt::Write>(&self, f: &mut fmt::Formatter<W>) -> fmt::Result {
        let Counts {
            meeting,
            missing,
            unfinishing,
            refusing,
        } = self.0;
        writeln!(
            f,
            "meets {meeting}, misses {missing}, unfinished {unfinishing}, refused {refusing}"
        )?;
        writeln!(f, "{}", conclusion(self.0))
    }
}
