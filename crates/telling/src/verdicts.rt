// A vertex's line, after a miss what shows it, and where it is asked for after a meets what makes it so late.
use crate::masks::Masked;
use crate::print::Plural;
use crate::refusals::Refused;
use crate::releases::Releases;
use bounds::DESK_BUDGET;
use counts::places::Place;
use kinds::{Ticks, Verdict};
use std::fmt;
use table::{Table, Vertex};

// How late a meets is at worst, and how many witness cells its paths have.
#[derive(Clone, Copy)]
pub(crate) struct Worst {
    pub finish: Ticks,
    pub cells: u32,
}

// One vertex of a table, and what it is judged to be. No worst finish where the verdict is no meets, and where none was found within the budget.
#[derive(Drop)]
pub(crate) struct Judged<'a> {
    pub table: &'a Table,
    pub at: Place,
    pub job: Vertex,
    pub masked: Option<Masked>,
    pub verdict: Verdict,
    pub worst: Option<Worst>,
    pub witness: &'a [u16],
    pub why: bool,
}

impl Judged<'_> {
    // Neither call writes more cells than there are. By `as`, since no `From` leads from u32 to usize.
    fn releases(&self, cells: u32) -> Releases<'_> {
        let n = self.witness.len().min(cells as usize);
        Releases {
            table: self.table,
            cells: &self.witness[..n],
        }
    }

    fn write_masked<W: fmt::Write>(&self, f: &mut fmt::Formatter<W>) -> fmt::Result {
        match self.masked {
            Some(masked) => write!(f, "{masked}"),
            None => Ok(()),
        }
    }

    // Task 0 has no higher tasks, and the worst finish of its vertices no cells.
    fn write_cause<W: fmt::Write>(&self, f: &mut fmt::Formatter<W>, cells: u32) -> fmt::Result {
        let releases = self.releases(cells);
        if releases.cells.is_empty() {
            return writeln!(f, ", with nothing above it");
        }
        write!(f, ", by these releases:\n{releases}")
    }

    // Beside a meets how late at worst, and how much earlier than the deadline that is.
    fn write_meets<W: fmt::Write>(&self, f: &mut fmt::Formatter<W>, groups: u32) -> fmt::Result {
        let d = self.job.d.0;
        let examined = Plural::Groups(u64::from(groups));
        write!(f, "meets its deadline of {}", Plural::Ticks(u64::from(d)))?;
        let Some(worst) = self.worst else {
            let budget = Plural::Groups(u64::from(DESK_BUDGET));
            return writeln!(
                f,
                " ({examined} examined; its worst finish wasn't found within {budget})"
            );
        };
        let finish = worst.finish.0;
        write!(f, ", at worst after {finish}")?;
        self.write_masked(f)?;
        write!(
            f,
            ", {} to spare ({examined} examined)",
            d.saturating_sub(finish)
        )?;
        if self.why {
            return self.write_cause(f, worst.cells);
        }
        writeln!(f)
    }

    // The work due by the deadline: the vertex's own e, a lower task's masked time, and the paths' loads.
    fn write_due<W: fmt::Write>(&self, f: &mut fmt::Formatter<W>, load: u64) -> fmt::Result {
        let own = u64::from(self.job.e.0);
        let masked = self.masked.map_or(0, |masked| u64::from(masked.ticks.0));
        let due = load.saturating_add(own + masked);
        write!(f, "    {} of work", Plural::Ticks(due))?;
        self.write_masked(f)?;
        let over = Plural::Ticks(due.saturating_sub(u64::from(self.job.d.0)));
        writeln!(
            f,
            " are due by the deadline, {own} of them its own: {over} too many"
        )
    }

    // Task 0 has no higher tasks, and a miss of its vertices no cells; only with masked time can there be one (`OwnDeadline` of the judge's demands).
    fn write_misses<W: fmt::Write>(
        &self,
        f: &mut fmt::Formatter<W>,
        groups: u32,
        cells: u32,
    ) -> fmt::Result {
        let deadline = Plural::Ticks(u64::from(self.job.d.0));
        write!(
            f,
            "MISSES its deadline of {deadline} ({} examined)",
            Plural::Groups(u64::from(groups))
        )?;
        let releases = self.releases(cells);
        if releases.cells.is_empty() {
            writeln!(f, ", with nothing above it:")?;
        } else {
            write!(f, ", shown by these releases:\n{releases}")?;
        }
        self.write_due(f, releases.load())
    }
}

impl fmt::Display for Judged<'_> {
    fn fmt<W: fmt::Write>(&self, f: &mut fmt::Formatter<W>) -> fmt::Result {
        write!(f, "task {}, vertex {}: ", self.at.task.0, self.at.vertex.0)?;
        match self.verdict {
            Verdict::Meets(groups) => self.write_meets(f, groups),
            Verdict::Misses(groups, cells) => self.write_misses(f, groups, cells),
            Verdict::Unfinished(budget) => {
                let groups = Plural::Groups(u64::from(budget));
                writeln!(
                    f,
                    "UNFINISHED: the search was cut short after {groups}; this is neither a yes nor a no"
                )
            }
            Verdict::Refused(at) => writeln!(f, "{}, so this was not judged", Refused(at)),
        }
    }
}
