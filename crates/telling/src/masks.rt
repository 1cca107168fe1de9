// "B the largest m among lower tasks": whose masked time holds a job up, and for how long.
use counts::places::first_lower;
use kinds::{TaskNumber, Ticks};
use std::fmt;
use table::Table;

// At least one tick.
#[derive(Clone, Copy)]
pub(crate) struct Masked {
    pub ticks: Ticks,
    pub task: usize,
}

// The longest; of two alike the first. None where no lower task has a masked length, as behind the last task of a table.
pub(crate) fn masked_below(table: &Table, own: TaskNumber) -> Option<Masked> {
    let mut longest: Option<Masked> = None;
    for (task, lower) in table.tasks.iter().enumerate().skip(first_lower(own)) {
        let ticks = lower.m;
        if longest.map_or(Ticks(0), |masked| masked.ticks) < ticks {
            longest = Some(Masked { ticks, task });
        }
    }
    longest
}

// How much of a number of ticks is masked time, behind it.
impl fmt::Display for Masked {
    fn fmt<W: fmt::Write>(&self, f: &mut fmt::Formatter<W>) -> fmt::Result {
        let task = self.task;
        match self.ticks.0 {
            1 => write!(f, " (1 tick of it is task {task}'s masked time)"),
            ticks => write!(f, " ({ticks} ticks of it are task {task}'s masked time)"),
        }
    }
}
