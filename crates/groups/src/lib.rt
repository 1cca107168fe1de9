// "A range is a run of neighbours in one task's ordered complete paths." "A group takes one range from each higher task." "The top group takes all. A
// group with some longer range has two children: the lowest-numbered task whose range is longer than one is split, first part first."
//
// Of each higher task there is a stretch of rows in the work area. A group is lent as a part of each stretch: the range that it takes there, and where
// the range's row begins. No paths are known here.
#![tactic(auto)]

ghost use Rattle.std.specs.Prelude.{◌≡◌, length};
ghost use Rattle.rows.specs.Ranges.{range};
ghost use Rattle.groups.specs.Groups.{top_group};
ghost use Rattle.groups.specs.Lent.{counts, part_at, Startable, LaidOver, Standing, Stands, ToChild, ToNext};

use rows::{half, rest_length, top_row};

// Where a task's stretch begins in the work area, and how many paths the task has.
#[derive(Clone, Copy)]
pub struct Stretch {
    pub root: usize,
    pub count: usize,
}

// Where the rows of all higher tasks stand in the work area: their stretches, in rows of d cells.
#[derive(Clone, Copy)]
pub struct Layout<'a> {
    pub stretches: &'a [Stretch],
    pub d: usize,
}

// The range of a group in a stretch, the `len` paths from `first` on, and where its row begins.
#[derive(Clone, Copy)]
pub struct Part {
    pub base: usize,
    pub first: usize,
    pub len: usize,
}

impl Stretch {
    // The part that the range of len paths from place first on is, in rows of d cells.
    fn part(&self, first: usize, len: usize, d: usize) -> Part
        requires { Startable d self.now.root (range first len) }
        ensures { result ≡ part_at d self.now.root (range first len) }
    {
        let row = 2 * first + top_row(len);
        let base = self.root + row * d;
        Part { base, first, len }
    }
}

// `Standing` stays a clause: a struct with the group would hold it as a ghost field, whose fact has one proof at most; of cases (`InWalk`) that has to be shown.
impl Layout<'_> {
    // The top group.
    pub fn top_group(&self, group: &mut [Part])
        requires { LaidOver self.now.d self.now.stretches.now × (length group.old ≡ length self.now.stretches.now) }
        ensures { Stands self.now.d self.now.stretches.now group.new (top_group (counts self.now.stretches.now)) }
    {
        for (j, part) in group.iter_mut().enumerate() {
            let stretch = self.stretches[j];
            *part = stretch.part(0, stretch.count, self.d);
        }
    }

    // The first child, if the group has children: else it is of single paths, and stays.
    pub fn first_child(&self, group: &mut [Part]) -> bool
        requires { Standing self.now.d self.now.stretches.now group.old }
        ensures { ToChild self.now.d self.now.stretches.now group.old result group.new }
    {
        for (j, part) in group.iter_mut().enumerate() {
            if 1 < part.len {
                *part = self.stretches[j].part(part.first, half(part.len), self.d);
                return true;
            }
        }
        false
    }

    // The next group when nothing below the present one is examined, if there is one: the last range that does not end its task's paths gives way to the
    // rest that begins behind it, and the tasks behind that one are whole again. Else it is the top group.
    pub fn next_group(&self, group: &mut [Part]) -> bool
        requires { Standing self.now.d self.now.stretches.now group.old }
        ensures { ToNext self.now.d self.now.stretches.now group.old result group.new }
    {
        for j in (0..group.len()).rev() {
            let stretch = self.stretches[j];
            let end = group[j].first + group[j].len;
            if end < stretch.count {
                let len = rest_length(0, stretch.count, end);
                group[j] = stretch.part(end, len, self.d);
                return true;
            }
            group[j] = stretch.part(0, stretch.count, self.d);
        }
        false
    }
}
