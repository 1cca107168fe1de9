// "Tick counts, task numbers and vertex numbers are kept as kinds that can't be mixed." Each has the width of its frames.
//
// "A refusal is carried inside the verdict as a number and its place": the verdict's refused case holds the refusal and its line, task or cell count.
#![tactic(auto)]

ghost use Rattle.std.specs.Prelude.{◌≡◌, min, max, get_or};
ghost use Rattle.kinds.specs.Numbers.{refusal_number, verdict_numbers, verdict_in, lateness_numbers};

#[derive(Clone, Copy, PartialEq, Eq, PartialOrd, Ord)]
pub struct Ticks(pub u16);

#[derive(Clone, Copy, PartialEq, Eq)]
pub struct TaskNumber(pub u8);

#[derive(Clone, Copy, PartialEq, Eq)]
pub struct VertexNumber(pub u8);

// A number in the width of a task's or a vertex's number: 255 stands for every number above it, since no table has so many tasks and no task so many
// vertices.
pub fn narrow(n: u32) -> u8
    ensures { result ≡ min n 255 }
{
    u8::try_from(n).unwrap_or(255)
}

pub fn longer(a: Ticks, b: Ticks) -> Ticks
    ensures { result.0 ≡ max a.0 b.0 }
{
    Ticks(a.0.max(b.0))
}

// The rows of the refusal sheet, by its numbers.
#[derive(Clone, Copy, PartialEq, Eq)]
pub enum Refusal {
    BadLine = 1,
    WrongFrame = 2,
    OutOfBounds = 3,
    DeadlineOverSeparation = 4,
    EdgeNotAfter = 5,
    NoEnd = 6,
    BytesAfterEnd = 7,
    NoSuchVertex = 8,
    TooManyPaths = 9,
    WorkTooShort = 10,
    WitnessTooShort = 11,
    InputTooLong = 12,
    JobOverDeadline = 13,
}

impl Refusal {
    // The refusal sheet's number.
    pub fn number(self) -> u8
        ensures { result ≡ refusal_number self }
    {
        self as u8
    }
}

// The refusal, and what is returned with it: a line, a task, the cells or bytes needed, or zero.
#[derive(Clone, Copy, PartialEq, Eq)]
pub struct RefusedAt {
    pub refusal: Refusal,
    pub place: u32,
}

// Meets with C; misses with C and the cells written; unfinished with the budget.
#[derive(Clone, Copy, PartialEq, Eq)]
pub enum Verdict {
    Meets(u32),
    Misses(u32, u32),
    Unfinished(u32),
    Refused(RefusedAt),
}

impl Verdict {
    // The desk's number of a verdict: 0 meets, 1 misses, 2 unfinished, 3 refused.
    pub fn number(self) -> u8
        ensures { result ≡ get_or (verdict_numbers self) 0 0 }
    {
        match self {
            Verdict::Meets(_) => 0,
            Verdict::Misses(_, _) => 1,
            Verdict::Unfinished(_) => 2,
            Verdict::Refused(_) => 3,
        }
    }

    // The count, the budget, or the refusal's number.
    pub fn value(self) -> u32
        ensures { result ≡ get_or (verdict_numbers self) 1 0 }
    {
        match self {
            Verdict::Meets(count) => count,
            Verdict::Misses(count, _) => count,
            Verdict::Unfinished(budget) => budget,
            Verdict::Refused(at) => u32::from(at.refusal.number()),
        }
    }

    // The cells written by a miss, the place of a refusal, else zero.
    pub fn place(self) -> u32
        ensures { result ≡ get_or (verdict_numbers self) 2 0 }
    {
        match self {
            Verdict::Misses(_, cells) => cells,
            Verdict::Refused(at) => at.place,
            Verdict::Meets(_) | Verdict::Unfinished(_) => 0,
        }
    }
}

// "How late is the latest?" Beside a meets, the worst finish and the cells written.
#[derive(Clone, Copy, PartialEq, Eq)]
pub enum Lateness {
    Meets(u32, Ticks, u32),
    Misses(u32, u32),
    Unfinished(u32),
    Refused(RefusedAt),
}

impl Lateness {
    // The cells written by a meets or a miss, the place of a refusal, else zero.
    pub fn place(self) -> u32
        ensures { result ≡ get_or (lateness_numbers self) 2 0 }
    {
        match self {
            Lateness::Meets(_, _, cells) => cells,
            Lateness::Misses(_, cells) => cells,
            Lateness::Unfinished(_) => 0,
            Lateness::Refused(at) => at.place,
        }
    }

    // The worst finish beside a meets, else zero.
    pub fn finish(self) -> u16
        ensures { result ≡ get_or (lateness_numbers self) 3 0 }
    {
        match self {
            Lateness::Meets(_, finish, _) => finish.0,
            Lateness::Misses(_, _) | Lateness::Unfinished(_) | Lateness::Refused(_) => 0,
        }
    }
}

// An answer to "how late is the latest?" as a verdict alone.
impl From<Lateness> for Verdict {
    ghost from_gives = { λ late verdict. verdict ≡ verdict_in late };

    fn from(late: Lateness) -> Verdict {
        match late {
            Lateness::Meets(count, _, _) => Verdict::Meets(count),
            Lateness::Misses(count, cells) => Verdict::Misses(count, cells),
            Lateness::Unfinished(budget) => Verdict::Unfinished(budget),
            Lateness::Refused(at) => Verdict::Refused(at),
        }
    }
}
