// "For each vertex, in rising order of task and then vertex."
ghost use Rattle.std.specs.Prelude.{◌≡◌, ◌+◌};
ghost use Rattle.counts.specs.Place.{meant_place, first_place, next_place, Within};

use kinds::{TaskNumber, VertexNumber};

#[derive(Clone, Copy, PartialEq, Eq)]
pub struct Place {
    pub task: TaskNumber,
    pub vertex: VertexNumber,
}

impl Place {
    pub fn first() -> Place
        ensures { meant_place result ≡ first_place }
    {
        Place {
            task: TaskNumber(0),
            vertex: VertexNumber(0),
        }
    }

    // Where the present task has `size` vertices: its next one, else the next task's first.
    pub fn next(self, size: u16) -> Place
        requires { Within (meant_place self) }
        ensures { meant_place result ≡ next_place size (meant_place self) }
    {
        let next = self.vertex.0 + 1;
        // `as` here and below: the proofs read the number itself, and `From`'s through an equation.
        if (next as u16) < size {
            return Place {
                task: self.task,
                vertex: VertexNumber(next),
            };
        }
        Place {
            task: TaskNumber(self.task.0 + 1),
            vertex: VertexNumber(0),
        }
    }
}

// The first of the tasks of lower priority.
pub fn first_lower(task: TaskNumber) -> usize
    ensures { result ≡ task.0 + 1 }
{
    task.0 as usize + 1
}
