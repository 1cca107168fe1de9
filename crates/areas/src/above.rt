// The tasks of higher priority: how many paths each has, and where its stretch of the work area begins.
ghost use Rattle.std.specs.Prelude.{◌≡◌, ◌≤◌, ◌<◌};
ghost use Rattle.meaning.specs.Bounds.{most_higher, most_paths, largest_d};
ghost use Rattle.areas.specs.Above.{none_above, with_paths, Counted};

use bounds::MOST_HIGHER;
use groups::Stretch;
use kinds::Ticks;

// Of the tasks counted so far: their stretches, zeros behind them; and how many rows they have in all.
#[derive(Clone, Copy)]
pub struct Above {
    pub stretches: [Stretch; MOST_HIGHER],
    pub rows: usize,
}

pub fn none_above() -> Above
    ensures { result ≡ none_above }
{
    Above {
        stretches: [Stretch { root: 0, count: 0 }; MOST_HIGHER],
        rows: 0,
    }
}

// With the paths of task j, for deadline d.
pub fn with_paths(above: Above, j: usize, paths: usize, d: Ticks) -> Above
    requires counted { Counted j above × (j < most_higher) }
    requires paths_nonzero { (0 < paths) × (paths ≤ most_paths) × (d.0 ≤ largest_d) }
    ensures { result ≡ with_paths above j paths d.0 }
{
    let mut next = above;
    next.stretches[j] = Stretch {
        root: above.rows * usize::from(d.0),
        count: paths,
    };
    next.rows = above.rows + (2 * paths - 1);
    next
}
