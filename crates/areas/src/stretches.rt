// "Each task is lent its own stretch" of the work area, filled with its ranges' loads.
ghost use Rattle.std.specs.Prelude.{◌≡◌, ◌+◌, ◌≤◌, ◌<◌, length};
ghost use Rattle.std.proofs.lemmas.List.Edits.{sets};
ghost use Rattle.meaning.specs.Bounds.{most_paths, largest_d};
ghost use Rattle.meaning.specs.Paths.{paths_of};
ghost use Rattle.table.specs.Inner.{task_of, HeldTask};
ghost use Rattle.ranges.specs.Stretch.{stretch_cells, stretch_of};

use kinds::Ticks;
use table::Task;

// The stretch of a task with so many paths, which begins at `from`.
pub fn fill_stretch(work: &mut [u32], from: usize, t: &Task, paths: usize, d: Ticks)
    requires held_task { HeldTask t.now × (paths ≡ length (paths_of (task_of t.now) d.0)) × (paths ≤ most_paths) }
    requires d_nonzero { (0 < d.0) × (d.0 ≤ largest_d) × (from + stretch_cells d.0 paths ≤ length work.old) }
    ensures { work.new ≡ sets work.old from (stretch_of (task_of t.now) d.0) }
{
    let to = from + (2 * paths - 1) * usize::from(d.0);
    ranges::fill(&mut work[from..to], t, paths, d);
}
