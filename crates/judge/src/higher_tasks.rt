// "For a vertex judged under the tasks of higher priority": how many paths each of these has, their stretches of the work area, and a miss's paths.
ghost use Rattle.std.specs.Prelude.{◌≡◌, ℕ, ◌+◌, ◌*◌, ◌≤◌, ◌<◌, length, get_or, MatchResult};
ghost use Rattle.meaning.specs.Bounds.{largest_d};
ghost use Rattle.meaning.specs.Table.{higher};
ghost use Rattle.meaning.specs.Verdict.{cells_of};
ghost use Rattle.meaning.specs.Areas.{Wrote, written};
ghost use Rattle.table.specs.Inner.{table_of, Held};
ghost use Rattle.ways.specs.Ways.{most_counted};
ghost use Rattle.areas.specs.Stretches.{stretches};
ghost use Rattle.areas.specs.Witness.{paths_at};
ghost use Rattle.judge.specs.Inner.{AllCounted, Crowded};

use areas::above::{Above, none_above, with_paths};
use areas::stretches::fill_stretch;
use areas::witness::write_place;
use bounds::MOST_PATHS;
use kinds::{TaskNumber, Ticks};
use paths::path_count;
use table::Table;

// How many paths each of the first h tasks has, or the first of them that has too many.
pub(crate) fn count_paths(t: &Table, h: usize, d: Ticks) -> Result<Above, TaskNumber>
    requires { Held t.now × (h < t.now.n) × (0 < d.0) × (d.0 ≤ largest_d) }
    ensures { MatchResult result (AllCounted (higher (table_of t.now) h) d.0) (λ j. Crowded (higher (table_of t.now) h) d.0 j.0) }
{
    let mut above = none_above();
    for (j, next) in t.tasks[..h].iter().enumerate() {
        let paths = path_count(next, d, MOST_PATHS + 1);
        if MOST_PATHS < paths {
            return Err(TaskNumber(j as u8));
        }
        above = with_paths(above, j, paths, d);
    }
    Ok(above)
}

// "Each task is lent its own stretch", filled with its ranges' loads.
pub(crate) fn fill_stretches(t: &Table, h: usize, d: Ticks, above: &Above, work: &mut [u32])
    requires held { Held t.now × (h < t.now.n) × (0 < d.0) × (d.0 ≤ largest_d) }
    requires counted { AllCounted (higher (table_of t.now) h) d.0 above.now × (above.now.rows * d.0 ≤ length work.old) }
    ensures { work.new ≡ written (stretches (higher (table_of t.now) h) d.0) work.old }
{
    for (k, next) in t.tasks[..h].iter().enumerate() {
        let stretch = above.stretches[k];
        fill_stretch(work, stretch.root, next, stretch.count, d);
    }
}

// A path of each of the first tasks, at these places of their lists; gives the cells written.
pub(crate) fn write_paths(t: &Table, places: &[usize], d: Ticks, witness: &mut [u16]) -> usize
    requires held { Held t.now × (length places.now < t.now.n) × (0 < d.0) × (d.0 ≤ largest_d) }
    requires counted { (j : ℕ) → j < length places.now → get_or places.now j 0 ≤ most_counted }
    requires room { length places.now * (1 + d.0) ≤ length witness.old }
    ensures { Wrote (cells_of (paths_at (higher (table_of t.now) (length places.now)) d.0 places.now)) witness.old 0 witness.new result
        × (result ≤ length places.now * (1 + d.0)) }
{
    let mut cells = 0;
    for (next, place) in t.tasks.iter().zip(places) {
        cells = write_place(witness, cells, next, d, *place);
    }
    cells
}
