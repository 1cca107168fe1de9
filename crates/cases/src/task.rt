// One task's lines: how many paths it has, at most MOST_LISTED; the first of them; and where it has at most MOST_PATHS, the sum of the cells of its stretch,
// the loads of all its ranges, each times its place, from 1, so that rows in another order give another sum.
ghost use Rattle.std.specs.Prelude.{◌*◌, ◌≤◌, ◌<◌, length};
ghost use Rattle.meaning.specs.Bounds.{largest_d};
ghost use Rattle.meaning.specs.Paths.{paths_of};
ghost use Rattle.table.specs.Inner.{task_of, HeldTask};
ghost use Rattle.cases.specs.Listing.{Listing, stretch_room};

use crate::print::{end_line, print_number};
use bounds::MOST_PATHS;
use kinds::Ticks;
use lister::Path;
use paths::{path_at, path_count};
use table::Task;

// So many paths are counted.
const MOST_LISTED: usize = 4 * MOST_PATHS + 1;

// So many are written.
const MOST_WRITTEN: usize = 8;

fn print_path(p: &Path) {
    for (i, vertex) in p.vertices.iter().take(p.len).enumerate() {
        print_number(u64::from(*vertex), i);
    }
    end_line();
}

// The sum doesn't get to where it stops: at most 127,000 loads of at most 1,000,000, each times at most 127,000.
fn weigh(cells: &[u32]) -> u64
    requires { length cells.now ≤ stretch_room }
{
    let mut total: u64 = 0;
    for (i, load) in cells.iter().enumerate() {
        total = total.saturating_add(u64::from(*load) * (i as u64 + 1));
    }
    total
}

// The task's stretch, from the front of the area; gives its number of cells.
fn fill_stretch(work: &mut [u32], t: &Task, n: usize, d: Ticks) -> usize
    requires { Listing t.now n d.0 work.old }
    ensures { result ≤ stretch_room }
{
    let need = (2 * n - 1) * (d.0 as usize);
    ranges::fill(&mut work[..need], t, n, d);
    need
}

fn print_loads(work: &mut [u32], t: &Task, n: usize, d: Ticks)
    requires { Listing t.now n d.0 work.old }
{
    let need = fill_stretch(work, t, n, d);
    print_number(weigh(&work[..need]), 0);
    end_line();
}

fn print_first(t: &Task, n: usize, d: Ticks)
    requires held_task { HeldTask t.now }
    requires d_nonzero { (0 < d.0) × (d.0 ≤ largest_d) }
{
    for i in 0..n.min(MOST_WRITTEN) {
        print_path(&path_at(t, d, i));
    }
}

pub(crate) fn list_task(work: &mut [u32], t: &Task, d: Ticks)
    requires held_task { HeldTask t.now × (0 < length (paths_of (task_of t.now) d.0)) }
    requires d_nonzero { (0 < d.0) × (d.0 ≤ largest_d) × (stretch_room ≤ length work.old) }
{
    let n = path_count(t, d, MOST_LISTED);
    print_number(n as u64, 0);
    end_line();
    print_first(t, n, d);
    if n <= MOST_PATHS {
        print_loads(work, t, n, d);
    }
}
