// "A range is a run of neighbours in one task's ordered complete paths; its load at t is the largest in it. A range of n paths, n above 1, splits into
// the first n/2 (rounded up) and the rest, and so on down to single paths." "Each task is lent its own stretch" of the work area.
//
// A stretch has a row of d cells for each range of its task's paths, in order: the rows of the first part, then the range's own, then the second part's.
// So the path of place i has row 2i, and the range of len paths from place first on has row 2 first + top_row(len).
#![tactic(auto)]

ghost use Rattle.std.specs.Prelude.{◌≡◌, ◌+◌, ◌≤◌, ◌<◌, length, take, drop};
ghost use Rattle.std.proofs.lemmas.List.Edits.{sets};
ghost use Rattle.meaning.specs.Bounds.{largest_d};
ghost use Rattle.meaning.specs.Paths.{paths_of};
ghost use Rattle.table.specs.Inner.{task_of, HeldTask};
ghost use Rattle.ways.specs.Ways.{most_counted};
ghost use Rattle.ranges.specs.Stretch.{larger_cells, stretch_cells, built, stretch_of};

use kinds::Ticks;
use paths::path_rows;
use rows::{half, top_row};
use table::Task;

// The row at o becomes the larger, cell by cell, of the rows at a and at b.
fn larger_row(part: &mut [u32], o: usize, a: usize, b: usize, d: usize)
    requires { (a + d ≤ o) × (o + d ≤ b) × (b + d ≤ length part.old) }
    ensures { part.new ≡ sets part.old o (larger_cells (take d (drop a part.old)) (take d (drop b part.old))) }
{
    for t in 0..d {
        part[o + t] = part[a + t].max(part[b + t]);
    }
}

// Fills the rows between those of the single paths.
fn build(part: &mut [u32], len: usize, d: usize)
    requires { (0 < len) × (len ≤ most_counted) × (d ≤ largest_d) × (length part.old ≡ stretch_cells d len) }
    ensures { part.new ≡ built d len part.old }
{
    if len == 1 {
        return;
    }
    let c = half(len);
    let o = (2 * c - 1) * d;
    let m = o + d;
    build(&mut part[..o], c, d);
    build(&mut part[m..], len - c, d);
    larger_row(part, o, top_row(c) * d, m + top_row(len - c) * d, d);
}

// A task's stretch for horizon d: the rows of all ranges of its paths.
pub fn fill(part: &mut [u32], t: &Task, paths: usize, d: Ticks)
    requires held_task { HeldTask t.now }
    requires d_nonzero { (0 < d.0) × (d.0 ≤ largest_d) × (paths ≤ most_counted) × (0 < paths) × (paths ≡ length (paths_of (task_of t.now) d.0)) × (length part.old ≡ stretch_cells d.0 paths) }
    ensures { part.new ≡ stretch_of (task_of t.now) d.0 }
{
    path_rows(part, t, d);
    build(part, paths, usize::from(d.0));
}
