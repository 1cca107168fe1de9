// The loads of a row in a stretch, that at t in the row's cell t - 1.
ghost use Rattle.std.specs.Prelude.{◌≡◌, ◌+◌, ◌≤◌, length, replicate};
ghost use Rattle.std.proofs.lemmas.List.Edits.{sets};
ghost use Rattle.loads.specs.Rows.{Apart, Copied};

use kinds::Ticks;

// The load is x at each of the n ticks behind a release, of which the first has the cell `at`: that at the t-th is t - 1 cells on.
pub(crate) fn fill_run(part: &mut [u32], at: usize, n: Ticks, x: u32)
    requires { at + n.0 ≤ length part.old }
    ensures { part.new ≡ sets part.old at (replicate n.0 x) }
{
    // A `for`: with the slice's `fill` the rows of `tables/vendor_ring.table`, whose runs are short, take a third more instructions.
    let end = at + usize::from(n.0);
    for cell in at..end {
        part[cell] = x;
    }
}

// The loads at t up to `span` of the row from `row` on go to the row from `to` on, which is behind them or is the same.
pub(crate) fn copy_front(part: &mut [u32], row: usize, to: usize, span: Ticks)
    requires { Apart row span.0 to × (to + span.0 ≤ length part.old) }
    ensures { Copied part.old row span.0 to part.new }
{
    if to != row {
        part.copy_within(row..row + usize::from(span.0), to);
    }
}
