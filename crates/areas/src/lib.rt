// "Lent areas": the stretches that the higher tasks are lent of the work area, the cells that become zero, and the cells of a miss.
#![tactic(auto)]

pub mod above;
pub mod stretches;
pub mod witness;

ghost use Rattle.std.specs.Prelude.{◌≡◌, ◌≤◌, length};
ghost use Rattle.meaning.specs.Areas.{zeroed};

// "The needed cells, from the front, are zero and the rest unchanged."
pub fn clear(work: &mut [u32], n: usize)
    requires { n ≤ length work.old }
    ensures { work.new ≡ zeroed n work.old }
{
    work[..n].fill(0);
}
