// The overload test: "for every t from 1 to d, e plus the loads at t exceeds t". And the finish, "the first t from 1 to d at which e plus the loads is at
// most t": a group that overloads finishes later than d. "Loads never fall as t grows, so when the sum at t is s, nothing before s can be free. Jump there."
//
// A group's loads stand in the work area, a row of d cells for each part of the group: the cell of tick t is t - 1 places behind the row's start (`base`).
// That they never fall along a row is asked of whoever lends them (`LightRows`).
#![tactic(auto)]

ghost use Rattle.std.specs.Prelude.{◌≡◌, ◌-◌, ◌*◌, ◌≤◌};
ghost use Rattle.meaning.specs.Bounds.{most_higher};
ghost use Rattle.groups.specs.Lent.{starts_in};
ghost use Rattle.overload.specs.Rows.{light, loads_at, rows_finish, LightRows};

use bounds::MOST_HIGHER;
use groups::Part;

// The loads at a tick, together.
fn loads_at(work: &[u32], group: &[Part], d: usize, tick: u32) -> u32
    requires { (1 ≤ tick) × (tick ≤ d) × LightRows d (starts_in group.now) work.now }
    ensures { (result ≡ loads_at work.now (starts_in group.now) (tick - 1)) × (result ≤ most_higher * light) }
{
    // Without parts the work area may end before the tick.
    if group.is_empty() {
        return 0;
    }
    // A slice: with `work[.. + cell]` in the loop tables/heavy.table takes 29.6 million instructions, not 23.9.
    let cells = &work[tick as usize - 1..];
    let mut total: u32 = 0;
    // As many steps as a group can have parts: the compiler unrolls them. Over the parts alone, tables/heavy.table takes 34.4 million instructions, not 23.9.
    for j in 0..MOST_HIGHER {
        if j < group.len() {
            total += cells[group[j].base];
        }
    }
    total
}

// Looks at tick 1, and from a tick that isn't free goes on at the sum there, e plus the loads. Gives the first free tick, where the sum is at most the
// tick; d + 1 where there is none.
pub fn finish(work: &[u32], group: &[Part], d: usize, e: u32) -> u32
    requires { (e ≤ light) × LightRows d (starts_in group.now) work.now }
    ensures { result ≡ rows_finish work.now d e (starts_in group.now) }
{
    let last = d as u32;
    let mut tick: u32 = 1;
    // A `while`: the tick jumps, and is no counted index.
    while tick <= last {
        let loads = loads_at(work, group, d, tick);
        let sum = e + loads;
        if sum <= tick {
            return tick;
        }
        tick = sum;
    }
    last + 1
}
