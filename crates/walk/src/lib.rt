// The walk through groups, on rows of numbers: no tasks and no paths are known here.
//
// "The walk sees a group before its children, the first child's side before the second's. A group that doesn't overload has nothing below it examined. An
// overloading group of single paths is the witness and ends the walk."
// "The walk is written as a step that examines one group, and a run that takes at most as many steps as the budget."
//
// Of each higher task there is a stretch of rows in the work area, and the present group has a part of each.
//
// A group is gone into only if it finishes later than the bar. With the bar at d from the start those are the groups that overload. With the bar at 0,
// raised to each single choice that finishes later, "a group is passed over when its own finish is no later than that of some single choice before it".
#![tactic(auto)]

ghost use Rattle.std.specs.Prelude.{◌≡◌, ◌≤◌, length};
ghost use Rattle.meaning.specs.Bounds.{most_higher};
ghost use Rattle.groups.specs.Groups.{firsts};
ghost use Rattle.groups.specs.Lent.{roots, counts, group_in, Standing};
ghost use Rattle.walk.specs.Lent.{WalkableOver, MovedOn, StepsOver};
ghost use Rattle.walk.specs.Steps.{in_places, run_rows};

use bounds::{MOST_HIGHER, PerTask};
use groups::{Layout, Part};
use overload::finish;

// What examining a group says: there is a next one, it was the last, or it is the witness.
#[derive(Clone, Copy)]
pub(crate) enum Examined {
    Next,
    Last,
    Witness,
}

// Meets or misses with the number of groups examined; unfinished with the budget.
#[derive(Clone, Copy)]
pub enum Ending {
    Meets(u32),
    Misses(u32),
    Unfinished(u32),
}

// On a miss the places of the witness's paths, one for each higher task; else those of the choice that raised the bar, or zeros. On a meets the tick where
// the bar is, else 0. Finish and places stand beside the ending, and not in its cases: places there are in each, and who asks for an ending asks by it alone.
#[derive(Clone, Copy)]
pub struct Walked {
    pub ending: Ending,
    pub finish: u32,
    pub places: PerTask,
}

// The bar: a tick, and the places of the single choice that raised it to its finish, or zeros.
#[derive(Clone, Copy)]
pub(crate) struct Best {
    pub(crate) tick: u32,
    pub(crate) places: PerTask,
}

// What is walked over: the rows of the higher tasks, the work area that they stand in, and the e of the job below them.
#[derive(Clone, Copy)]
pub struct Rows<'a> {
    pub work: &'a [u32],
    pub layout: Layout<'a>,
    pub e: u32,
    pub ghost walkable: { WalkableOver layout.d e layout.stretches.now work.now },
}

// The places of the first paths, and zeros behind them.
fn places_of(group: &[Part]) -> PerTask
    requires { length group.now ≤ most_higher }
    ensures { result ≡ in_places (firsts (group_in group.now)) }
{
    let mut places = [0; MOST_HIGHER];
    for (j, part) in group.iter().enumerate() {
        places[j] = part.first;
    }
    places
}

impl Rows<'_> {
    // On to the next group, with nothing below the present one examined.
    fn onward(&self, group: &mut [Part]) -> Examined
        requires { Standing self.now.layout.d self.now.layout.stretches.now group.old }
        ensures { MovedOn self.now.layout.d self.now.layout.stretches.now group.old result group.new }
    {
        if !self.layout.next_group(group) {
            return Examined::Last;
        }
        Examined::Next
    }

    // One step: the present group is examined, and the parts hold the next. A single choice that finishes later than the bar, and not too late, raises it.
    fn step(&self, group: &mut [Part], best: &mut Best) -> Examined
        requires { Standing self.now.layout.d self.now.layout.stretches.now group.old }
        ensures { StepsOver self.now.layout.d self.now.e self.now.work.now self.now.layout.stretches.now best.old group.old result best.new group.new }
    {
        let t = finish(self.work, group, self.layout.d, self.e);
        if t <= best.tick {
            return self.onward(group);
        }
        if self.layout.first_child(group) {
            return Examined::Next;
        }
        if (self.layout.d as u32) < t {
            return Examined::Witness;
        }
        let places = places_of(group);
        *best = Best { tick: t, places };
        self.onward(group)
    }

    // At most as many steps as the budget, from the top group on, and with the bar here.
    pub fn run(&self, from: u32, budget: u32) -> Walked
        ensures { result ≡ run_rows self.now.work.now self.now.layout.d self.now.e (roots self.now.layout.stretches.now) (counts self.now.layout.stretches.now) from budget }
    {
        let mut parts = [Part {
            base: 0,
            first: 0,
            len: 0,
        }; MOST_HIGHER];
        let group = &mut parts[..self.layout.stretches.len()];
        let mut best = Best {
            tick: from,
            places: [0; MOST_HIGHER],
        };
        self.layout.top_group(group);
        for n in 0..budget {
            let told = self.step(group, &mut best);
            let examined = n + 1;
            match told {
                Examined::Witness => {
                    return Walked {
                        ending: Ending::Misses(examined),
                        finish: 0,
                        places: places_of(group),
                    };
                }
                Examined::Last => {
                    return Walked {
                        ending: Ending::Meets(examined),
                        finish: best.tick,
                        places: best.places,
                    };
                }
                Examined::Next => {}
            }
        }
        Walked {
            ending: Ending::Unfinished(budget),
            finish: 0,
            places: best.places,
        }
    }
}
