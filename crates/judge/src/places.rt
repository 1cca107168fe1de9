// "For each vertex, in rising order of task and then vertex": a loop over a table's vertices.
ghost use Rattle.std.specs.Prelude.{◌≡◌};
ghost use Rattle.std.specs.Iterator.{YieldsFirstBy, item_count};
ghost use Rattle.meaning.specs.Whole.{places};
ghost use Rattle.table.specs.Inner.{table_of, Held};
ghost use Rattle.counts.specs.Place.{meant_place};

use counts::places::Place;
use std::marker::Model;
use table::Table;

// The vertices of a table, seen as the list of those that are still to come.
#[derive(Drop)]
pub struct Places<'a> {
    table: &'a Table,
    at: Place,
}

impl<'a> Model for Places<'a> {
    ghost use Rattle.std.specs.Prelude.{List};
    ghost use Rattle.meaning.specs.Whole as Meant;

    ghost Value = { List Meant.Place };

    ghost use Rattle.table.specs.Inner.{table_of};
    ghost use Rattle.counts.specs.Place.{meant_place};
    ghost use Rattle.judge.specs.Places.{remaining, Reached};

    ghost view = { λ s. remaining (table_of s.table.now) (meant_place s.at) };

    ghost invariant = { λ s. Reached s.table.now (meant_place s.at) };
}

impl<'a> Places<'a> {
    pub fn of(table: &'a Table) -> Places<'a>
        requires { Held table.now }
        ensures { result ≡ places (table_of table.now) }
    {
        Places {
            table,
            at: Place::first(),
        }
    }
}

impl<'a> Iterator for Places<'a> {
    type Item = Place;

    ghost next_gives = { YieldsFirstBy meant_place (λ rest. rest) };

    ghost remaining = { item_count (λ rest. rest) };

    fn next(&mut self) -> Option<Place> {
        let here = self.at;
        // `as`: the proofs read the number itself, and `From`'s through an equation.
        let task = here.task.0 as usize;
        if self.table.n <= task {
            return None;
        }
        self.at = here.next(self.table.tasks[task].nv);
        Some(here)
    }
}
