// A list of cells, read one after the other: a task's parts, each from its cells.
ghost use Rattle.std.specs.Prelude.{◌≡◌, ℕ, ◌+◌, ◌*◌, ◌≤◌, min, List, length};
ghost use Rattle.std.proofs.Common.{lit≤};
ghost use Rattle.meaning.specs.Bounds.{most_edges};
ghost use Rattle.table.specs.Inner.{vertex_cells, edge_cells};
ghost use Rattle.cells.specs.Cells.{cell_at};
ghost use Rattle.cells.specs.Inner.{Near};
ghost use Rattle.cells.specs.Parts.{Passed, Filled};

use kinds::{Ticks, VertexNumber, narrow};
use table::{Edge, Vertex};

// The list, and the place of the next cell; behind the list stand zeros.
#[derive(Drop)]
pub(crate) struct Cursor<'a> {
    pub(crate) list: &'a [u16],
    pub(crate) at: usize,
}

// A part of a task, of two or three cells.
pub(crate) trait Part: Copy {
    ghost width: { ℕ };

    ghost made: { List ℕ → ℕ → Self };

    fn read(cells: &mut Cursor) -> Self
        requires { Near cells.old.list.now (cells.old.at + 2) }
        ensures made { result ≡ made cells.old.list.now cells.old.at }
        ensures passed { Passed width cells.old cells.new };

    ghost narrow: { width ≤ 3 };
}

impl Part for Vertex {
    ghost width = { 2 };

    ghost made = { λ cells at. vertex_cells (cell_at cells at) (cell_at cells (at + 1)) };

    ghost narrow = { lit≤ tt };

    fn read(cells: &mut Cursor) -> Vertex {
        let e = Ticks(cells.next());
        let d = Ticks(cells.next());
        Vertex { e, d }
    }
}

// A vertex number of 16 bits: 255 stands for every number above it, since no task has so many vertices.
impl Part for Edge {
    ghost width = { 3 };

    ghost made = { λ cells at. edge_cells (min (cell_at cells at) 255) (min (cell_at cells (at + 1)) 255) (cell_at cells (at + 2)) };

    ghost narrow = { lit≤ tt };

    fn read(cells: &mut Cursor) -> Edge {
        let from = VertexNumber(narrow(u32::from(cells.next())));
        let to = VertexNumber(narrow(u32::from(cells.next())));
        let p = Ticks(cells.next());
        Edge { from, to, p }
    }
}

impl<'a> Cursor<'a> {
    pub(crate) fn next(&mut self) -> u16
        requires { Near self.old.list.now self.old.at }
        ensures cell { result ≡ cell_at self.old.list.now self.old.at }
        ensures passed { Passed 1 self.old self.new }
    {
        let cell = self.list.get(self.at).copied().unwrap_or(0);
        self.at += 1;
        cell
    }

    // The first n parts, or as many as there is room for.
    pub(crate) fn fill<T: Part>(&mut self, parts: &mut [T], n: usize)
        requires { (length parts.old ≤ most_edges) × Near self.old.list.now (self.old.at + 3 * most_edges) }
        ensures filled { Filled T.width T.made self.old.list.now self.old.at n parts.old parts.new }
        ensures passed { Passed (T.width * min n (length parts.old)) self.old self.new }
    {
        for i in 0..n.min(parts.len()) {
            parts[i] = T::read(self);
        }
    }
}
