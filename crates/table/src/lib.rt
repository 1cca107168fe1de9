// What the tool judges, by value: "A table holds tasks in priority order; task 0 is highest."
// A list is an array with its length beside it, since nothing here is on a heap, and a record may say any length (the writer refuses it then). In what was
// read the places behind the length hold zeros.
#![tactic(auto)]

ghost use Rattle.std.specs.Prelude.{◌≡◌, length};
ghost use Rattle.table.specs.Record.{task_cells, no_vertex, no_edge, no_task};
ghost use Rattle.table.specs.Inner.{largest_of, no_table};

use bounds::{MOST_EDGES, MOST_TASKS, MOST_VERTICES};
use kinds::{Ticks, VertexNumber};

#[derive(Clone, Copy, PartialEq, Eq)]
pub struct Vertex {
    pub e: Ticks,
    pub d: Ticks,
}

#[derive(Clone, Copy, PartialEq, Eq)]
pub struct Edge {
    pub from: VertexNumber,
    pub to: VertexNumber,
    pub p: Ticks,
}

// nv vertices and ne edges, with the masked length m.
#[derive(Clone, Copy, PartialEq, Eq)]
pub struct Task {
    pub m: Ticks,
    pub nv: u16,
    pub ne: u16,
    pub vertices: [Vertex; MOST_VERTICES],
    pub edges: [Edge; MOST_EDGES],
}

// n tasks.
#[derive(Clone, Copy, PartialEq, Eq)]
pub struct Table {
    pub n: usize,
    pub tasks: [Task; MOST_TASKS],
}

pub fn no_vertex() -> Vertex
    ensures { result ≡ no_vertex }
{
    Vertex {
        e: Ticks(0),
        d: Ticks(0),
    }
}

pub fn no_edge() -> Edge
    ensures { result ≡ no_edge }
{
    Edge {
        from: VertexNumber(0),
        to: VertexNumber(0),
        p: Ticks(0),
    }
}

// A task from its parts.
pub fn task_of(
    m: Ticks,
    nv: u16,
    ne: u16,
    vertices: [Vertex; MOST_VERTICES],
    edges: [Edge; MOST_EDGES],
) -> Task
    ensures { result ≡ task_cells m nv ne vertices edges }
{
    Task {
        m,
        nv,
        ne,
        vertices,
        edges,
    }
}

pub fn no_task() -> Task
    ensures { result ≡ no_task }
{
    let x = no_vertex();
    let y = no_edge();
    task_of(Ticks(0), 0, 0, [x; MOST_VERTICES], [y; MOST_EDGES])
}

// The largest e of some vertices.
pub fn largest_e(vertices: &[Vertex]) -> Ticks
    ensures { result.0 ≡ largest_of (length vertices.now) vertices.now }
{
    let mut largest = Ticks(0);
    for x in vertices {
        largest = kinds::longer(largest, x.e);
    }
    largest
}

pub fn no_table() -> Table
    ensures { result ≡ no_table }
{
    let k = no_task();
    Table {
        n: 0,
        tasks: [k; MOST_TASKS],
    }
}
