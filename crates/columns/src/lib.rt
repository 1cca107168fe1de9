// A task as columns of numbers: the execution times, and the edges' ends and separations, which stand in order of the vertex they start from, with the
// place of each vertex's first, so that who goes along edges looks for none.
#![tactic(auto)]

ghost use Rattle.std.specs.Prelude.{◌≡◌, ◌+◌, ◌≤◌, ◌<◌, map, length, replicate, get_or};
ghost use Rattle.std.proofs.lemmas.List.Edits.{sets};
ghost use Rattle.meaning.specs.Bounds.{most_vertices, most_edges};
ghost use Rattle.table.specs.Inner.{task_of, HeldTask};
ghost use Rattle.columns.specs.Columns.{widest, EdgesEnd, Sorted, Cuts, execution_in, SoundColumns, ColumnsOf};

use bounds::{MOST_EDGES, MOST_VERTICES};
use kinds::{Ticks, VertexNumber};
use table::{Task, Vertex};

// The edges out of v are those from start[v] up to start[v + 1]; each leads to `to` and has separation `p`.
// Two arrays, and not one of `Out`: `ways`, which the contracts cite, takes them as lists of numbers, and each contract would have to map both out of one.
// There are n vertices.
#[derive(Clone, Copy)]
pub struct Columns {
    pub e: [u16; MOST_VERTICES],
    pub start: [u8; MOST_VERTICES + 1],
    pub to: [u8; MOST_EDGES],
    pub p: [u16; MOST_EDGES],
    pub n: u8,
    pub ghost sound: { SoundColumns start to p },
    pub ghost few: { n ≤ most_vertices },
}

// A vertex that a task may have.
#[derive(Clone, Copy)]
pub struct TaskVertex {
    pub number: VertexNumber,
    pub ghost own: { number.0 < most_vertices },
}

// Where an edge leads, and its separation.
#[derive(Clone, Copy)]
pub struct Out {
    pub to: TaskVertex,
    pub p: Ticks,
}

impl Columns {
    ghost use Rattle.columns.specs.Only.{Only};

    // The place of v's first edge.
    pub fn first(&self, v: TaskVertex) -> usize
        ensures { result ≡ get_or self.now.start v.number.0 0 }
    {
        usize::from(self.start[usize::from(v.number.0)])
    }

    // The place behind v's last edge.
    pub fn end(&self, v: TaskVertex) -> usize
        ensures { result ≡ get_or self.now.start (v.number.0 + 1) 0 }
    {
        usize::from(self.start[usize::from(v.number.0) + 1])
    }

    // The edge at place k.
    pub fn edge(&self, k: usize) -> Out
        requires { k < get_or self.now.start most_vertices 0 }
        ensures { (result.to.number.0 ≡ get_or self.now.to k 0) × (result.p.0 ≡ get_or self.now.p k 0) }
    {
        let to = TaskVertex {
            number: VertexNumber(self.to[k]),
        };
        Out {
            to,
            p: Ticks(self.p[k]),
        }
    }

    // The edge out of v, where no other leaves it and it takes less than the room.
    pub fn only_edge(&self, v: TaskVertex, room: Ticks) -> Option<Out>
        ensures { Only self.now.start self.now.to self.now.p v.number.0 room.0 result }
    {
        let k = self.first(v);
        if self.end(v) != k + 1 {
            return None;
        }
        let edge = self.edge(k);
        (edge.p.0 < room.0).then_some(edge)
    }

    pub fn execution(&self, v: TaskVertex) -> u32
        ensures { (result ≡ get_or self.now.e v.number.0 0) × (result ≤ widest) }
    {
        u32::from(self.e[usize::from(v.number.0)])
    }
}

// The first edge from k on, up to m, that does not leave v.
fn edges_end(from: &[u8; MOST_EDGES], k: usize, m: usize, v: usize) -> usize
    requires { (k ≤ m) × (m ≤ most_edges) }
    ensures { EdgesEnd from.now k m v result }
{
    for i in k..m {
        if usize::from(from[i]) != v {
            return i;
        }
    }
    m
}

// Where each vertex's edges start.
fn edge_starts(from: &[u8; MOST_EDGES], m: usize) -> [u8; MOST_VERTICES + 1]
    requires { (m ≤ most_edges) × Sorted from.now m }
    ensures { Cuts from.now m result }
{
    let mut s = [0u8; MOST_VERTICES + 1];
    let mut k: usize = 0;
    for v in 0..MOST_VERTICES {
        k = edges_end(from, k, m, v);
        s[v + 1] = k as u8;
    }
    s
}

// The execution times of the vertices, zeros behind them.
fn executions(vertices: &[Vertex]) -> [u16; MOST_VERTICES]
    requires { length vertices.now ≤ most_vertices }
    ensures { result ≡ sets (replicate most_vertices 0) 0 (map execution_in vertices.now) }
{
    let mut e = [0u16; MOST_VERTICES];
    for (v, vertex) in vertices.iter().enumerate() {
        e[v] = vertex.e.0;
    }
    e
}

pub fn columns_of(t: &Task) -> Columns
    requires { HeldTask t.now }
    ensures says { ColumnsOf (task_of t.now) result.e result.start result.to result.p }
    ensures all { result.n ≡ t.now.nv }
{
    let links = usize::from(t.ne);
    let mut from = [0u8; MOST_EDGES];
    let mut to = [0u8; MOST_EDGES];
    let mut p = [0u16; MOST_EDGES];
    for (k, edge) in t.edges[..links].iter().enumerate() {
        from[k] = edge.from.0;
        to[k] = edge.to.0;
        p[k] = edge.p.0;
    }
    let start = edge_starts(&from, links);
    let e = executions(&t.vertices[..usize::from(t.nv)]);
    let n = t.nv as u8;
    Columns { e, start, to, p, n }
}
