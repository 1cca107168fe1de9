// "The configurator builds tables in memory and needs them as text."
//
// The text is a table's record, whatever it holds, in a fixed layout, numbers with the high byte first: n (2 bytes), then eight tasks, each m (2), nv (2),
// ne (2), twelve vertices of e (2) and d (2), and 32 edges of from (1), to (1) and p (2). Behind a text that ends early stand zeros. It is written into a
// marked area, as writing.rt has it.
ghost use Rattle.std.specs.Prelude.{◌+◌, ◌≤◌, ◌<◌};
ghost use Rattle.meaning.specs.Bounds.{most_vertices, most_edges, most_tasks};
ghost use Rattle.cases.specs.Layout.{place_bytes, task_bytes, record_bytes};

use bounds::{MOST_EDGES, MOST_TASKS, MOST_VERTICES};
use kinds::{Ticks, VertexNumber};
use sequences::Header;
use std::array;
use table::{Edge, Table, Task, Vertex};

const COUNT_BYTES: usize = 2;

// A task's m and counts.
const OWN_BYTES: usize = 6;

// A vertex, and an edge.
const PLACE_BYTES: usize = 4;

const TASK_BYTES: usize = OWN_BYTES + PLACE_BYTES * MOST_VERTICES + PLACE_BYTES * MOST_EDGES;

fn byte_at(text: &[u8], at: usize) -> u8 {
    text.get(at).copied().unwrap_or(0)
}

// The number in the 2 bytes at a place.
fn two_at(text: &[u8], at: usize) -> u16
    requires { at < record_bytes }
{
    u16::from_be_bytes([byte_at(text, at), byte_at(text, at + 1)])
}

fn vertex_at(text: &[u8], at: usize) -> Vertex
    requires { at + place_bytes ≤ record_bytes }
{
    Vertex {
        e: Ticks(two_at(text, at)),
        d: Ticks(two_at(text, at + 2)),
    }
}

fn edge_at(text: &[u8], at: usize) -> Edge
    requires { at + place_bytes ≤ record_bytes }
{
    Edge {
        from: VertexNumber(byte_at(text, at)),
        to: VertexNumber(byte_at(text, at + 1)),
        p: Ticks(two_at(text, at + 2)),
    }
}

fn task_at(text: &[u8], at: usize) -> Task
    requires { at + task_bytes ≤ record_bytes }
{
    let m = Ticks(two_at(text, at));
    let nv = two_at(text, at + 2);
    let ne = two_at(text, at + 4);
    let from = at + OWN_BYTES;
    let vertices: [Vertex; MOST_VERTICES] = array::from_fn(|i: usize| vertex_at(
        text,
        from + PLACE_BYTES * i,
    ));
    let behind = from + PLACE_BYTES * MOST_VERTICES;
    let edges: [Edge; MOST_EDGES] = array::from_fn(|i: usize| edge_at(
        text,
        behind + PLACE_BYTES * i,
    ));
    table::task_of(m, nv, ne, vertices, edges)
}

fn table_in(text: &[u8]) -> Table {
    Table {
        n: usize::from(two_at(text, 0)),
        tasks: array::from_fn(|i: usize| task_at(text, COUNT_BYTES + TASK_BYTES * i)),
    }
}

pub(crate) fn print(header: &Header, text: &[u8]) {
    crate::writing::print(header, &table_in(text), 1);
}
