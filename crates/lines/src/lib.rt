// "A task frame is followed by its vertices, numbered from 0, then its edges in strictly rising order of (from, to)." "m may not exceed its task's
// largest e: refusal 3 at the last vertex's line, after that line's own checks."
//
// "A ring is frame 05 with a count (1 to 12) and that many frames 06 e d p: a cycle in which each vertex leads to the next and the last to the first."
// "A gear table is frame 07 with a count and frames 06: each vertex leads only to itself." "Both are read as the plain task they stand for, m = 0."
//
// The lines of a task: those of its vertices, then those of its edges, or those of a ring's or a gear table's vertices; each until the first that is
// refused.
#![tactic(auto)]

ghost use Rattle.std.specs.Prelude.{◌≡◌, ◌≤◌, ◌<◌, length, drop, IfErr};
ghost use Rattle.meaning.specs.Bounds.{most_vertices, most_edges};
ghost use Rattle.table.specs.Record.{no_task};
ghost use Rattle.table.specs.Inner.{edge_cells};
ghost use Rattle.frames.specs.Frames.{form_to};
ghost use Rattle.lines.specs.Parts.{behind, vertex_lines, edge_lines, plain_lines, link_lines, task_lines, filled, taken_with};

use bounds::{MOST_EDGES, MOST_VERTICES};
use digits::Digits;
use frames::{Form, Head, LINK_BYTES, PART_BYTES, edge_line, link_line, vertex_line};
use kinds::{Refusal, Ticks, VertexNumber};
use rules::{least_after, mask_covered};
use table::{Edge, Task, Vertex};

// The refusal of the first line that was not taken, behind `count` of the task's that were.
#[derive(Clone, Copy, PartialEq, Eq)]
pub struct Stopped {
    pub refusal: Refusal,
    pub count: usize,
}

// The lines after a task's own, and their bytes.
#[derive(Clone, Copy)]
pub struct TaskLines {
    pub count: usize,
    pub bytes: usize,
}

// What a line gives, behind `count` of the task's.
fn behind<T>(count: usize, line: Result<T, Refusal>) -> Result<T, Stopped>
    ensures { result ≡ behind count line }
{
    match line {
        Ok(taken) => Ok(taken),
        Err(refusal) => Err(Stopped { refusal, count }),
    }
}

// The lines of n vertices. Three loops and no common one: an edge's line is held to the vertices and the edge before it, a vertex's of a ring or a gear
// table fills two lists, so that a step given to a common loop would hold all that the loop does.
fn read_vertices(
    digits: &Digits,
    text: &[u8],
    from: usize,
    n: usize,
    vertices: &mut [Vertex; MOST_VERTICES],
) -> Result<(), Stopped>
    requires { (from ≤ length text.now) × (n ≤ most_vertices) }
    ensures { filled result vertices.new ≡ vertex_lines n (drop from text.now) }
{
    let none = table::no_vertex();
    *vertices = [none; MOST_VERTICES];
    for i in 0..n {
        let line = vertex_line(digits, &text[from + i * PART_BYTES..]);
        vertices[i] = behind(i, line)?;
    }
    Ok(())
}

// The lines of m edges, in a task of n vertices, whose lines are before them.
fn read_edges(
    digits: &Digits,
    text: &[u8],
    from: usize,
    n: usize,
    vertices: &[Vertex; MOST_VERTICES],
    m: usize,
    edges: &mut [Edge; MOST_EDGES],
) -> Result<(), Stopped>
    requires { (from ≤ length text.now) × (n ≤ most_vertices) × (m ≤ most_edges) }
    ensures { filled result edges.new ≡ edge_lines n vertices.now m (drop from text.now) }
{
    let none = table::no_edge();
    *edges = [none; MOST_EDGES];
    let mut least = 0;
    for i in 0..m {
        let line = edge_line(digits, &text[from + i * PART_BYTES..], n, vertices, least);
        let edge = behind(n + i, line)?;
        least = least_after(edge.from.0, edge.to.0);
        edges[i] = edge;
    }
    Ok(())
}

// The lines of v vertices and e edges, in a task with the masked length m.
fn read_plain(
    digits: &Digits,
    text: &[u8],
    from: usize,
    v: usize,
    e: usize,
    m: Ticks,
    task: &mut Task,
) -> Result<TaskLines, Stopped>
    requires { (from ≤ length text.now) × (1 ≤ v) × (v ≤ most_vertices) × (e ≤ most_edges) }
    ensures { taken_with result task.new ≡ plain_lines v e m (drop from text.now) }
{
    read_vertices(digits, text, from, v, &mut task.vertices)?;
    let largest = table::largest_e(&task.vertices[..v]);
    if !mask_covered(u32::from(m.0), u32::from(largest.0)) {
        return Err(Stopped {
            refusal: Refusal::OutOfBounds,
            count: v - 1,
        });
    }
    let place = from + v * PART_BYTES;
    read_edges(digits, text, place, v, &task.vertices, e, &mut task.edges)?;
    *task = table::task_of(m, v as u16, e as u16, task.vertices, task.edges);
    Ok(TaskLines {
        count: v + e,
        bytes: (v + e) * PART_BYTES,
    })
}

// Where vertex i of n leads in a ring, and in a gear table.
fn leads(form: Form, n: usize, i: usize) -> usize
    requires { i < n }
    ensures { result ≡ form_to form n i }
{
    let next = i + 1;
    let Form::Ring = form else {
        return i;
    };
    if next < n {
        return next;
    }
    0
}

// The only edge out of vertex i of n, with the separation p.
fn link_edge(form: Form, n: usize, i: usize, p: Ticks) -> Edge
    requires { (i < n) × (n ≤ most_vertices) }
    ensures { result ≡ edge_cells i (form_to form n i) p.0 }
{
    let to = leads(form, n, i);
    let first = i as u8;
    let second = to as u8;
    Edge {
        from: VertexNumber(first),
        to: VertexNumber(second),
        p,
    }
}

// The lines of the n vertices of a ring or a gear table.
fn read_links(
    digits: &Digits,
    text: &[u8],
    from: usize,
    form: Form,
    n: usize,
    task: &mut Task,
) -> Result<TaskLines, Stopped>
    requires { (from ≤ length text.now) × (n ≤ most_vertices) }
    ensures { taken_with result task.new ≡ link_lines (form_to form n) n (drop from text.now) }
{
    let no_vertex = table::no_vertex();
    let no_edge = table::no_edge();
    task.vertices = [no_vertex; MOST_VERTICES];
    task.edges = [no_edge; MOST_EDGES];
    for i in 0..n {
        let line = link_line(digits, &text[from + i * LINK_BYTES..]);
        let link = behind(i, line)?;
        task.vertices[i] = link.vertex;
        task.edges[i] = link_edge(form, n, i, link.p);
    }
    *task = table::task_of(Ticks(0), n as u16, n as u16, task.vertices, task.edges);
    Ok(TaskLines {
        count: n,
        bytes: n * LINK_BYTES,
    })
}

// The lines of a task whose own says `head`, into `task`, whatever it held: in a `Result` it would be copied on its way to the table. Where they stop
// there is no task.
pub fn read_task(
    digits: &Digits,
    text: &[u8],
    from: usize,
    head: Head,
    task: &mut Task,
) -> Result<TaskLines, Stopped>
    requires { (from ≤ length text.now) × (1 ≤ head.v) × (head.v ≤ most_vertices) × (head.e ≤ most_edges) }
    ensures lines { taken_with result task.new ≡ task_lines head (drop from text.now) }
    ensures none { IfErr result (λ _. task.new ≡ no_task) }
{
    let lines = match head.form {
        Form::Plain => read_plain(digits, text, from, head.v, head.e, head.m, task),
        form => read_links(digits, text, from, form, head.v, task),
    };
    if lines.is_err() {
        *task = table::no_task();
    }
    lines
}
