// "A table that breaks a rule gets 2 to 5 with the line its frame would have, first line first (no task: 2, line 1; more than eight: 2, the ninth's
// line)." A job longer than its own deadline gets 13, by wish 6.
//
// The first line of a table that breaks a rule, by the questions that the reader asks of a text; and how many bytes its text has where no line does.
#![tactic(auto)]

ghost use Rattle.std.specs.Prelude.{◌≡◌, ◌+◌, ◌≤◌, ◌<◌, map, length, Err};
ghost use Rattle.meaning.specs.Bounds.{most_vertices, most_edges};
ghost use Rattle.meaning.specs.Texts.{last_line};
ghost use Rattle.table.specs.Record.{vertex_of, edge_of, task_held};
ghost use Rattle.checks.specs.Checks.{vertex_check, vertices_check, edge_check, edges_check, task_check, TableChecked};

use bounds::MOST_TASKS;
use frames::{END_BYTES, PART_BYTES, task_bytes};
use kinds::{Refusal, RefusedAt};
use rules::{
    edge_after, edge_in, edge_spaced, job_in_time, least_after, mask_covered, task_in, vertex_in,
};
use table::{Edge, Table, Task, Vertex, largest_e};

fn at_line(refusal: Refusal, line: u32) -> RefusedAt
    ensures { result ≡ record { refusal = refusal; place = line } }
{
    RefusedAt {
        refusal,
        place: line,
    }
}

fn check_vertex(x: Vertex, line: u32) -> Result<(), RefusedAt>
    ensures { result ≡ vertex_check line (vertex_of x) }
{
    let e = u32::from(x.e.0);
    let d = u32::from(x.d.0);
    if !vertex_in(e, d) {
        return Err(at_line(Refusal::OutOfBounds, line));
    }
    if !job_in_time(e, d) {
        return Err(at_line(Refusal::JobOverDeadline, line));
    }
    Ok(())
}

// The lines of some vertices, from `line` on.
fn check_vertices(vertices: &[Vertex], line: u32) -> Result<(), RefusedAt>
    requires { (length vertices.now ≤ most_vertices) × (line ≤ last_line) }
    ensures { result ≡ vertices_check line (map vertex_of vertices.now) }
{
    for (i, x) in vertices.iter().enumerate() {
        check_vertex(*x, line + i as u32)?;
    }
    Ok(())
}

// An edge of a task with these vertices, behind one that left the places from `least` on.
fn check_edge(vertices: &[Vertex], x: Edge, least: u32, line: u32) -> Result<(), RefusedAt>
    requires { length vertices.now ≤ most_vertices }
    ensures { result ≡ edge_check (map vertex_of vertices.now) least line (edge_of x) }
{
    let p = u32::from(x.p.0);
    if !edge_in(
        vertices.len() as u32,
        u32::from(x.from.0),
        u32::from(x.to.0),
        p,
    ) {
        return Err(at_line(Refusal::OutOfBounds, line));
    }
    let start = vertices[usize::from(x.from.0)];
    if !edge_spaced(u32::from(start.d.0), p) {
        return Err(at_line(Refusal::DeadlineOverSeparation, line));
    }
    if !edge_after(least, x.from.0, x.to.0) {
        return Err(at_line(Refusal::EdgeNotAfter, line));
    }
    Ok(())
}

// The lines of a task's edges, from `line` on.
fn check_edges(vertices: &[Vertex], edges: &[Edge], line: u32) -> Result<(), RefusedAt>
    requires { (length vertices.now ≤ most_vertices) × (length edges.now ≤ most_edges) × (line ≤ last_line + most_vertices) }
    ensures { result ≡ edges_check (map vertex_of vertices.now) 0 line (map edge_of edges.now) }
{
    let mut least: u32 = 0;
    for (i, x) in edges.iter().enumerate() {
        check_edge(vertices, *x, least, line + i as u32)?;
        least = least_after(x.from.0, x.to.0);
    }
    Ok(())
}

// A task's lines: its own, its vertices', its masked length at the last of these, its edges'.
fn check_task(k: &Task, line: u32) -> Result<(), RefusedAt>
    requires { line < last_line }
    ensures { result ≡ task_check line (task_held k.now) }
{
    if !task_in(u32::from(k.nv), u32::from(k.ne), 0, u32::from(k.m.0)) {
        return Err(at_line(Refusal::OutOfBounds, line));
    }
    let vertices = &k.vertices[..usize::from(k.nv)];
    let edges = &k.edges[..usize::from(k.ne)];
    check_vertices(vertices, line + 1)?;
    let last = line + u32::from(k.nv);
    let largest = largest_e(vertices);
    if !mask_covered(u32::from(k.m.0), u32::from(largest.0)) {
        return Err(at_line(Refusal::OutOfBounds, last));
    }
    check_edges(vertices, edges, last + 1)
}

pub fn check_table(t: &Table) -> Result<usize, RefusedAt>
    ensures { TableChecked t.now result }
{
    let mut bytes: usize = END_BYTES;
    let mut line: u32 = 1;
    let tasks = &t.tasks[..t.n.min(MOST_TASKS)];
    for k in tasks {
        check_task(k, line)?;
        line += 1 + u32::from(k.nv) + u32::from(k.ne);
        bytes += task_bytes(k.m) + PART_BYTES * (usize::from(k.nv) + usize::from(k.ne));
    }
    if tasks.len() < t.n || t.n == 0 {
        return Err(at_line(Refusal::WrongFrame, line));
    }
    Ok(bytes)
}
