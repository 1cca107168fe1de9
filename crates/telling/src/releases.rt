// The releases that show a miss, or make a meets so late, out of the witness area: "per higher task in order, the path's length and vertices".
ghost use Rattle.std.specs.Prelude.{◌≤◌, ◌<◌, length};

use std::fmt;
use table::{Table, Task};

// So many releases of one vertex behind each other, by its edge to itself, are said once.
const SHORTEST_RUN: usize = 4;

// The paths in the cells, one for each higher task.
#[derive(Drop)]
pub(crate) struct Releases<'a> {
    pub table: &'a Table,
    pub cells: &'a [u16],
}

#[derive(Drop)]
struct Path<'a> {
    task: &'a Task,
    vertices: &'a [u16],
}

// Releases of one vertex, the first at a tick, the others each so much later than the one before.
#[derive(Drop)]
struct Run {
    vertex: u16,
    times: u64,
    first: u64,
    wait: u64,
}

// The first path of the cells, and the cells behind it; where they break off, as much as there is of it.
fn first_path(cells: &[u16]) -> Option<(&[u16], &[u16])> {
    let (len, rest) = cells.split_first()?;
    Some(rest.split_at(rest.len().min(usize::from(*len))))
}

// How many releases at the start of a path are said at once: a run too short for that is taken one release at a time.
fn run_length(path: &[u16]) -> usize
    requires { 0 < length path.now }
    ensures { (0 < result) × (result ≤ length path.now) }
{
    let vertex = path[0];
    let n = path.iter().take_while(|v| **v == vertex).count();
    if n < SHORTEST_RUN { 1 } else { n }
}

impl Releases<'_> {
    // What the paths load the processor with by the deadline.
    pub(crate) fn load(&self) -> u64 {
        let mut load: u64 = 0;
        let mut cells = self.cells;
        for task in &self.table.tasks {
            let Some((vertices, rest)) = first_path(cells) else {
                break;
            };
            load = load.saturating_add(Path { task, vertices }.load());
            cells = rest;
        }
        load
    }
}

impl Path<'_> {
    // The total e of its vertices, since its span is below the deadline.
    fn load(&self) -> u64 {
        let mut load: u64 = 0;
        for v in self.vertices {
            load = load.saturating_add(self.execution(*v));
        }
        load
    }

    fn execution(&self, vertex: u16) -> u64 {
        self.task
            .vertices
            .get(usize::from(vertex))
            .map_or(0, |job| u64::from(job.e.0))
    }

    // The separation of the edge from one vertex to another: "each next one by an edge".
    fn separation(&self, from: u16, to: u16) -> u64 {
        let mut edges = self.task.edges.iter();
        edges
            .find(|edge| u16::from(edge.from.0) == from && u16::from(edge.to.0) == to)
            .map_or(0, |edge| u64::from(edge.p.0))
    }
}

impl Run {
    fn last(&self) -> u64 {
        self.first
            .saturating_add(self.wait.saturating_mul(self.times.saturating_sub(1)))
    }
}

impl fmt::Display for Run {
    fn fmt<W: fmt::Write>(&self, f: &mut fmt::Formatter<W>) -> fmt::Result {
        write!(f, "vertex {} at tick {}", self.vertex, self.first)?;
        let last = self.last();
        if self.times == 1 {
            return Ok(());
        }
        if self.wait == 1 {
            return write!(f, " and every tick up to tick {last}");
        }
        write!(f, " and every {} ticks up to tick {last}", self.wait)
    }
}

// One path's releases: the first at tick 0.
impl fmt::Display for Path<'_> {
    fn fmt<W: fmt::Write>(&self, f: &mut fmt::Formatter<W>) -> fmt::Result {
        let mut tick: u64 = 0;
        let mut before = None;
        let mut rest = self.vertices;
        while let Some(vertex) = rest.first() {
            if let Some(from) = before {
                write!(f, ", ")?;
                tick = tick.saturating_add(self.separation(from, *vertex));
            }
            let (released, behind) = rest.split_at(run_length(rest));
            // The length by `as`, since no `From` leads from usize to u64.
            let run = Run {
                vertex: *vertex,
                times: released.len() as u64,
                first: tick,
                wait: self.separation(*vertex, *vertex),
            };
            write!(f, "{run}")?;
            tick = run.last();
            before = Some(*vertex);
            rest = behind;
        }
        Ok(())
    }
}

// A line for each path.
impl fmt::Display for Releases<'_> {
    fn fmt<W: fmt::Write>(&self, f: &mut fmt::Formatter<W>) -> fmt::Result {
        let mut cells = self.cells;
        for (j, task) in self.table.tasks.iter().enumerate() {
            let Some((vertices, rest)) = first_path(cells) else {
                break;
            };
            writeln!(f, "    task {j}: {}", Path { task, vertices })?;
            cells = rest;
        }
        Ok(())
    }
}
