// "Bounds: vertices 1 to 12, edges 0 to 32, e 1 to 1,000, [..] and for each edge d of its starting vertex is at most p"; "Raise d to 1,000 and p to
// 60,000"; "its edges in strictly rising order of (from, to)"; "m (2 bytes, 1 to 1,000)", which "may not exceed its task's largest e"; "a job longer than
// its own deadline is a typing slip".
//
// On numbers alone, so that whoever takes a frame, from a text or from a table, asks the same questions.
#![tactic(auto)]

ghost use Rattle.std.specs.Prelude.{◌≡◌};
ghost use Rattle.rules.specs.Rules.{task_in, vertex_in, separation_in, edge_in, link_in};
ghost use Rattle.rules.specs.Rules.{job_in_time, mask_covered, edge_spaced, edge_place, least_after, edge_after};

// The bounds, in the width of the numbers that are tested; by `as`, since a constant's value calls no function.
const MOST_VERTICES: u32 = bounds::MOST_VERTICES as u32;

const MOST_EDGES: u32 = bounds::MOST_EDGES as u32;

const LARGEST_E: u32 = bounds::LARGEST_E as u32;

const LARGEST_D: u32 = bounds::LARGEST_D as u32;

const LARGEST_P: u32 = bounds::LARGEST_P as u32;

const LARGEST_M: u32 = bounds::LARGEST_M as u32;

// The counts of a task's vertices and edges, and its masked length: from 1 on where its frame has one, else 0.
pub fn task_in(v: u32, e: u32, least: u32, m: u32) -> bool
    ensures { result ≡ task_in v e least m }
{
    if v < 1 {
        return false;
    }
    if MOST_VERTICES < v {
        return false;
    }
    if MOST_EDGES < e {
        return false;
    }
    if m < least {
        return false;
    }
    m <= LARGEST_M
}

pub fn vertex_in(e: u32, d: u32) -> bool
    ensures { result ≡ vertex_in e d }
{
    if e < 1 {
        return false;
    }
    if LARGEST_E < e {
        return false;
    }
    if d < 1 {
        return false;
    }
    d <= LARGEST_D
}

fn separation_in(p: u32) -> bool
    ensures { result ≡ separation_in p }
{
    if p < 1 {
        return false;
    }
    p <= LARGEST_P
}

// In a task of n vertices.
pub fn edge_in(n: u32, from: u32, to: u32, p: u32) -> bool
    ensures { result ≡ edge_in n from to p }
{
    if n <= from {
        return false;
    }
    if n <= to {
        return false;
    }
    separation_in(p)
}

// A vertex of a ring or a gear table, with its only edge.
pub fn link_in(e: u32, d: u32, p: u32) -> bool
    ensures { result ≡ link_in e d p }
{
    if !vertex_in(e, d) {
        return false;
    }
    separation_in(p)
}

// Refused "when e exceeds d"; masked time "isn't counted here".
pub fn job_in_time(e: u32, d: u32) -> bool
    ensures { result ≡ job_in_time e d }
{
    e <= d
}

pub fn mask_covered(m: u32, largest: u32) -> bool
    ensures { result ≡ mask_covered m largest }
{
    m <= largest
}

// d of the starting vertex is at most p.
pub fn edge_spaced(d: u32, p: u32) -> bool
    ensures { result ≡ edge_spaced d p }
{
    d <= p
}

// The place of (from, to) in the order of edges.
fn edge_place(from: u8, to: u8) -> u32
    ensures { result ≡ edge_place from to }
{
    u32::from(from) * 256 + u32::from(to)
}

// An edge stands after the one before it, which leaves the places from `least` on; before the first edge that is 0, a place like any other: an Option of the
// edge before would be taken apart at each edge for the same comparison.
pub fn edge_after(least: u32, from: u8, to: u8) -> bool
    ensures { result ≡ edge_after least from to }
{
    least <= edge_place(from, to)
}

pub fn least_after(from: u8, to: u8) -> u32
    ensures { result ≡ least_after from to }
{
    edge_place(from, to) + 1
}
