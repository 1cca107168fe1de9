// "For a vertex with deadline d, a path is complete when its span is below d and each edge out of its last vertex, if any, would make the span d or
// more. [..] Complete paths are ordered as lists of vertex numbers, first difference first." "A path may now have 1,000 vertices".
//
// Over a task's columns: how many complete paths there are for a horizon, and the one at a place of the order.
#![tactic(auto)]

pub mod count;
mod follow;
pub mod place;

use bounds::LARGEST_D;

// The place of a path in that order, from 0.
#[derive(Clone, Copy)]
pub struct PathNumber(pub usize);

// A path kept by value: its vertex numbers, a byte each, zeros behind them, and how many they are. An array with its length, since document 01 asks for
// "a path kept by value in an array of [..] zeros with a length"; of plain numbers, as in a task's columns.
#[derive(Clone, Copy)]
pub struct Path {
    pub vertices: [u8; LARGEST_D],
    pub len: usize,
}
