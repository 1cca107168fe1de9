// The bounds that document 01 and wishes 3 and 7 set, once for the code, and what follows from them; `meaning`'s Bounds has them once for the definitions.
// The proofs tie the two: an array or a test by another number meets no contract.
#![tactic(auto)]

// ---- a table

pub const MOST_TASKS: usize = 8;

pub const MOST_VERTICES: usize = 12;

pub const MOST_EDGES: usize = 32;

// The largest e, d, p and m; the least of each is 1, and a task without a masked length has m = 0.
pub const LARGEST_E: usize = 1000;

pub const LARGEST_D: usize = 1000;

pub const LARGEST_P: usize = 60000;

pub const LARGEST_M: usize = 1000;

// ---- judging

// A higher task may have so many complete paths.
pub const MOST_PATHS: usize = 64;

// A vertex has at most so many higher tasks.
pub const MOST_HIGHER: usize = MOST_TASKS - 1;

// A number for each higher task.
pub type PerTask = [usize; MOST_HIGHER];

// "A range of n paths" has a row, and so has each part of it, down to the single paths: 2n - 1. As many work cells as any vertex needs.
pub const MOST_ROWS: usize = 2 * MOST_PATHS - 1;

pub const MOST_WORK: usize = MOST_HIGHER * MOST_ROWS * LARGEST_D;

// "h x (1 + d)": as many witness cells as any vertex needs.
pub const MOST_WITNESS: usize = MOST_HIGHER * (1 + LARGEST_D);

// ---- the desk program

pub const LONGEST_INPUT: usize = 8191;

pub const DESK_WORK: usize = 8192;

pub const DESK_BUDGET: u32 = 100000;

// The bytes of a line of output with so many bytes in its frame: two digits each, and the line feed. The longest path frame is 12, task, the length
// in 2 bytes and as many vertices as a path has.
pub const VERDICT_LINE: usize = 2 * 8 + 1;

pub const COUNTS_LINE: usize = 2 * 5 + 1;

pub const REFUSAL_LINE: usize = 2 * 4 + 1;

pub const LONGEST_PATH_LINE: usize = 2 * (4 + LARGEST_D) + 1;

// Room for any output: as if every vertex had all the tasks above it, its verdict's line and a path line for each of them, then the counts.
pub const LONGEST_VERTEX: usize = VERDICT_LINE + MOST_HIGHER * LONGEST_PATH_LINE;

pub const LONGEST_OUTPUT: usize = MOST_TASKS * MOST_VERTICES * LONGEST_VERTEX + COUNTS_LINE;
