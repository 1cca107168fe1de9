// What a call leaves in its areas. Before it each cell holds its own mark, a number that no call writes. The line of a case goes on with the
// zeros at the work area's front (4 bytes) and whether all cells behind them hold their marks (1), then with the cells written at the witness
// area's front (4), whether all behind them hold their marks (1), and those cells themselves (2 each).
ghost use Rattle.std.specs.Prelude.{◌≤◌, length};

use bounds::{LONGEST_OUTPUT, MOST_WITNESS, MOST_WORK};

// So many cells more than any vertex needs, so that what lies behind the needed ones is seen.
const SPARE: usize = 100;

pub(crate) const WORK_CELLS: usize = MOST_WORK + SPARE;

pub(crate) const WITNESS_CELLS: usize = MOST_WITNESS + SPARE;

// So many bytes have marks that differ.
const BYTE_MARKS: usize = 97;

// What is lent to the calls: areas of cells enough for any vertex, and room for any output.
#[derive(Drop)]
pub(crate) struct Areas {
    pub(crate) work: [u32; WORK_CELLS],
    pub(crate) witness: [u16; WITNESS_CELLS],
    pub(crate) out: [u8; LONGEST_OUTPUT],
}

impl Areas {
    // A function of its own, so that who calls it sees the areas' lengths and not their cells.
    pub(crate) fn room() -> Areas {
        Areas {
            work: [0; WORK_CELLS],
            witness: [0; WITNESS_CELLS],
            out: [0; LONGEST_OUTPUT],
        }
    }
}

// A cell of an area, and the mark of the cell at a place: a work cell, a witness cell, or a byte of a text that is written.
pub(crate) trait Cell: Copy + PartialEq {
    fn mark(i: usize) -> Self;
}

impl Cell for u32 {
    fn mark(i: usize) -> u32 {
        0xa5a50000 + (i % WORK_CELLS) as u32
    }
}

impl Cell for u16 {
    fn mark(i: usize) -> u16 {
        0x5a00 + (i % WITNESS_CELLS) as u16
    }
}

// No byte of a text is so large.
impl Cell for u8 {
    fn mark(i: usize) -> u8 {
        0x80 + (i % BYTE_MARKS) as u8
    }
}

pub(crate) fn mark<C: Cell>(area: &mut [C]) {
    for (i, cell) in area.iter_mut().enumerate() {
        *cell = C::mark(i);
    }
}

// The cells before the first that holds its mark.
pub(crate) fn written<C: Cell>(area: &[C]) -> usize
    ensures { result ≤ length area.now }
{
    for (i, cell) in area.iter().enumerate() {
        if *cell == C::mark(i) {
            return i;
        }
    }
    area.len()
}

// Whether all cells from a place on hold their marks.
fn is_kept<C: Cell>(area: &[C], from: usize) -> bool {
    (from..area.len()).all(|i| area[i] == C::mark(i))
}

// So many cells, and whether all behind them hold their marks. Inlined, as `print_work` is: where it is called the compiler sees how long an area is at most,
// so that a mark takes no division.
#[inline(always)]
pub(crate) fn print_count<C: Cell>(area: &[C], n: usize) {
    io::print_hex(1, n as u64, 8);
    io::print_hex(1, u64::from(is_kept(area, n)), 2);
}

#[inline(always)]
pub(crate) fn print_work(work: &[u32]) {
    let zeros = work
        .iter()
        .position(|cell| *cell != 0)
        .unwrap_or(work.len());
    print_count(work, zeros);
}

pub(crate) fn print_witness(witness: &[u16]) {
    let n = written(witness);
    print_count(witness, n);
    for cell in &witness[..n] {
        io::print_hex(1, u64::from(*cell), 4);
    }
}
