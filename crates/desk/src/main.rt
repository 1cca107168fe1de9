// The desk program: "It reads standard input into 8,192 bytes", one more than an input may have, and writes the output that `desk_output` gives for
// what it read.
#![tactic(auto)]

use bounds::LONGEST_INPUT;
use judge::desk_output;

// The output of a longer text seldom fits into the short area.
const SHORT_TEXT: usize = 1024;

// Writes the output where it fits into the area, and says whether it does.
fn write_from(text: &[u8], area: &mut [u8]) -> bool {
    let end = desk_output(text, area);
    io::write_all(1, &area[..end]);
    end != 0
}

// From 65,536 bytes, where it fits: to make room for any output takes as long as all the rest does for a small table. A function's whole frame is touched
// where it begins, so neither this one nor `write_long`, each with an area of its own, may become a part of `main`.
#[inline(never)]
fn write_short(text: &[u8]) -> bool {
    write_from(text, &mut io::large_buffer())
}

// From room for any output.
#[inline(never)]
fn write_long(text: &[u8]) {
    write_from(text, &mut judge::output_room());
}

fn main() {
    let mut input = [0u8; LONGEST_INPUT + 1];
    let n = io::read_full(0, &mut input);
    let text = &input[..n];
    if n > SHORT_TEXT || !write_short(text) {
        write_long(text);
    }
}
