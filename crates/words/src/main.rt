// Each verdict of the table that stands on standard input, in words for people. A program of its own beside `why`, since each is run by its name; its input
// goes into an array, since nothing here is on a heap.
#![tactic(auto)]

use bounds::LONGEST_INPUT;
use telling::say_table;

fn main() {
    let mut bytes = [0u8; LONGEST_INPUT + 1];
    let n = io::read_full(0, &mut bytes);
    // What it gives is among the words.
    let _ = say_table(&bytes[..n], false);
}
