// As `words`, and below each meets the releases that make it so late.
#![tactic(auto)]

use bounds::LONGEST_INPUT;
use telling::say_table;

fn main() {
    let mut bytes = [0u8; LONGEST_INPUT + 1];
    let n = io::read_full(0, &mut bytes);
    // What it gives is among the words.
    let _ = say_table(&bytes[..n], true);
}
