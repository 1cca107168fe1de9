// Lines of numbers.
use io::{print_decimal, write_all};

// The number of place i of its line.
pub(crate) fn print_number(n: u64, i: usize) {
    if i != 0 {
        write_all(1, b" ");
    }
    print_decimal(1, n);
}

pub(crate) fn end_line() {
    write_all(1, b"\n");
}
