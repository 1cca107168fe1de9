// A table, written into an area of as many bytes as the header has work cells. Each byte first holds a mark, which no byte of a text is. The answer: a line
// with 0 or the refusal's number (1 byte), the bytes written or the refusal's place (4), the bytes before the area's first that holds its mark (4) and
// whether all from there on hold theirs (1); then those bytes at the front as they are.
use crate::lent::{mark, print_count, written};
use crate::print::end_line;
use kinds::RefusedAt;
use sequences::Header;
use table::Table;
use writer::write;

// More than the longest text has, 3,963, so that what lies behind it is seen.
const AREA_BYTES: usize = 4096;

// So many times, at least once, each time into the area as the time before left it: the last answer.
fn write_times(t: &Table, area: &mut [u8], times: u32) -> Result<usize, RefusedAt> {
    for _ in 1..times {
        let _ = write(t, area);
    }
    write(t, area)
}

fn print_numbers(number: u8, place: u64) {
    io::print_hex(1, u64::from(number), 2);
    io::print_hex(1, place, 8);
}

fn print_written(written: Result<usize, RefusedAt>) {
    match written {
        Ok(n) => print_numbers(0, n as u64),
        Err(at) => print_numbers(at.refusal.number(), u64::from(at.place)),
    }
}

fn print_area(area: &[u8]) {
    let n = written(area);
    print_count(area, n);
    end_line();
    io::write_all(1, &area[..n]);
}

fn write_in(t: &Table, area: &mut [u8], times: u32) {
    mark(area);
    print_written(write_times(t, area, times));
    print_area(area);
}

// A case that asks for more bytes than there are gets all of them.
pub(crate) fn print(header: &Header, t: &Table, times: u32) {
    let mut area = [0u8; AREA_BYTES];
    let bytes = header.work_cells.min(AREA_BYTES);
    write_in(t, &mut area[..bytes], times);
}
