// "The customer desk's C host calls the text check directly, with the bytes and a length, and gets refusal number and line, both 0 for a
// readable text": a line, the desk's frame of a refused text, or `00` for a readable one.
use crate::print::end_line;

pub(crate) fn print(text: &[u8]) {
    let packed = reader::text_check(text);
    if packed == 0 {
        io::write_all(1, b"00\n");
        return;
    }
    io::write_all(1, b"1e");
    io::print_hex(1, u64::from(packed), 6);
    end_line();
}
