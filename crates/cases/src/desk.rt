// The desk's output, preceded by its length in 4 bytes, high byte first.
pub(crate) fn print(text: &[u8], out: &mut [u8]) {
    let end = judge::desk_output(text, out);
    let length = end.to_be_bytes();
    io::write_all(1, &length[4..]);
    io::write_all(1, &out[..end]);
}
