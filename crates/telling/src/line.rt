// The line that a refusal names, as it stands in the text.
use std::fmt;

// How much of a line is shown.
const MOST_SHOWN: usize = 60;

// Lines are counted from 1.
#[derive(Drop)]
pub(crate) struct Line<'a> {
    pub text: &'a [u8],
    pub number: u32,
}

// Whether a byte is shown as it is.
fn is_plain(b: u8) -> bool {
    b != b'\\' && 0x20 <= b && b <= 0x7e
}

// The bytes as text, where each is plain.
fn plain_text(bytes: &[u8]) -> Option<&str> {
    let words = std::str::from_utf8(bytes).ok()?;
    words.bytes().all(is_plain).then_some(words)
}

// Each byte as `\x` and two digits: `{b:02x}` would write a 0 before one digit apart.
fn write_coded<W: fmt::Write>(f: &mut fmt::Formatter<W>, bytes: &[u8]) -> fmt::Result {
    for b in bytes {
        if *b < 0x10 {
            write!(f, "\\x0{b:x}")?;
        } else {
            write!(f, "\\x{b:x}")?;
        }
    }
    Ok(())
}

impl Line<'_> {
    // The line without its line feed, or none where the text ends before it.
    fn bytes(&self) -> Option<&[u8]> {
        // By `as`, since no `From` leads from u32 to usize.
        let before = self.number.saturating_sub(1) as usize;
        let line = self.text.split_inclusive(|b| *b == b'\n').nth(before)?;
        Some(line.strip_suffix(b"\n").unwrap_or(line))
    }
}

// The line's own text on a line of its own, each run of plain bytes at once.
impl fmt::Display for Line<'_> {
    fn fmt<W: fmt::Write>(&self, f: &mut fmt::Formatter<W>) -> fmt::Result {
        write!(f, "    ")?;
        let Some(line) = self.bytes() else {
            return writeln!(f, "(the text ends before this line)");
        };
        if line.is_empty() {
            return writeln!(f, "(an empty line)");
        }
        let shown = &line[..line.len().min(MOST_SHOWN)];
        for run in shown.chunk_by(|a, b| is_plain(*a) == is_plain(*b)) {
            match plain_text(run) {
                Some(words) => f.write_str(words)?,
                None => write_coded(f, run)?,
            }
        }
        if MOST_SHOWN < line.len() {
            write!(f, "...")?;
        }
        writeln!(f)
    }
}
