// Words and numbers, to standard output.
use std::fmt;
use std::fmt::{Display, Write};

// Standard output. What it doesn't take is lost, and nothing is told of that.
#[derive(Drop)]
struct Output;

impl fmt::Write for Output {
    fn write_str(&mut self, words: &str) -> fmt::Result {
        io::write_all(1, words.as_bytes());
        Ok(())
    }
}

pub(crate) fn say<D: Display + Drop>(words: D) {
    let mut out = Output;
    // `Output` never fails.
    let _ = write!(out, "{words}");
}

// How many there are of something, with an s unless it is one: "1 tick", "2 ticks".
#[derive(Drop)]
pub(crate) enum Plural {
    Ticks(u64),
    Groups(u64),
}

impl fmt::Display for Plural {
    fn fmt<W: fmt::Write>(&self, f: &mut fmt::Formatter<W>) -> fmt::Result {
        match self {
            Plural::Ticks(1) => write!(f, "1 tick"),
            Plural::Ticks(n) => write!(f, "{n} ticks"),
            Plural::Groups(1) => write!(f, "1 group"),
            Plural::Groups(n) => write!(f, "{n} groups"),
        }
    }
}
