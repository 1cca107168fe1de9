// "The table text is lines of hexadecimal, one frame a line: an even number of digits 0-9a-f, at least two, then a line feed."
//
// One line: whether the frame that must stand there does, and by which row of the refusal sheet the line is refused where it does not. A line
// is looked through for the reason only where the expected frame fails.
#![tactic(auto)]

ghost use Rattle.std.specs.Prelude.{◌≡◌, ◌<◌, ◌≤◌, true, false, length, MatchResult};
ghost use Rattle.meaning.specs.Bounds.{most_vertices};
ghost use Rattle.frames.specs.Frames.{kind_of, digits_of, fault_of, starts_with, vertex_line, edge_line, link_line, end_line, task_line};
ghost use Rattle.frames.specs.Frames.{linked_digits, linked_line, task_or_end_line, task_bytes, head_bytes};

use bounds::{MOST_TASKS, MOST_VERTICES};
use digits::Digits;
use kinds::{Refusal, Ticks, VertexNumber};
use rules::{edge_after, edge_in, edge_spaced, job_in_time, link_in, task_in, vertex_in};
use table::{Edge, Vertex};

// The digits of each frame's line, and with the line feed its bytes; a vertex's, an edge's and that of a task with a masked length have the same.
const TASK_DIGITS: usize = 6;

const PART_DIGITS: usize = 10;

// Of a ring or a gear table, and of its vertices.
const LINKED_DIGITS: usize = 4;

const LINK_DIGITS: usize = 14;

const END_DIGITS: usize = 2;

const TASK_BYTES: usize = TASK_DIGITS + 1;

pub const PART_BYTES: usize = PART_DIGITS + 1;

const LINKED_BYTES: usize = LINKED_DIGITS + 1;

pub const LINK_BYTES: usize = LINK_DIGITS + 1;

pub const END_BYTES: usize = END_DIGITS + 1;

// The frames of a text, by what they describe.
#[derive(Clone, Copy)]
enum Frame {
    End,
    Task,
    Vertex,
    Edge,
    MaskedTask,
    Ring,
    Link,
    Gears,
}

// How a task is described.
#[derive(Clone, Copy)]
pub enum Form {
    Plain,
    Ring,
    Gears,
}

// What a task's line says: how the task is described, and of the plain task how many vertices and edges it has, and its masked length.
#[derive(Clone, Copy)]
pub struct Head {
    pub form: Form,
    pub v: usize,
    pub e: usize,
    pub m: Ticks,
}

// A vertex of a ring or a gear table, and the separation from it to the one that it leads to.
#[derive(Clone, Copy)]
pub struct Link {
    pub vertex: Vertex,
    pub p: Ticks,
}

impl Frame {
    // The second digit of its kind; the first is 0.
    fn kind(self) -> u8
        ensures { result ≡ kind_of self }
    {
        match self {
            Frame::End => b'0',
            Frame::Task => b'1',
            Frame::Vertex => b'2',
            Frame::Edge => b'3',
            Frame::MaskedTask => b'4',
            Frame::Ring => b'5',
            Frame::Link => b'6',
            Frame::Gears => b'7',
        }
    }

    fn digits(self) -> usize
        ensures { result ≡ digits_of self }
    {
        match self {
            Frame::End => END_DIGITS,
            Frame::Task => TASK_DIGITS,
            Frame::Vertex | Frame::Edge | Frame::MaskedTask => PART_DIGITS,
            Frame::Ring | Frame::Gears => LINKED_DIGITS,
            Frame::Link => LINK_DIGITS,
        }
    }

    // Whether a line that starts with its kind may stand here: its first two bytes, and its line feed.
    #[tactic(auto, unfolding(crate::specs::Frames::starts_with))]
    fn starts(self, text: &[u8]) -> bool
        ensures is { result ≡ starts_with text.now (kind_of self) (digits_of self) }
        ensures long { result ≡ true → digits_of self < length text.now }
    {
        let n = self.digits();
        n < text.len() && text[0] == b'0' && text[1] == self.kind() && text[n] == b'\n'
    }

    // How a line is refused that should be its own: for what it is (1, 2, or 6 where there is none), and else by the row `then`. No line that is taken comes
    // here, and put into its callers it would slow them down.
    #[inline(never)]
    #[tactic(auto, using(digits::proofs::Counting::number_of, digits::proofs::Counting::none_of), unfolding(crate::specs::Frames::fault_of))]
    fn fault(self, digits: &Digits, text: &[u8], then: Refusal) -> Refusal
        ensures { result ≡ fault_of text.now (digits_of self) then }
    {
        if text.is_empty() {
            return Refusal::NoEnd;
        }
        match digits.line_digits(text) {
            None => Refusal::BadLine,
            Some(n) if n == self.digits() => then,
            Some(_) => Refusal::WrongFrame,
        }
    }

    // Refuses a line that doesn't start as its own.
    fn expect(self, digits: &Digits, text: &[u8]) -> Result<(), Refusal>
        ensures { MatchResult result (λ _. (starts_with text.now (kind_of self) (digits_of self) ≡ true) × (digits_of self < length text.now))
            (λ w. (starts_with text.now (kind_of self) (digits_of self) ≡ false) × (w ≡ fault_of text.now (digits_of self) Refusal.WrongFrame)) }
    {
        if self.starts(text) {
            return Ok(());
        }
        Err(self.fault(digits, text, Refusal::WrongFrame))
    }

    // A plain task's line, after k whole tasks, with the masked length m, from `least` on.
    #[tactic(auto, using(rules::proofs::Within::task_bounds), unfolding(crate::specs::Frames::task_line))]
    fn plain(
        self,
        digits: &Digits,
        text: &[u8],
        k: usize,
        least: u32,
        m: u32,
    ) -> Result<Option<Head>, Refusal>
        requires { (5 < digits_of self) × (digits_of self < length text.now) }
        ensures { result ≡ task_line k (digits_of self) least m text.now }
    {
        if MOST_TASKS <= k {
            return Err(self.fault(digits, text, Refusal::WrongFrame));
        }
        let v = digits.pair_at(text, 2);
        let e = digits.pair_at(text, 4);
        if !task_in(v, e, least, m) {
            return Err(self.fault(digits, text, Refusal::OutOfBounds));
        }
        Ok(Some(Head {
            form: Form::Plain,
            v: v as usize,
            e: e as usize,
            m: Ticks(m as u16),
        }))
    }

    // The line of a ring or a gear table, after k whole tasks: as many edges as vertices, "m = 0".
    #[tactic(auto, unfolding(crate::specs::Frames::linked_line))]
    fn linked(
        self,
        digits: &Digits,
        text: &[u8],
        k: usize,
        form: Form,
    ) -> Result<Option<Head>, Refusal>
        requires { (digits_of self ≡ linked_digits) × (linked_digits < length text.now) }
        ensures { result ≡ linked_line form k text.now }
    {
        if MOST_TASKS <= k {
            return Err(self.fault(digits, text, Refusal::WrongFrame));
        }
        let n = digits.pair_at(text, 2);
        if !task_in(n, n, 0, 0) {
            return Err(self.fault(digits, text, Refusal::OutOfBounds));
        }
        Ok(Some(Head {
            form,
            v: n as usize,
            e: n as usize,
            m: Ticks(0),
        }))
    }
}

impl Head {
    // The bytes of its line.
    pub fn bytes(self) -> usize
        ensures { result ≡ head_bytes self }
    {
        match self.form {
            Form::Plain => task_bytes(self.m),
            Form::Ring | Form::Gears => LINKED_BYTES,
        }
    }
}

#[tactic(auto, using(rules::proofs::Within::vertex_bounds), unfolding(crate::specs::Frames::vertex_line))]
pub fn vertex_line(digits: &Digits, text: &[u8]) -> Result<Vertex, Refusal>
    ensures { result ≡ vertex_line text.now }
{
    Frame::Vertex.expect(digits, text)?;
    let e = digits.word_at(text, 2);
    let d = digits.word_at(text, 6);
    if !vertex_in(e, d) {
        return Err(Frame::Vertex.fault(digits, text, Refusal::OutOfBounds));
    }
    if !job_in_time(e, d) {
        return Err(Refusal::JobOverDeadline);
    }
    Ok(Vertex {
        e: Ticks(e as u16),
        d: Ticks(d as u16),
    })
}

// In a task of n vertices; the edge before it leaves the places from `least` on.
#[tactic(auto, using(rules::proofs::Within::edge_bounds), unfolding(crate::specs::Frames::edge_line))]
pub fn edge_line(
    digits: &Digits,
    text: &[u8],
    n: usize,
    vertices: &[Vertex; MOST_VERTICES],
    least: u32,
) -> Result<Edge, Refusal>
    requires { n ≤ most_vertices }
    ensures { result ≡ edge_line n vertices.now least text.now }
{
    Frame::Edge.expect(digits, text)?;
    let from = digits.pair_at(text, 2);
    let to = digits.pair_at(text, 4);
    let p = digits.word_at(text, 6);
    if !edge_in(n as u32, from, to, p) {
        return Err(Frame::Edge.fault(digits, text, Refusal::OutOfBounds));
    }
    let v = from as usize;
    if !edge_spaced(u32::from(vertices[v].d.0), p) {
        return Err(Refusal::DeadlineOverSeparation);
    }
    let edge = Edge {
        from: VertexNumber(from as u8),
        to: VertexNumber(to as u8),
        p: Ticks(p as u16),
    };
    if !edge_after(least, edge.from.0, edge.to.0) {
        return Err(Refusal::EdgeNotAfter);
    }
    Ok(edge)
}

// A vertex's line in a ring or a gear table.
#[tactic(auto, using(rules::proofs::Within::link_bounds), unfolding(crate::specs::Frames::link_line))]
pub fn link_line(digits: &Digits, text: &[u8]) -> Result<Link, Refusal>
    ensures { result ≡ link_line text.now }
{
    Frame::Link.expect(digits, text)?;
    let e = digits.word_at(text, 2);
    let d = digits.word_at(text, 6);
    let p = digits.word_at(text, 10);
    if !link_in(e, d, p) {
        return Err(Frame::Link.fault(digits, text, Refusal::OutOfBounds));
    }
    if !job_in_time(e, d) {
        return Err(Refusal::JobOverDeadline);
    }
    if !edge_spaced(d, p) {
        return Err(Refusal::DeadlineOverSeparation);
    }
    let vertex = Vertex {
        e: Ticks(e as u16),
        d: Ticks(d as u16),
    };
    Ok(Link {
        vertex,
        p: Ticks(p as u16),
    })
}

// The end's line, after k whole tasks.
#[tactic(auto, unfolding(crate::specs::Frames::end_line))]
fn end_line(digits: &Digits, text: &[u8], k: usize) -> Result<Option<Head>, Refusal>
    ensures { result ≡ end_line k text.now }
{
    Frame::End.expect(digits, text)?;
    if k == 0 {
        return Err(Refusal::WrongFrame);
    }
    Ok(None)
}

// The line after k whole tasks: another plain task's, of which "Frame 01 means m = 0; 04 with 0 is refusal 3", a ring's (05), a gear table's (07), or the
// end's, which is no task's.
#[tactic(auto, unfolding(crate::specs::Frames::task_or_end_line))]
pub fn task_or_end_line(digits: &Digits, text: &[u8], k: usize) -> Result<Option<Head>, Refusal>
    ensures { result ≡ task_or_end_line k text.now }
{
    if Frame::Task.starts(text) {
        return Frame::Task.plain(digits, text, k, 0, 0);
    }
    if Frame::MaskedTask.starts(text) {
        let m = digits.word_at(text, 6);
        return Frame::MaskedTask.plain(digits, text, k, 1, m);
    }
    if Frame::Ring.starts(text) {
        return Frame::Ring.linked(digits, text, k, Form::Ring);
    }
    if Frame::Gears.starts(text) {
        return Frame::Gears.linked(digits, text, k, Form::Gears);
    }
    end_line(digits, text, k)
}

// The bytes of the line of a plain task with the masked length m.
pub fn task_bytes(m: Ticks) -> usize
    ensures { result ≡ task_bytes m.0 }
{
    if m.0 == 0 {
        return TASK_BYTES;
    }
    PART_BYTES
}
