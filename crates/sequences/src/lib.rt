// What a program reads that runs on many cases: a sequence of cases, each a header and then its text. A header has 19 bytes, high bytes first: the mode,
// which says what is asked (1 byte), the text's length (4), task (1), vertex (1), budget (4), work cells (4), witness cells (4).
#![tactic(auto)]

ghost use Rattle.std.specs.Prelude.{◌≡◌, ◌+◌, ◌≤◌, ◌<◌, ◌↔◌, length, IsTrue, IsSome, IfSome};
ghost use Rattle.sequences.specs.Sequence.{header_bytes, room_bytes, number_at, case_end, zeros};
ghost use Rattle.sequences.specs.Headers.{header_at};

pub const HEADER_BYTES: usize = 19;

pub const ROOM_BYTES: usize = 1048576;

// Room for a sequence. A function of its own, so that who calls it sees its length and not its cells.
pub fn room() -> [u8; ROOM_BYTES]
    ensures value { result ≡ zeros room_bytes }
    ensures room_bytes_value { room_bytes ≡ length result }
{
    [0; ROOM_BYTES]
}

// The number in the 4 bytes at a place.
pub fn number_at(bytes: &[u8], at: usize) -> usize
    requires { at + 4 ≤ length bytes.now }
    ensures { (result ≡ number_at bytes.now at) × (result ≤ 4294967295) }
{
    u32::from_be_bytes([bytes[at], bytes[at + 1], bytes[at + 2], bytes[at + 3]]) as usize
}

// What a header says, but for its text's length.
#[derive(Clone, Copy, PartialEq, Eq)]
pub struct Header {
    pub mode: u8,
    pub task: u8,
    pub vertex: u8,
    pub budget: u32,
    pub work_cells: usize,
    pub witness_cells: usize,
}

// Whether the sequence has no whole header at a place.
fn breaks_off(bytes: &[u8], at: usize) -> bool
    ensures { IsTrue result ↔ (length bytes.now < at + header_bytes) }
{
    bytes.len() < HEADER_BYTES || bytes.len() - HEADER_BYTES < at
}

impl Header {
    // The header at a place, or none where the sequence breaks off within it.
    pub fn read(bytes: &[u8], at: usize) -> Option<Header>
        ensures whole { IsSome result ↔ (at + header_bytes ≤ length bytes.now) }
        ensures value { IfSome result (λ header. header ≡ header_at bytes.now at) }
    {
        if breaks_off(bytes, at) {
            return None;
        }
        Some(Header {
            mode: bytes[at],
            task: bytes[at + 5],
            vertex: bytes[at + 6],
            budget: number_at(bytes, at + 7) as u32,
            work_cells: number_at(bytes, at + 11),
            witness_cells: number_at(bytes, at + 15),
        })
    }
}

// Where the case ends whose header stands at `at`: the whole sequence's end where it breaks off.
pub fn case_end(bytes: &[u8], at: usize) -> usize
    ensures { result ≡ case_end bytes.now at }
{
    if breaks_off(bytes, at) {
        return bytes.len();
    }
    let from = at + HEADER_BYTES;
    from + number_at(bytes, at + 1).min(bytes.len() - from)
}
