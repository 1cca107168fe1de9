// "The table text is lines of hexadecimal, one frame a line: an even number of digits 0-9a-f, at least two, then a line feed."
//
// A pen writes into a lent area, each time behind what it wrote before: bytes in their digits here, the frames of a table in parts.rt.
#![tactic(auto)]

pub mod parts;

ghost use Rattle.std.specs.Prelude.{◌≡◌, ℕ, ◌+◌, ◌*◌, ◌%◌, ◌≤◌, ◌<◌, [], ◌∷◌, length};
ghost use Rattle.meaning.specs.Lists.{gather};
ghost use Rattle.meaning.specs.Bounds.{line_length};
ghost use Rattle.meaning.specs.Text.{digits, line, line_feed};
ghost use Rattle.put.specs.Put.{digits_in_order};
ghost use Rattle.put.specs.Pens.{Penned};

// A lent area, and the place in it where the next byte goes.
#[derive(Drop)]
pub struct Pen<'a> {
    pub out: &'a mut [u8],
    pub at: usize,
}

// What a frame's byte is taken from: a byte, or a cell of the witness area, which holds a vertex number.
pub trait LowByte: Copy {
    ghost low: { Self → ℕ };

    fn low_byte(self) -> u8
        ensures { result ≡ low self };
}

impl LowByte for u8 {
    ghost low = { λ b. b };

    fn low_byte(self) -> u8 {
        self
    }
}

impl LowByte for u16 {
    ghost low = { λ cell. cell % 256 };

    fn low_byte(self) -> u8 {
        (self % 256) as u8
    }
}

// Taken once for many bytes, and lent: a comparison a digit would take half as long again.
pub fn digits_in_order() -> [u8; 16]
    ensures { result ≡ digits_in_order }
{
    *b"0123456789abcdef"
}

impl<'a> Pen<'a> {
    pub fn byte(&mut self, order: &[u8; 16], b: u8)
        requires { (order.now ≡ digits_in_order) × (self.old.at + 2 ≤ length self.old.out.now) }
        ensures { Penned (digits b) self.old self.new }
    {
        let at = self.at;
        let out = &mut *self.out;
        out[at] = order[usize::from(b / 16)];
        out[at + 1] = order[usize::from(b % 16)];
        self.at = at + 2;
    }

    pub fn bytes<T: LowByte>(&mut self, bytes: &[T])
        requires { self.old.at + 2 * length bytes.now ≤ length self.old.out.now }
        ensures { Penned (gather (λ b. digits (T.low b)) bytes.now) self.old self.new }
    {
        let order = digits_in_order();
        for b in bytes {
            self.byte(&order, b.low_byte());
        }
    }

    pub fn line_feed(&mut self)
        requires { self.old.at < length self.old.out.now }
        ensures { Penned (line_feed ∷ []) self.old self.new }
    {
        let at = self.at;
        let out = &mut *self.out;
        out[at] = b'\n';
        self.at = at + 1;
    }

    pub fn line(&mut self, frame: &[u8])
        requires { self.old.at + line_length (length frame.now) ≤ length self.old.out.now }
        ensures { Penned (line frame.now) self.old self.new }
    {
        self.bytes(frame);
        self.line_feed();
    }
}
