// "an even number of digits 0-9a-f, at least two, then a line feed. Numbers have the high byte first."
//
// What stands at a place of a text: digits by their worth, the numbers that they spell, and the digits of a line.
#![tactic(auto)]

ghost use Rattle.std.specs.Prelude.{◌≡◌, ◌+◌, ◌<◌, length};
ghost use Rattle.digits.specs.Digits.{worth_of, Worths, pair_at, word_at, frame_at, digit_count, some_digits};

// What a byte is worth that is no digit: above every bound (`AboveBounds`), so that a number with such a byte in it fails them all.
const FOREIGN: u16 = 65535;

// What each byte is worth as a digit 0-9a-f.
#[derive(Drop)]
pub struct Digits {
    pub worths: [u16; 256],
    pub ghost right: { Worths worths },
}

impl Digits {
    pub fn new() -> Digits
        ensures { Worths result.worths }
    {
        let mut worths = [FOREIGN; 256];
        worths[48] = 0;
        worths[49] = 1;
        worths[50] = 2;
        worths[51] = 3;
        worths[52] = 4;
        worths[53] = 5;
        worths[54] = 6;
        worths[55] = 7;
        worths[56] = 8;
        worths[57] = 9;
        worths[97] = 10;
        worths[98] = 11;
        worths[99] = 12;
        worths[100] = 13;
        worths[101] = 14;
        worths[102] = 15;
        Digits { worths }
    }

    fn worth(&self, b: u8) -> u32
        ensures { result ≡ worth_of b }
    {
        u32::from(self.worths[usize::from(b)])
    }

    // The byte that two digits stand for.
    pub fn pair_at(&self, text: &[u8], i: usize) -> u32
        requires { i + 1 < length text.now }
        ensures { result ≡ pair_at text.now i }
    {
        self.worth(text[i]) * 16 + self.worth(text[i + 1])
    }

    // The number that four digits stand for.
    pub fn word_at(&self, text: &[u8], i: usize) -> u32
        requires { i + 3 < length text.now }
        ensures { result ≡ word_at text.now i }
    {
        let high = self.pair_at(text, i);
        let low = self.pair_at(text, i + 2);
        high * 256 + low
    }

    // The number of digits of a right line, of which it has at least two.
    pub fn line_digits(&self, text: &[u8]) -> Option<usize>
        ensures { result ≡ some_digits (digit_count 0 (frame_at text.now)) }
    {
        // By its places: `chunks(2)` asks at each pair how much is left, and a line that is refused may be long.
        for k in 0..text.len().div_ceil(2) {
            let i = 2 * k;
            if text[i] == b'\n' {
                return if k == 0 { None } else { Some(i) };
            }
            if text.len() - i == 1 || 15 < self.worth(text[i]) || 15 < self.worth(text[i + 1]) {
                return None;
            }
        }
        None
    }
}
