// "A range of n paths, n above 1, splits into the first n/2 (rounded up) and the rest, and so on down to single paths."
//
// Here is which ranges splitting gives, which of them begin where, and where their rows stand.
//
// A rest is a range that begins where a first part ends: at each place but the first one, exactly one rest begins. A task's stretch of the work area has
// a row for each range of its paths, in order: the rows of the first part, then the range's own, then those of the rest. So the path of place i has
// row 2i, and the range of len paths from place first on has row 2 first + top_row(len).
#![tactic(auto)]

ghost use Rattle.std.specs.Prelude.{◌≡◌, ◌+◌, ◌≤◌, ◌<◌};
ghost use Rattle.meaning.specs.Bounds.{most_paths};
ghost use Rattle.meaning.specs.Groups as Meant;
ghost use Rattle.rows.specs.Order.{top_row};
ghost use Rattle.rows.specs.Ranges.{rest_length};

// The first n/2, rounded up.
pub fn half(n: usize) -> usize
    ensures { result ≡ Meant.half n }
{
    n - n / 2
}

// Which of its rows is the range's own: twice the first part, less one.
pub fn top_row(len: usize) -> usize
    ensures { result ≡ top_row len }
{
    if 1 < len {
        return len - 1 + len % 2;
    }
    0
}

// The length of the rest that begins at path s, where the n paths from place first on are split.
pub fn rest_length(first: usize, n: usize, s: usize) -> usize
    requires { (first + n ≤ most_paths) × (first < s) × (s < first + n) }
    ensures { result ≡ rest_length first n s }
{
    let c = half(n);
    let m = first + c;
    if s == m {
        return n - c;
    }
    if s < m {
        rest_length(first, c, s)
    } else {
        rest_length(m, n - c, s)
    }
}
