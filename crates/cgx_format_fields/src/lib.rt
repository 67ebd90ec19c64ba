// The rules 9 to 12 of a record's fields, each on the bytes of the field.
#![tactic(auto)]

ghost use Rattle.std.specs.Prelude.{◌≡◌, true, not, ◌&&◌, ◌+◌, ◌%◌, ◌≤◌, eqb, length, take, drop, fold};
ghost use Rattle.std.specs.Int.Signed.{le_z};
ghost use Rattle.cgx_spec.specs.Numbers.{long_of, longs_of};
ghost use Rattle.cgx_spec.specs.Dates.{good_date};
ghost use Rattle.cgx_spec.specs.Strings.{good_string};
ghost use Rattle.cgx_spec.specs.Fields.{closed, optional, ones, in_order, passes, good};
ghost use Rattle.cgx_format_fields.specs.Zeros.{no_zero};

use cgx_format_kinds::{Boxes, Poly};
use numbers::long_at;

// ---- 9: dates

pub fn date_good(b: &[u8]) -> bool
    requires { length b.now ≡ 8 }
    ensures { result ≡ good_date b.now }
{
    let month = (1..=12).contains(&b[2]);
    let day = (1..=31).contains(&b[3]);
    let hour = b[4] <= 23;
    let minute = b[5] <= 59;
    let second = b[6] <= 60;
    let zero = b[7] == 0;
    month & day & hour & minute & second & zero
}

// ---- 10: numbers (a scale or a magnification is `reals::positive_bytes`)

// Columns or rows.
pub fn count_good(b: &[u8]) -> bool
    requires { length b.now ≡ 4 }
    ensures { result ≡ ones (longs_of b.now) }
{
    1 <= long_at(b, 0)
}

pub fn boxes_good(b: &[u8]) -> bool
    requires { length b.now % 16 ≡ 0 }
    ensures { result ≡ in_order (longs_of b.now) }
{
    b.chunks_exact(Boxes::BOX_SIZE).all(box_good)
}

fn box_good(b: &[u8]) -> bool
    requires { length b.now ≡ 16 }
    ensures { result ≡ in_order (longs_of b.now) }
{
    side_good(b, 0) && side_good(b, 4)
}

// A left or a bottom, and eight bytes after it the right or the top.
fn side_good(b: &[u8], at: usize) -> bool
    requires { at + 12 ≤ length b.now }
    ensures { result ≡ le_z (long_of (take 4 (drop at b.now))) (long_of (take 4 (drop (at + 8) b.now))) }
{
    long_at(b, at) <= long_at(b, at + 8)
}

// ---- 11: strings

// A good string is a text, and then a zero byte or two: so the last byte is zero, and of all but the last two none is.
pub fn string_good(b: &[u8]) -> bool
    requires { length b.now % 2 ≡ 0 }
    ensures { result ≡ good_string b.now }
{
    let [text @ .., _, last] = b else {
        return false;
    };
    no_zero(text) & (*last == 0)
}

// A name, or nothing.
pub fn optional_good(b: &[u8]) -> bool
    requires { length b.now % 2 ≡ 0 }
    ensures { result ≡ good optional b.now }
{
    b.is_empty() || string_good(b)
}

// A long text goes by pieces, the last of which ends where b ends and may overlap the one before it; a short one by `contains`, which takes several bytes at a time by
// their length.
pub fn no_zero(b: &[u8]) -> bool
    ensures { result ≡ no_zero b.now }
{
    let n = b.len();
    if n < 512 {
        return !b.contains(&0);
    }
    none_in_pieces(b[..n - 1].as_chunks().0) && none_in_pieces(b[n - 512..].as_chunks().0)
}

// A zero ends the search between pieces.
fn none_in_pieces(pieces: &[[u8; 512]]) -> bool
    ensures { result ≡ fold (λ none b. none && no_zero b) true pieces.now }
{
    for piece in pieces {
        if lowest(piece) == 0 {
            return false;
        }
    }
    true
}

// The lowest byte of a long piece takes less than a test of each byte, as `contains` makes it: half as many instructions.
fn lowest(piece: &[u8; 512]) -> u8
    ensures { not (eqb result 0) ≡ no_zero piece.now }
{
    let mut low: u8 = 255;
    for b in piece {
        low = low.min(*b);
    }
    low
}

// ---- 12: the last point is the first

// `ends_with` compares the eight bytes at once; `==` would be a call here.
pub fn closed_good(b: &[u8]) -> bool
    requires { 8 ≤ length b.now }
    ensures { result ≡ passes closed b.now }
{
    b.ends_with(&b[..Poly::PAIR_SIZE])
}
