// Stores into a lent buffer: each says what the whole buffer holds afterwards. The caller shows that there is room.
#![tactic(auto)]

ghost use Rattle.std.specs.Prelude.{◌≡◌, ◌+◌, ◌*◌, ◌≤◌, length};
ghost use Rattle.cgx_spec.specs.Numbers.{digits, short_bytes, long_bytes};
ghost use Rattle.cgx_spec.specs.Strings.{padded};
ghost use Rattle.buffers.specs.Put.{put, longs_bytes};

use numbers::{long_bytes, short_bytes, word_bytes, word_of};

// ---- numbers, the high byte first
// A function for each width, as in `numbers` (no plainer).

pub fn put_short(out: &mut [u8], at: usize, n: i16)
    requires { at + 2 ≤ length out.old }
    ensures { out.new ≡ put out.old at (short_bytes n) }
{
    put_each(out, at, &short_bytes(n));
}

pub fn put_long(out: &mut [u8], at: usize, n: i32)
    requires { at + 4 ≤ length out.old }
    ensures { out.new ≡ put out.old at (long_bytes n) }
{
    put_each(out, at, &long_bytes(n));
}

pub fn put_longs(out: &mut [u8], at: usize, ns: &[i32])
    requires { at + 4 * length ns.now ≤ length out.old }
    ensures { out.new ≡ put out.old at (longs_bytes ns.now) }
{
    for (i, n) in ns.iter().enumerate() {
        put_long(out, at + 4 * i, *n);
    }
}

// The eight bytes of a real, or of a word that is copied.
pub fn put_word(out: &mut [u8], at: usize, w: u64)
    requires { at + 8 ≤ length out.old }
    ensures { out.new ≡ put out.old at (digits 8 w) }
{
    put_each(out, at, &word_bytes(w));
}

// ---- bytes

// 8 to 128 bytes go by words, the last of which may overlap the one before it: a vector loop stores what its vectors leave over
// byte by byte, and of so few bytes that is most of the work. Fewer and more have a test and a call each, since each call is compiled for its own
// lengths: with one for both, up to 7 bytes took 1.7 times as long.
pub fn put_bytes(out: &mut [u8], at: usize, src: &[u8])
    requires { at + length src.now ≤ length out.old }
    ensures { out.new ≡ put out.old at src.now }
{
    let n = src.len();
    if n < 8 {
        put_each(out, at, src);
        return;
    }
    if 128 < n {
        put_each(out, at, src);
        return;
    }
    let last = n - 8;
    // All but the last byte: the word that ends with it is stored last.
    for (k, word) in src[..n - 1].chunks_exact(8).enumerate() {
        put_word(out, at + 8 * k, word_of(word));
    }
    put_word(out, at + last, word_of(&src[last..]));
}

// Bytes one by one, for few or very many of them. There is no branch in the loop, so that it is compiled to a vector loop. `copy_from_slice` would be
// a call of C's memmove, and the archive needs nothing from outside (tests/c/run).
pub fn put_each(out: &mut [u8], at: usize, src: &[u8])
    requires { at + length src.now ≤ length out.old }
    ensures { out.new ≡ put out.old at src.now }
{
    for (i, b) in src.iter().enumerate() {
        out[at + i] = *b;
    }
}

// A text with the one or two zero bytes that follow it. Two are stored, which after an odd length are the same: a branch would go wrong half of the time.
pub fn put_text(out: &mut [u8], at: usize, text: &[u8])
    requires { at + length (padded text.now) ≤ length out.old }
    ensures { out.new ≡ put out.old at (padded text.now) }
{
    put_bytes(out, at, text);
    let end = at + text.len();
    let last = at + text.len() / 2 * 2 + 1;
    out[end] = 0;
    out[last] = 0;
}
