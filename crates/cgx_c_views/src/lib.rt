// Views in a C caller's memory, as words of eight bytes: a store for each kind, of no more than the kind has. A long is widened where it is stored, and nothing is
// calculated with it here.
#![tactic(auto)]

ghost use Rattle.std.specs.Prelude.{◌≡◌, ◌∷◌, ◌+◌, ◌*◌, ◌^◌, ◌<◌, ◌≤◌};
ghost use Rattle.buffers.specs.Put.{put};
ghost use Rattle.cgx_format_cursor.specs.Cursors.{offset_in, run_in};
ghost use Rattle.cgx_c_views.specs.ViewWords.{long_bits, short_bits, date_word, span_words, list_words, layer_word, layer_words, head_word, head_words};

use cgx_format_cursor::first_of;
use cgx_format_kinds::{Date, ItemList, Layer, Struct, TextSpan, Wire};
use cgx_spec::Kind;
use numbers::{long_bits, short_bits};

pub type ViewWords = [u64; 14];

// ---- what every kind has

// The offsets of cell and layer, 0 for none, as a state and the words of a C caller's view have them (the C interface), and a run of so many: none, whatever its
// first, where there are 0.
pub fn put_head(
    w: &mut ViewWords,
    k: Kind,
    flags: u8,
    at: usize,
    cell: usize,
    layer: usize,
    first: usize,
    count: usize,
)
    ensures { w.new ≡ put w.old 0 (head_words k flags at (offset_in cell) (offset_in layer) (run_in first count)) }
{
    w[0] = head_word(k, flags);
    w[1] = at as u64;
    w[2] = cell as u64;
    w[3] = layer as u64;
    w[4] = first_of(first, count, 0) as u64;
    w[5] = count as u64;
}

#[tactic(auto, unfolding(crate::specs::ViewWords::head_word))]
fn head_word(k: Kind, flags: u8) -> u64
    ensures { result ≡ head_word k flags }
{
    k as u64 + 0x1_0000_0000 * (flags as u64)
}

// ---- a kind each: what the caller's view holds after its words stays

// Reals are given as their words.
pub fn put_library(
    w: &mut ViewWords,
    munit: u64,
    uunit: u64,
    created: Date,
    modified: Date,
    name: TextSpan,
)
    ensures { w.new ≡ put w.old 6 (munit ∷ uunit ∷ date_word created ∷ date_word modified ∷ span_words name) }
{
    w[6] = munit;
    w[7] = uunit;
    w[8] = date_word(created);
    w[9] = date_word(modified);
    put_span(w, 10, name);
}

pub fn put_struct(w: &mut ViewWords, s: Struct)
    ensures { w.new ≡ put w.old 6 (date_word s.created ∷ date_word s.modified ∷ span_words s.name) }
{
    w[6] = date_word(s.created);
    w[7] = date_word(s.modified);
    put_span(w, 8, s.name);
}

pub fn put_property(w: &mut ViewWords, number: i32, value: TextSpan)
    ensures { w.new ≡ put w.old 6 (long_bits number ∷ span_words value) }
{
    w[6] = long_word(number);
    put_span(w, 7, value);
}

pub fn put_layer(w: &mut ViewWords, l: Layer)
    ensures { w.new ≡ put w.old 6 (layer_words l.number.0 l.datatype.0 l.name) }
{
    let word = layer_word(l.number.0, l.datatype.0);
    match l.name {
        None => {
            w[6] = word;
            w[7] = 0;
            w[8] = 0;
        }
        Some(name) => {
            w[6] = word + 0x1_0000_0000;
            put_span(w, 7, name);
        }
    }
}

fn layer_word(number: i16, datatype: i16) -> u64
    ensures value { result ≡ layer_word number datatype }
    ensures small { result < 2 ^ 32 }
{
    short_word(number) + 0x1_0000 * short_word(datatype)
}

pub fn put_wire(w: &mut ViewWords, x: Wire)
    ensures { w.new ≡ put w.old 6 (long_bits x.width ∷ list_words x.points) }
{
    w[6] = long_word(x.width);
    put_list(w, 7, x.points);
}

// A point is given as its word.
pub fn put_text(w: &mut ViewWords, point: u64, width: i32, label: TextSpan)
    ensures { w.new ≡ put w.old 6 (point ∷ long_bits width ∷ span_words label) }
{
    w[6] = point;
    w[7] = long_word(width);
    put_span(w, 8, label);
}

// All but the name are given as words.
pub fn put_sref(
    w: &mut ViewWords,
    point: u64,
    angle: u64,
    magnif: u64,
    counts: u64,
    across: u64,
    up: u64,
    name: TextSpan,
)
    ensures { w.new ≡ put w.old 6 (point ∷ angle ∷ magnif ∷ counts ∷ across ∷ up ∷ span_words name) }
{
    w[6] = point;
    w[7] = angle;
    w[8] = magnif;
    w[9] = counts;
    w[10] = across;
    w[11] = up;
    put_span(w, 12, name);
}

// ---- fields
// A function for each type, also where two are alike: the words of a view say nothing of what they are (no plainer).

fn put_span(w: &mut ViewWords, i: usize, s: TextSpan)
    requires { i + 2 ≤ 14 }
    ensures { w.new ≡ put w.old i (span_words s) }
{
    w[i] = s.at as u64;
    w[i + 1] = s.len as u64;
}

pub fn put_list(w: &mut ViewWords, i: usize, r: ItemList)
    requires { i + 2 ≤ 14 }
    ensures { w.new ≡ put w.old i (list_words r) }
{
    w[i] = r.first as u64;
    w[i + 1] = r.count as u64;
}

fn date_word(d: Date) -> u64
    ensures { result ≡ date_word d }
{
    short_word(d.year)
        + 0x1_0000 * (d.month as u64)
        + 0x100_0000 * (d.day as u64)
        + 0x1_0000_0000 * (d.hour as u64)
        + 0x100_0000_0000 * (d.minute as u64)
        + 0x1_0000_0000_0000 * (d.second as u64)
}

// The bits of two longs, the first in the low half: a point, or columns and rows.
pub fn pair_word(first: u32, second: u32) -> u64
    ensures { result ≡ first + 2 ^ 32 * second }
{
    (first as u64) + 0x1_0000_0000 * (second as u64)
}

fn long_word(n: i32) -> u64
    ensures value { result ≡ long_bits n }
    ensures small { result < 2 ^ 32 }
{
    long_bits(n) as u64
}

fn short_word(n: i16) -> u64
    ensures value { result ≡ short_bits n }
    ensures small { result < 2 ^ 16 }
{
    short_bits(n) as u64
}
