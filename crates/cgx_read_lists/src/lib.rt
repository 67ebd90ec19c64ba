// What a view's lists and texts say: the i-th box or point, and the bytes of a text. Every file and every list or span is answered, a made-up one too.
#![tactic(auto)]

ghost use Rattle.std.specs.Prelude.{◌≡◌, ◌+◌, ◌<◌, ◌≤◌, length, IfSome};
ghost use Rattle.cgx_read_lists.specs.Lists.{item_at, box_of, point_of, within, span_bytes, span_ptr};

use cgx_format_kinds::{Boxes, ItemList, Point, Poly, Sides, TextSpan};
use numbers::long_at;

// The i-th box of a BOX, if the list has one that lies inside the file.
pub fn box_at(f: &[u8], boxes: ItemList, i: usize) -> Option<Sides>
    ensures { result ≡ box_of f.now boxes i }
{
    let at = item_at::<{ Boxes::BOX_SIZE }>(f.len(), boxes, i)?;
    Some(Sides {
        left: long_at(f, at),
        bottom: long_at(f, at + 4),
        right: long_at(f, at + 8),
        top: long_at(f, at + 12),
    })
}

// The i-th point of a POLY or a WIRE, if the list has one that lies inside the file.
pub fn point_at(f: &[u8], points: ItemList, i: usize) -> Option<Point>
    ensures { result ≡ point_of f.now points i }
{
    let at = item_at::<{ Poly::PAIR_SIZE }>(f.len(), points, i)?;
    Some(Point {
        x: long_at(f, at),
        y: long_at(f, at + 4),
    })
}

pub fn text_inside(f: &[u8], s: TextSpan) -> bool
    ensures { result ≡ within (length f.now) s }
{
    s.at <= f.len() && s.len <= f.len() - s.at
}

// The text where it lies inside the file, else no bytes. The promise has its place too: it is that very part of the file.
pub fn text_bytes<'a>(f: &'a [u8], s: TextSpan) -> &'a [u8]
    ensures result_value { result.now ≡ span_bytes f.now s }
    ensures place { result.ref_ptr ≡ span_ptr f.entry.ref_ptr (length f.now) s }
{
    if text_inside(f, s) {
        &f[s.at..s.at + s.len]
    } else {
        &f[0..0]
    }
}

// Where the i-th thing of SIZE bytes begins, if the list has one that lies inside n bytes; no sum or product is made that might not fit. The size is a const parameter, so
// that it divides by a shift: on targets of 32 bits, a division of two numbers may call a routine from outside.
fn item_at<const SIZE: usize>(n: usize, list: ItemList, i: usize) -> Option<usize>
    requires { 0 < SIZE }
    ensures value { result ≡ item_at n SIZE list i }
    ensures inside { IfSome result (λ at. at + SIZE ≤ n) }
{
    if i < list.count && list.first <= n && i < (n - list.first) / SIZE {
        Some(list.first + SIZE * i)
    } else {
        None
    }
}
