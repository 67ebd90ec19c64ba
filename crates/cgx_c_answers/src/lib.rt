// What the reading calls tell a C caller: a number, what they fill in lent memory, and the offset that a refusal names. specs/Told.antt has each answer of the
// library as C is told it.
#![tactic(auto)]

ghost use Rattle.std.specs.Prelude.{◌≡◌};
ghost use Rattle.cgx_c_places.specs.Words.{told_at};
ghost use Rattle.cgx_c_answers.specs.Told.{verdict_told, start_told, list_in, span_in, box_told, point_told, inside_told, layer_told, name_told, extent_told, length_told, normal_told, double_told, real_told};

use cgx_ask_layer_name::NameAnswer;
use cgx_c_places::{PlaceWords, put_cursor, put_offset};
use cgx_format_cursor::Cursor;
use cgx_format_kinds::{ItemList, Point, Sides, TextSpan};
use cgx_spec::{FileRefusal, Real, Refusal, Verdict};

// The answers that are no refusals.
pub const NOTHING: u32 = 257;

pub const SUBSTITUTE: u32 = 258;

pub const INEXACT: u32 = 259;

// What a refusal of a file leaves: its number, and the offset that it names.
fn tell_file_refusal(r: FileRefusal, at: &mut u64) -> u32
    ensures { (result ≡ r.number) × (at.new ≡ r.at) }
{
    *at = r.at as u64;
    r.number as u32
}

fn tell_refusal(r: Refusal, at: &mut u64) -> u32
    ensures { (result ≡ r.number) × (at.new ≡ told_at r.at at.old) }
{
    put_offset(at, r.at);
    r.number as u32
}

pub fn tell_verdict(v: Verdict, at: &mut u64) -> u32
    ensures { record { number = result; at = at.new } ≡ verdict_told v at.old }
{
    match v {
        Ok(()) => 0,
        Err(r) => tell_file_refusal(r, at),
    }
}

pub fn tell_start(s: Result<Cursor, FileRefusal>, place: &mut PlaceWords, at: &mut u64) -> u32
    ensures { record { number = result; filled = place.new; at = at.new } ≡ start_told s place.old at.old }
{
    match s {
        Ok(c) => {
            put_cursor(place, c);
            0
        }
        Err(r) => tell_file_refusal(r, at),
    }
}

// ---- lists and texts of a view
// Each makes a type of its own: one counts items, the other bytes (no plainer). Functions and no `From`: words, lists and spans are types of other crates.

pub fn list_of(w: &[u64; 2]) -> ItemList
    ensures { result ≡ list_in w.now }
{
    let first = w[0] as usize;
    let count = w[1] as usize;
    ItemList { first, count }
}

pub fn span_of(w: &[u64; 2]) -> TextSpan
    ensures { result ≡ span_in w.now }
{
    let at = w[0] as usize;
    let len = w[1] as usize;
    TextSpan { at, len }
}

pub fn tell_box(b: Option<Sides>, sides: &mut [i32; 4]) -> u32
    ensures { record { number = result; filled = sides.new } ≡ box_told b sides.old }
{
    match b {
        None => NOTHING,
        Some(s) => {
            sides[0] = s.left;
            sides[1] = s.bottom;
            sides[2] = s.right;
            sides[3] = s.top;
            0
        }
    }
}

pub fn tell_point(p: Option<Point>, point: &mut [i32; 2]) -> u32
    ensures { record { number = result; filled = point.new } ≡ point_told p point.old }
{
    let Some(p) = p else {
        return NOTHING;
    };
    point[0] = p.x;
    point[1] = p.y;
    0
}

pub fn tell_inside(inside: bool) -> u32
    ensures { result ≡ inside_told inside }
{
    if inside { 0 } else { NOTHING }
}

// ---- questions

pub fn tell_layer(answer: Result<(), Refusal>) -> u32
    ensures { result ≡ layer_told answer }
{
    match answer {
        Ok(()) => 0,
        Err(r) => r.number as u32,
    }
}

pub fn tell_name(n: NameAnswer, substitute_len: usize, name: &mut [u64; 2]) -> u32
    ensures { record { number = result; filled = name.new } ≡ name_told n substitute_len name.old }
{
    match n {
        NameAnswer::NoLayer => 16,
        NameAnswer::OfFile { at, len } => {
            *name = [at as u64, len as u64];
            0
        }
        NameAnswer::OfSubstitute => {
            *name = [0, substitute_len as u64];
            SUBSTITUTE
        }
    }
}

pub fn tell_extent(e: Result<Option<Sides>, Refusal>, sides: &mut [i32; 4], at: &mut u64) -> u32
    ensures { record { number = result; filled = sides.new; at = at.new } ≡ extent_told e sides.old at.old }
{
    match e {
        Err(r) => tell_refusal(r, at),
        Ok(shape) => tell_box(shape, sides),
    }
}

// ---- the normal form

pub fn tell_length(m: Result<usize, FileRefusal>, length: &mut u64, at: &mut u64) -> u32
    ensures { record { number = result; filled = length.new; at = at.new } ≡ length_told m length.old at.old }
{
    match m {
        Ok(n) => {
            *length = n as u64;
            0
        }
        Err(r) => tell_file_refusal(r, at),
    }
}

// As `tell_length`, but a call's refusal may name no place.
pub fn tell_normal(m: Result<usize, Refusal>, length: &mut u64, at: &mut u64) -> u32
    ensures { record { number = result; filled = length.new; at = at.new } ≡ normal_told m length.old at.old }
{
    match m {
        Ok(n) => {
            *length = n as u64;
            0
        }
        Err(refusal) => tell_refusal(refusal, at),
    }
}

// ---- reals

pub fn tell_double(r: Real, value: &mut f64) -> u32
    ensures { record { number = result; filled = value.new } ≡ double_told r value.old }
{
    match r {
        Real::Exact(x) => {
            *value = x;
            0
        }
        Real::Inexact {
            negative: _,
            e: _,
            m: _,
        } => INEXACT,
    }
}

pub fn tell_real(d: Option<u64>, real: &mut u64) -> u32
    ensures { record { number = result; filled = real.new } ≡ real_told d real.old }
{
    match d {
        Some(word) => {
            *real = word;
            0
        }
        None => INEXACT,
    }
}
