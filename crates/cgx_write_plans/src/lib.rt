// Plans: the checks of a call in their order, and what it answers. A plan looks at no byte of the buffer and stores none.
#![tactic(auto)]

ghost use Rattle.std.specs.Prelude.{◌≡◌, true, ◌&&◌, cond, ◌+◌, ◌%◌, ◌≤◌, ◌<◌, length, fold};
ghost use Rattle.std.specs.Int.Signed.{le_z};
ghost use Rattle.cgx_spec.specs.Reals.{positive_real};
ghost use Rattle.cgx_spec.specs.Dates.{calendar};
ghost use Rattle.cgx_spec.specs.Fields.{in_order, closed};
ghost use Rattle.cgx_spec.specs.Verdicts.{fault_number, numbered};
ghost use Rattle.cgx_write_given.specs.Given.{date_bytes, style_of, meets, given_library, given_struct, given_owned, given_layer, given_box, given_poly, given_wire, given_text, given_sref, given_endlib};
ghost use Rattle.cgx_write_given.specs.Writing.{offset_of, named, planned};
ghost use Rattle.cgx_write_plans.specs.Plans.{text_fault, wire_fault, given_fault, checked, moved_by, concluded};
ghost use Rattle.cgx_write_plans.specs.Srefs.{scale_good, grid_good, sref_fault};

use cgx_format_cursor::{Cursor, allows, is_forged, next_state};
use cgx_format_fields::{date_good, no_zero};
use cgx_format_kinds::{
    Boxes, DataType, Date, Endlib, Grid, Layer, LayerNo, Point, Poly, Sref, Wire,
};
use cgx_format_sref::sref_layout;
use cgx_spec::{Fault, Kind, Refusal};
use cgx_write_given::{
    Answer, Owner, Writer, box_size, date_bytes, library_size, named_size, poly_size,
    property_size, sref_size, struct_size, style_flags, text_size, wire_size,
};
use numbers::WordBytes;
use reals::positive_bytes;

// A plan takes what its call is given, also what it does not look at. A function a call, also where two bodies are alike: each promises its own call's record (no plainer).
// Boxes and points come as one list of longs, as C lends them (the C interface).
pub fn plan_library(
    room: usize,
    w: Writer,
    version: u8,
    munit: WordBytes,
    uunit: WordBytes,
    created: Date,
    modified: Date,
    name: &[u8],
) -> Answer
    ensures { result ≡ planned room w (given_library version munit uunit created modified name.now) }
{
    let fault = library_fault(munit, uunit, created, modified, name);
    conclude(room, w, Kind::Library, fault, library_size(name))
}

pub fn plan_struct(room: usize, w: Writer, created: Date, modified: Date, name: &[u8]) -> Answer
    ensures { result ≡ planned room w (given_struct created modified name.now) }
{
    let fault = struct_fault(created, modified, name);
    conclude(room, w, Kind::Struct, fault, struct_size(name))
}

// A CPRPTY or a PROPERTY.
pub fn plan_property(room: usize, w: Writer, owner: Owner, number: i32, value: &[u8]) -> Answer
    ensures { result ≡ planned room w (given_owned owner number value.now) }
{
    conclude(
        room,
        w,
        owner.kind(),
        text_fault(value),
        property_size(value),
    )
}

pub fn plan_layer(room: usize, w: Writer, number: LayerNo, datatype: DataType) -> Answer
    ensures { result ≡ planned room w (given_layer number datatype None) }
{
    conclude(room, w, Kind::Layer, Ok(()), Layer::MIN_SIZE)
}

pub fn plan_named(
    room: usize,
    w: Writer,
    number: LayerNo,
    datatype: DataType,
    name: &[u8],
) -> Answer
    ensures { result ≡ planned room w (given_layer number datatype (Some name.now)) }
{
    conclude(room, w, Kind::Layer, text_fault(name), named_size(name))
}

pub fn plan_box(room: usize, w: Writer, sides: &[i32]) -> Answer
    ensures { result ≡ planned room w (given_box sides.now) }
{
    conclude(room, w, Kind::Box, box_fault(sides), box_size(sides))
}

pub fn plan_poly(room: usize, w: Writer, points: &[i32]) -> Answer
    ensures { result ≡ planned room w (given_poly points.now) }
{
    conclude(room, w, Kind::Poly, poly_fault(points), poly_size(points))
}

pub fn plan_wire(room: usize, w: Writer, style: Option<u8>, width: i32, points: &[i32]) -> Answer
    ensures { result ≡ planned room w (given_wire style width points.now) }
{
    conclude(
        room,
        w,
        Kind::Wire,
        wire_fault(style, points),
        wire_size(points),
    )
}

pub fn plan_text(room: usize, w: Writer, flags: u8, at: Point, width: i32, label: &[u8]) -> Answer
    ensures { result ≡ planned room w (given_text flags at width label.now) }
{
    conclude(room, w, Kind::Text, text_fault(label), text_size(label))
}

pub fn plan_sref(
    room: usize,
    w: Writer,
    flags: u8,
    at: Point,
    angle: &[u8; 8],
    magnif: &[u8; 8],
    grid: Grid,
    name: &[u8],
) -> Answer
    ensures { result ≡ planned room w (given_sref flags at angle.now magnif.now grid name.now) }
{
    conclude(
        room,
        w,
        Kind::Sref,
        sref_fault(flags, magnif, grid, name),
        sref_size(flags, name),
    )
}

pub fn plan_endlib(room: usize, w: Writer) -> Answer
    ensures { result ≡ planned room w given_endlib }
{
    conclude(room, w, Kind::Endlib, Ok(()), Endlib::SIZE)
}

// ---- the answer to a record of a kind and a size: `fault` is the first of the rules 7 to 12 that it breaks, if any

// By the hint it is compiled into the plans, but at -Oz, where hints do nothing.
#[inline]
fn conclude(room: usize, w: Writer, k: Kind, fault: Result<(), Fault>, size: usize) -> Answer
    ensures { result ≡ concluded room w k (numbered fault) size }
{
    if let Err(first) = first_check(room, w, k, fault, size) {
        return Err(refused(first, w));
    }
    Ok(moved(w, k, size))
}

// The first check that fails, if any: the place, then what is given, then the room.
fn first_check(
    room: usize,
    w: Writer,
    k: Kind,
    fault: Result<(), Fault>,
    size: usize,
) -> Result<(), Fault>
    ensures { numbered result ≡ checked room w k (numbered fault) size }
{
    if is_forged(room, w.cursor) {
        return Err(Fault::NoSuch);
    }
    let state = w.cursor.state;
    if state.ended {
        return Err(Fault::Order);
    }
    if !allows(state, k) {
        return Err(Fault::Order);
    }
    fault?;
    if Kind::MAX_SIZE < size {
        return Err(Fault::TooLarge);
    }
    if room - w.cursor.at < size {
        return Err(Fault::Room);
    }
    Ok(())
}

// What a record itself breaks, 6 to 12, names the place where it would begin.
fn refused(fault: Fault, w: Writer) -> Refusal
    ensures { result ≡ record { number = fault_number fault; at = named (fault_number fault) (offset_of w) } }
{
    let at = match fault {
        Fault::Order
        | Fault::Flags
        | Fault::Length
        | Fault::Date
        | Fault::Number
        | Fault::String
        | Fault::NotClosed => Some(w.cursor.at),
        _ => None,
    };
    Refusal {
        number: fault.number(),
        at,
    }
}

// The writer after a record.
fn moved(w: Writer, k: Kind, size: usize) -> Writer
    requires { (0 < offset_of w) × (offset_of w + size < 18446744073709551616) × (w.cursor.state.count < 18446744073709551615) }
    ensures { result ≡ moved_by w k size }
{
    let at = w.cursor.at;
    Writer {
        cursor: Cursor {
            at: at + size,
            state: next_state(w.cursor.state, at, k),
        },
    }
}

// ---- the rules 7 to 12

// The rules 7 to 12 of a LIBRARY, of which its version breaks none.
fn library_fault(
    munit: WordBytes,
    uunit: WordBytes,
    created: Date,
    modified: Date,
    name: &[u8],
) -> Result<(), Fault>
    ensures { numbered result ≡ given_fault (given_library 0 munit uunit created modified name.now) }
{
    dates_fault(created, modified)?;
    scales_fault(munit, uunit)?;
    text_fault(name)
}

// The rules 7 to 12 of a STRUCT.
fn struct_fault(created: Date, modified: Date, name: &[u8]) -> Result<(), Fault>
    ensures { numbered result ≡ given_fault (given_struct created modified name.now) }
{
    dates_fault(created, modified)?;
    text_fault(name)
}

// Rule 9.
fn dates_fault(created: Date, modified: Date) -> Result<(), Fault>
    ensures { numbered result ≡ cond (calendar (date_bytes created) && calendar (date_bytes modified)) None (Some 9) }
{
    if in_calendar(created) & in_calendar(modified) {
        Ok(())
    } else {
        Err(Fault::Date)
    }
}

// The reader's test of the bytes that would be written: there is one date rule.
fn in_calendar(d: Date) -> bool
    ensures { result ≡ calendar (date_bytes d) }
{
    let bytes = date_bytes(d);
    date_good(&bytes)
}

// Rule 10 of munit and uunit.
fn scales_fault(munit: WordBytes, uunit: WordBytes) -> Result<(), Fault>
    ensures { numbered result ≡ cond (positive_real munit && positive_real uunit) None (Some 10) }
{
    if positive_bytes(&munit) & positive_bytes(&uunit) {
        Ok(())
    } else {
        Err(Fault::Number)
    }
}

// The rules 7 to 12 of a BOX.
fn box_fault(sides: &[i32]) -> Result<(), Fault>
    ensures { numbered result ≡ given_fault (given_box sides.now) }
{
    if sides.len() % Boxes::BOX_LONGS != 0 {
        return Err(Fault::Length);
    }
    if sides.len() < Boxes::MIN_COUNT * Boxes::BOX_LONGS {
        return Err(Fault::Length);
    }
    if boxes_good(sides) {
        Ok(())
    } else {
        Err(Fault::Number)
    }
}

// Of numbers that are given, here and below: the reader's rules are of bytes, and both promise the same definition.
fn boxes_good(sides: &[i32]) -> bool
    requires { length sides.now % 4 ≡ 0 }
    ensures { result ≡ in_order sides.now }
{
    all_good(sides.as_chunks().0)
}

// All boxes are looked at, and no branch is taken, so that several can be taken at a time. A loop and no `fold` of the library, whose iterator answers an `Option` of a
// reference: in the module that other machines are compiled from, that has the width of x86-64's pointers, and machines of 32 bits miss the reference.
fn all_good(boxes: &[[i32; 4]]) -> bool
    ensures { result ≡ fold (λ all b. all && in_order b) true boxes.now }
{
    let mut all = true;
    for b in boxes {
        all = all & box_good(b);
    }
    all
}

fn box_good(b: &[i32; 4]) -> bool
    ensures { result ≡ in_order b.now }
{
    (b[0] <= b[2]) & (b[1] <= b[3])
}

// The rules 7 to 12 of a POLY. As those of a BOX, with other counts and another last rule: one function for both would take four constants (no plainer).
fn poly_fault(points: &[i32]) -> Result<(), Fault>
    ensures { numbered result ≡ given_fault (given_poly points.now) }
{
    if points.len() % Poly::PAIR_LONGS != 0 {
        return Err(Fault::Length);
    }
    if points.len() < Poly::MIN_COUNT * Poly::PAIR_LONGS {
        return Err(Fault::Length);
    }
    if is_closed(points) {
        Ok(())
    } else {
        Err(Fault::NotClosed)
    }
}

// Rule 12: the first point is the last.
fn is_closed(points: &[i32]) -> bool
    requires { 2 ≤ length points.now }
    ensures { result ≡ meets closed points.now }
{
    points.ends_with(&points[..Poly::PAIR_LONGS])
}

// The rules 7 to 12 of a WIRE.
fn wire_fault(style: Option<u8>, points: &[i32]) -> Result<(), Fault>
    ensures { numbered result ≡ wire_fault (style_of style) (length points.now) }
{
    if Wire::MAX_FLAGS < style_flags(style) {
        return Err(Fault::Flags);
    }
    if points.len() % Wire::PAIR_LONGS != 0 {
        return Err(Fault::Length);
    }
    if points.len() < Wire::MIN_COUNT * Wire::PAIR_LONGS {
        return Err(Fault::Length);
    }
    Ok(())
}

// The rules 7 to 12 of an SREF.
fn sref_fault(flags: u8, magnif: &[u8; 8], grid: Grid, name: &[u8]) -> Result<(), Fault>
    ensures { numbered result ≡ sref_fault flags magnif.now grid name.now }
{
    if Sref::MAX_FLAGS < flags {
        return Err(Fault::Flags);
    }
    let l = sref_layout(flags);
    if !magnif_good(l.scaled, magnif) {
        return Err(Fault::Number);
    }
    if !grid_good(l.repeated, grid) {
        return Err(Fault::Number);
    }
    text_fault(name)
}

// Flag and value, here and below, as the definition and the C interface have them: an `Option` would be made only to be taken apart.
fn magnif_good(set: bool, magnif: &[u8; 8]) -> bool
    ensures { result ≡ scale_good set magnif.now }
{
    if set { positive_bytes(magnif) } else { true }
}

fn grid_good(set: bool, grid: Grid) -> bool
    ensures { result ≡ grid_good set grid }
{
    let cols = grid.cols;
    let rows = grid.rows;
    if set { (1 <= cols) & (1 <= rows) } else { true }
}

// Rule 11 of a text, the only one of 7 to 12 that a record with a text and no more can break.
fn text_fault(t: &[u8]) -> Result<(), Fault>
    ensures { numbered result ≡ text_fault t.now }
{
    if no_zero(t) {
        Ok(())
    } else {
        Err(Fault::String)
    }
}
