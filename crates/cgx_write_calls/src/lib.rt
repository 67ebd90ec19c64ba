// The writer: one record a call, in normal form. A call plans, which only checks, and then stores, which cannot fail; it answers what the plan said. A refused call leaves
// the buffer as it was.
#![tactic(auto)]

ghost use Rattle.std.specs.Prelude.{◌≡◌};
ghost use Rattle.cgx_write_given.specs.Given.{given_library, given_struct, given_owned, given_cprpty, given_property, given_layer, given_box, given_poly, given_wire, given_text, given_sref, given_endlib};
ghost use Rattle.cgx_write_given.specs.Typed.{WellTyped};
ghost use Rattle.cgx_write_given.specs.Writing.{start_in, call_in};

use buffers::put_bytes;
use cgx_format_kinds::{DataType, Date, Grid, LayerNo, Point};
use cgx_spec::Fault;
use cgx_write_given::{Answer, Owner, Writer, all_longs};
use cgx_write_plans::{
    plan_box, plan_endlib, plan_layer, plan_library, plan_named, plan_poly, plan_property,
    plan_sref, plan_struct, plan_text, plan_wire,
};
use cgx_write_stores::{
    store_box, store_endlib, store_layer, store_library, store_named, store_poly, store_property,
    store_sref, store_struct, store_text, store_wire,
};
use numbers::WordBytes;

// Stores the four bytes that a file begins with, and answers the writer after them; 14 where they do not fit.
pub fn start(buf: &mut [u8]) -> Answer
    ensures { record { answer = result; buffer = buf.new } ≡ start_in buf.old }
{
    if buf.len() < 4 {
        return Err(Fault::Room.nowhere());
    }
    let header = [99, 103, 120, 0];
    put_bytes(buf, 0, &header);
    Ok(Writer::start())
}

// ---- the calls: what each gives is well typed, since its parameters have their types, so that the promises on the writer speak of it

// Appends LIBRARY. The two reals are given as their eight bytes.
pub fn library(
    buf: &mut [u8],
    writer: Writer,
    version: u8,
    munit: WordBytes,
    uunit: WordBytes,
    created: Date,
    modified: Date,
    name: &[u8],
) -> Answer
    ensures buf_after { record { answer = result; buffer = buf.new } ≡ call_in buf.old writer (given_library version munit uunit created modified name.now) }
    ensures typed { WellTyped (given_library version munit uunit created modified name.now) }
{
    let after = plan_library(
        buf.len(),
        writer,
        version,
        munit,
        uunit,
        created,
        modified,
        name,
    )?;
    store_library(
        buf,
        writer.cursor.at,
        version,
        munit,
        uunit,
        created,
        modified,
        name,
    );
    Ok(after)
}

// Appends a STRUCT, which opens a cell.
pub fn structure(
    buf: &mut [u8],
    writer: Writer,
    created: Date,
    modified: Date,
    name: &[u8],
) -> Answer
    ensures buf_after { record { answer = result; buffer = buf.new } ≡ call_in buf.old writer (given_struct created modified name.now) }
    ensures typed { WellTyped (given_struct created modified name.now) }
{
    let after = plan_struct(buf.len(), writer, created, modified, name)?;
    store_struct(buf, writer.cursor.at, created, modified, name);
    Ok(after)
}

// Appends a CPRPTY: a property of the cell.
pub fn cprpty(buf: &mut [u8], writer: Writer, number: i32, value: &[u8]) -> Answer
    ensures buf_after { record { answer = result; buffer = buf.new } ≡ call_in buf.old writer (given_cprpty number value.now) }
    ensures typed { WellTyped (given_cprpty number value.now) }
{
    owned(buf, writer, Owner::Cell, number, value)
}

// Appends a PROPERTY of the object that follows.
pub fn property(buf: &mut [u8], writer: Writer, number: i32, value: &[u8]) -> Answer
    ensures buf_after { record { answer = result; buffer = buf.new } ≡ call_in buf.old writer (given_property number value.now) }
    ensures typed { WellTyped (given_property number value.now) }
{
    owned(buf, writer, Owner::Object, number, value)
}

// Appends a CPRPTY or a PROPERTY. By the hint it is compiled into both, but at -Oz: as a call of its own, whose answer goes through memory, a short one took 2.3 times as
// long on x86-64.
#[inline]
fn owned(buf: &mut [u8], writer: Writer, owner: Owner, number: i32, value: &[u8]) -> Answer
    ensures { record { answer = result; buffer = buf.new } ≡ call_in buf.old writer (given_owned owner number value.now) }
{
    let after = plan_property(buf.len(), writer, owner, number, value)?;
    store_property(buf, writer.cursor.at, owner, number, value);
    Ok(after)
}

// Appends a LAYER without a name.
pub fn layer(buf: &mut [u8], writer: Writer, number: LayerNo, datatype: DataType) -> Answer
    ensures buf_after { record { answer = result; buffer = buf.new } ≡ call_in buf.old writer (given_layer number datatype None) }
    ensures typed { WellTyped (given_layer number datatype None) }
{
    let after = plan_layer(buf.len(), writer, number, datatype)?;
    store_layer(buf, writer.cursor.at, number, datatype);
    Ok(after)
}

// Appends a LAYER with a name, which may be empty.
pub fn named_layer(
    buf: &mut [u8],
    writer: Writer,
    number: LayerNo,
    datatype: DataType,
    name: &[u8],
) -> Answer
    ensures buf_after { record { answer = result; buffer = buf.new } ≡ call_in buf.old writer (given_layer number datatype (Some name.now)) }
    ensures typed { WellTyped (given_layer number datatype (Some name.now)) }
{
    let after = plan_named(buf.len(), writer, number, datatype, name)?;
    store_named(buf, writer.cursor.at, number, datatype, name);
    Ok(after)
}

// Appends a BOX record: left, bottom, right, top of each box.
pub fn boxes(buf: &mut [u8], writer: Writer, sides: &[i32]) -> Answer
    ensures buf_after { record { answer = result; buffer = buf.new } ≡ call_in buf.old writer (given_box sides.now) }
    ensures typed { WellTyped (given_box sides.now) }
{
    all_longs(sides);
    let after = plan_box(buf.len(), writer, sides)?;
    store_box(buf, writer.cursor.at, sides);
    Ok(after)
}

// Appends a POLY: x and y of each point, the first again at the end.
pub fn poly(buf: &mut [u8], writer: Writer, points: &[i32]) -> Answer
    ensures buf_after { record { answer = result; buffer = buf.new } ≡ call_in buf.old writer (given_poly points.now) }
    ensures typed { WellTyped (given_poly points.now) }
{
    all_longs(points);
    let after = plan_poly(buf.len(), writer, points)?;
    store_poly(buf, writer.cursor.at, points);
    Ok(after)
}

// Appends a WIRE: x and y of each point. On x86-64 compiled into each export that calls it: as a call of its own a wire of two points took 1.7 times as long.
#[inline]
pub fn wire(buf: &mut [u8], writer: Writer, style: Option<u8>, width: i32, points: &[i32]) -> Answer
    ensures buf_after { record { answer = result; buffer = buf.new } ≡ call_in buf.old writer (given_wire style width points.now) }
    ensures typed { WellTyped (given_wire style width points.now) }
{
    all_longs(points);
    let after = plan_wire(buf.len(), writer, style, width, points)?;
    store_wire(buf, writer.cursor.at, style, width, points);
    Ok(after)
}

// Appends a TEXT.
pub fn text(
    buf: &mut [u8],
    writer: Writer,
    flags: u8,
    at: Point,
    width: i32,
    label: &[u8],
) -> Answer
    ensures buf_after { record { answer = result; buffer = buf.new } ≡ call_in buf.old writer (given_text flags at width label.now) }
    ensures typed { WellTyped (given_text flags at width label.now) }
{
    let after = plan_text(buf.len(), writer, flags, at, width, label)?;
    store_text(buf, writer.cursor.at, flags, at, width, label);
    Ok(after)
}

// Appends an SREF. An angle, a magnif or a grid whose flag is off is ignored.
pub fn sref(
    buf: &mut [u8],
    writer: Writer,
    flags: u8,
    at: Point,
    angle: WordBytes,
    magnif: WordBytes,
    grid: Grid,
    name: &[u8],
) -> Answer
    ensures buf_after { record { answer = result; buffer = buf.new } ≡ call_in buf.old writer (given_sref flags at angle magnif grid name.now) }
    ensures typed { WellTyped (given_sref flags at angle magnif grid name.now) }
{
    let after = plan_sref(buf.len(), writer, flags, at, &angle, &magnif, grid, name)?;
    store_sref(
        buf,
        writer.cursor.at,
        flags,
        at,
        &angle,
        &magnif,
        grid,
        name,
    );
    Ok(after)
}

// Appends ENDLIB.
pub fn endlib(buf: &mut [u8], writer: Writer) -> Answer
    ensures buf_after { record { answer = result; buffer = buf.new } ≡ call_in buf.old writer given_endlib }
    ensures typed { WellTyped given_endlib }
{
    let after = plan_endlib(buf.len(), writer)?;
    store_endlib(buf, writer.cursor.at);
    Ok(after)
}
