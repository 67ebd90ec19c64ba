// Stores of a planned record, in normal form. The caller shows that there is room.
#![tactic(auto)]

ghost use Rattle.std.specs.Prelude.{◌≡◌, true, [], ◌∷◌, ◌++◌, ◌+◌, ◌*◌, ◌/◌, ◌%◌, ◌≤◌, length};
ghost use Rattle.cgx_spec.specs.Numbers.{short_bytes};
ghost use Rattle.cgx_spec.specs.Reals.{normal_real};
ghost use Rattle.cgx_spec.specs.Kinds.{flags_of, type_for};
ghost use Rattle.cgx_spec.specs.Records.{bytes_of};
ghost use Rattle.buffers.specs.Put.{put, longs_bytes};
ghost use Rattle.cgx_write_given.specs.Given.{date_bytes, written, given_library, given_struct, given_owned, given_layer, given_box, given_poly, given_wire, given_text, given_sref, given_endlib};
ghost use Rattle.cgx_write_given.specs.Srefs.{real_if, grid_if, sref_size};
ghost use Rattle.cgx_write_given.specs.Writing.{max_size};

use buffers::{put_bytes, put_each, put_long, put_longs, put_short, put_text};
use cgx_format_kinds::{Boxes, DataType, Date, Endlib, Grid, Layer, LayerNo, Point};
use cgx_format_sref::sref_layout;
use cgx_normal_copy::flags_meant;
use cgx_spec::Kind;
use cgx_write_given::{
    Owner, box_size, date_bytes, library_size, named_size, poly_size, property_size, sref_size,
    struct_size, style_flags, text_size, wire_size,
};
use numbers::WordBytes;
use reals::normal_bytes;

pub fn store_library(
    buf: &mut [u8],
    at: usize,
    version: u8,
    munit: WordBytes,
    uunit: WordBytes,
    created: Date,
    modified: Date,
    name: &[u8],
)
    requires { (at + (38 + length name.now / 2 * 2) ≤ length buf.old) × (38 + length name.now / 2 * 2 ≤ max_size) }
    ensures { buf.new ≡ put buf.old at (bytes_of (written (given_library version munit uunit created modified name.now))) }
{
    put_header(buf, at, Kind::Library, version, library_size(name));
    put_real(buf, at + 4, munit);
    put_real(buf, at + 12, uunit);
    put_date(buf, at + 20, created);
    put_date(buf, at + 28, modified);
    put_text(buf, at + 36, name);
}

pub fn store_struct(buf: &mut [u8], at: usize, created: Date, modified: Date, name: &[u8])
    requires { (at + (22 + length name.now / 2 * 2) ≤ length buf.old) × (22 + length name.now / 2 * 2 ≤ max_size) }
    ensures { buf.new ≡ put buf.old at (bytes_of (written (given_struct created modified name.now))) }
{
    put_header(buf, at, Kind::Struct, 0, struct_size(name));
    put_date(buf, at + 4, created);
    put_date(buf, at + 12, modified);
    put_text(buf, at + 20, name);
}

// A CPRPTY or a PROPERTY.
pub fn store_property(buf: &mut [u8], at: usize, owner: Owner, number: i32, value: &[u8])
    requires { (at + (10 + length value.now / 2 * 2) ≤ length buf.old) × (10 + length value.now / 2 * 2 ≤ max_size) }
    ensures { buf.new ≡ put buf.old at (bytes_of (written (given_owned owner number value.now))) }
{
    put_header(buf, at, owner.kind(), 0, property_size(value));
    put_long(buf, at + 4, number);
    put_text(buf, at + 8, value);
}

pub fn store_layer(buf: &mut [u8], at: usize, number: LayerNo, datatype: DataType)
    requires { at + 8 ≤ length buf.old }
    ensures { buf.new ≡ put buf.old at (bytes_of (written (given_layer number datatype None))) }
{
    put_header(buf, at, Kind::Layer, 0, Layer::MIN_SIZE);
    put_layer_numbers(buf, at + 4, number, datatype);
}

pub fn store_named(buf: &mut [u8], at: usize, number: LayerNo, datatype: DataType, name: &[u8])
    requires { (at + (10 + length name.now / 2 * 2) ≤ length buf.old) × (10 + length name.now / 2 * 2 ≤ max_size) }
    ensures { buf.new ≡ put buf.old at (bytes_of (written (given_layer number datatype (Some name.now)))) }
{
    put_header(buf, at, Kind::Layer, 0, named_size(name));
    put_layer_numbers(buf, at + 4, number, datatype);
    put_text(buf, at + 8, name);
}

pub fn store_box(buf: &mut [u8], at: usize, sides: &[i32])
    requires { (at + (4 + 4 * length sides.now) ≤ length buf.old) × (4 + 4 * length sides.now ≤ max_size) }
    ensures { buf.new ≡ put buf.old at (bytes_of (written (given_box sides.now))) }
{
    put_header(buf, at, Kind::Box, 0, box_size(sides));
    if sides.len() == Boxes::BOX_LONGS {
        put_box(buf, at + 4, sides);
        return;
    }
    put_longs(buf, at + 4, sides);
}

pub fn store_poly(buf: &mut [u8], at: usize, points: &[i32])
    requires { (at + (4 + 4 * length points.now) ≤ length buf.old) × (4 + 4 * length points.now ≤ max_size) }
    ensures { buf.new ≡ put buf.old at (bytes_of (written (given_poly points.now))) }
{
    put_header(buf, at, Kind::Poly, 0, poly_size(points));
    put_longs(buf, at + 4, points);
}

pub fn store_wire(buf: &mut [u8], at: usize, style: Option<u8>, width: i32, points: &[i32])
    requires { (at + (8 + 4 * length points.now) ≤ length buf.old) × (8 + 4 * length points.now ≤ max_size) }
    ensures { buf.new ≡ put buf.old at (bytes_of (written (given_wire style width points.now))) }
{
    put_header(buf, at, Kind::Wire, style_flags(style), wire_size(points));
    put_long(buf, at + 4, width);
    put_longs(buf, at + 8, points);
}

pub fn store_text(buf: &mut [u8], at: usize, flags: u8, p: Point, width: i32, label: &[u8])
    requires { (at + (18 + length label.now / 2 * 2) ≤ length buf.old) × (18 + length label.now / 2 * 2 ≤ max_size) }
    ensures { buf.new ≡ put buf.old at (bytes_of (written (given_text flags p width label.now))) }
{
    let x = p.x;
    let y = p.y;
    put_header(buf, at, Kind::Text, flags, text_size(label));
    put_long(buf, at + 4, x);
    put_long(buf, at + 8, y);
    put_long(buf, at + 12, width);
    put_text(buf, at + 16, label);
}

pub fn store_sref(
    buf: &mut [u8],
    at: usize,
    flags: u8,
    origin: Point,
    angle: &[u8; 8],
    magnif: &[u8; 8],
    grid: Grid,
    name: &[u8],
)
    requires { (at + sref_size flags (length name.now) ≤ length buf.old) × (sref_size flags (length name.now) ≤ max_size) }
    ensures { buf.new ≡ put buf.old at (bytes_of (written (given_sref flags origin angle.now magnif.now grid name.now))) }
{
    let x = origin.x;
    let y = origin.y;
    let l = sref_layout(flags);
    put_header(buf, at, Kind::Sref, flags, sref_size(flags, name));
    put_long(buf, at + 4, x);
    put_long(buf, at + 8, y);
    put_real_if(buf, at + 12, l.turned, angle);
    put_real_if(buf, at + l.magnif, l.scaled, magnif);
    put_grid_if(buf, at + l.array, l.repeated, grid);
    put_text(buf, at + l.name, name);
}

pub fn store_endlib(buf: &mut [u8], at: usize)
    requires { at + 4 ≤ length buf.old }
    ensures { buf.new ≡ put buf.old at (bytes_of (written given_endlib)) }
{
    put_header(buf, at, Kind::Endlib, 0, Endlib::SIZE);
}

// Size, type, and the flags that are meant.
fn put_header(buf: &mut [u8], at: usize, k: Kind, flags: u8, size: usize)
    requires { (at + 4 ≤ length buf.old) × (size ≤ max_size) }
    ensures { buf.new ≡ put buf.old at (size / 256 ∷ size % 256 ∷ type_for k ∷ flags_of k flags ∷ []) }
{
    let meant = flags_meant(k, flags);
    let high = (size / 256) as u8;
    let low = (size % 256) as u8;
    let header = [high, low, k as u8, meant];
    put_each(buf, at, &header);
}

// One box, as most BOX records have: without a loop, which would cost as much as all else of the call.
fn put_box(buf: &mut [u8], at: usize, sides: &[i32])
    requires { (at + 16 ≤ length buf.old) × (length sides.now ≡ 4) }
    ensures { buf.new ≡ put buf.old at (longs_bytes sides.now) }
{
    let left = sides[0];
    let bottom = sides[1];
    let right = sides[2];
    let top = sides[3];
    put_long(buf, at, left);
    put_long(buf, at + 4, bottom);
    put_long(buf, at + 8, right);
    put_long(buf, at + 12, top);
}

// The two numbers of a LAYER, which come apart only here.
fn put_layer_numbers(buf: &mut [u8], at: usize, number: LayerNo, datatype: DataType)
    requires { at + 4 ≤ length buf.old }
    ensures { buf.new ≡ put buf.old at (short_bytes number.0 ++ short_bytes datatype.0) }
{
    put_short(buf, at, number.0);
    put_short(buf, at + 2, datatype.0);
}

// The normal real equal to the one given.
fn put_real(buf: &mut [u8], at: usize, real: WordBytes)
    requires { at + 8 ≤ length buf.old }
    ensures { buf.new ≡ put buf.old at (normal_real real) }
{
    let normal = normal_bytes(&real);
    put_bytes(buf, at, &normal);
}

fn put_date(buf: &mut [u8], at: usize, date: Date)
    requires { at + 8 ≤ length buf.old }
    ensures { buf.new ≡ put buf.old at (date_bytes date) }
{
    let bytes = date_bytes(date);
    put_bytes(buf, at, &bytes);
}

// ---- fields that are there only where their flag is set
// Flag and value, as the definition and the C interface have them: an `Option` would be made only to be taken apart.

fn put_real_if(buf: &mut [u8], at: usize, set: bool, real: &[u8; 8])
    requires { set ≡ true → at + 8 ≤ length buf.old }
    ensures { buf.new ≡ put buf.old at (real_if set real.now) }
{
    if set {
        put_real(buf, at, *real);
    }
}

fn put_grid_if(buf: &mut [u8], at: usize, set: bool, grid: Grid)
    requires { set ≡ true → at + 24 ≤ length buf.old }
    ensures { buf.new ≡ put buf.old at (grid_if set grid) }
{
    let cols = grid.cols;
    let rows = grid.rows;
    let across = grid.across;
    let up = grid.up;
    if set {
        let longs = [cols, rows, across.x, across.y, up.x, up.y];
        put_longs(buf, at, &longs);
    }
}
