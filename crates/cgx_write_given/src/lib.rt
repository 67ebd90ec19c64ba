// What a call of the writer is given, and what it answers: the types that the definitions in specs/ and the writer's code share. And what plans, stores
// and calls share: a date's bytes, that a list of longs is one, and the size of each kind's record.
#![tactic(auto)]

ghost use Rattle.std.specs.Prelude.{◌≡◌, ◌+◌, ◌*◌, ◌/◌, length};
ghost use Rattle.cgx_write_given.specs.Given.{date_bytes, style_of, property_kind};
ghost use Rattle.cgx_write_given.specs.Typed.{Longs};
ghost use Rattle.cgx_write_given.specs.Srefs.{sref_size};
ghost use Rattle.cgx_write_given.specs.Writing.{first_writer};

use cgx_format_cursor::Cursor;
use cgx_format_kinds::{
    Boxes, Date, Layer, Library, Point, Poly, Property, Sref, Struct, Text, Wire,
};
use cgx_format_sref::sref_layout;
use cgx_spec::{Kind, Refusal};
use numbers::{LONG_SIZE, WordBytes, short_bytes};

// ---- what is given

// The end style of a wire written without one: extended by half its width.
pub const DEFAULT_STYLE: u8 = 2;

// The flags that a wire is written with. A number and no enum: a style above 2 can be given, and is refused with 7 (the C interface, and `given_wire`, which may not change).
pub fn style_flags(style: Option<u8>) -> u8
    ensures { result ≡ style_of style }
{
    style.unwrap_or(DEFAULT_STYLE)
}

// What a property is of: the cell (CPRPTY), or the object that follows (PROPERTY).
#[derive(Clone, Copy)]
pub enum Owner {
    Cell,
    Object,
}

impl Owner {
    // A name that says what it gives: `Kind::from(owner)` would be no plainer.
    pub fn kind(self) -> Kind
        ensures { result ≡ property_kind self }
    {
        match self {
            Owner::Cell => Kind::Cprpty,
            Owner::Object => Kind::Property,
        }
    }
}

// The bytes that a date is written with, by a function that says so: bytes `from` a date would be no plainer. The writer checks these by the reader's own rule, so that there is one date rule.
pub fn date_bytes(d: Date) -> WordBytes
    ensures { result ≡ date_bytes d }
{
    let year = short_bytes(d.year);
    [
        year[0], year[1], d.month, d.day, d.hour, d.minute, d.second, 0,
    ]
}

// Tells the prover that a list holds longs and nothing else, which the round trip asks. It knows what a slice of bytes holds, but of signed numbers only those that are
// read. Nothing is made of what is read here, and the compiler leaves the loop out.
pub fn all_longs(zs: &[i32])
    ensures { Longs zs.now }
{
    for &z in zs {}
}

// ---- what is answered

// A writer between two calls. Only its place is kept: where its next record would begin, and what it has written before that.
#[derive(Clone, Copy)]
pub struct Writer {
    pub cursor: Cursor,
}

impl Writer {
    // After the first four bytes.
    pub fn start() -> Writer
        ensures { result ≡ first_writer }
    {
        Writer {
            cursor: Cursor::start(),
        }
    }
}

// What a call answers: the writer after the record, or why it is refused. A refused call changes nothing: its writer, which the caller still has, may go on.
pub type Answer = Result<Writer, Refusal>;

// ---- sizes: of the record that each call writes

// LIBRARY, STRUCT, CPRPTY, PROPERTY, a LAYER with a name and TEXT end in a text: their smallest size has the empty one, and each whole pair of bytes adds two.
// A function a kind, whose name says which record is measured: one that is given the smallest size would be no plainer.
pub fn library_size(name: &[u8]) -> usize
    ensures { result ≡ 38 + length name.now / 2 * 2 }
{
    Library::MIN_SIZE + name.len() / 2 * 2
}

pub fn struct_size(name: &[u8]) -> usize
    ensures { result ≡ 22 + length name.now / 2 * 2 }
{
    Struct::MIN_SIZE + name.len() / 2 * 2
}

// A CPRPTY or a PROPERTY.
pub fn property_size(value: &[u8]) -> usize
    ensures { result ≡ 10 + length value.now / 2 * 2 }
{
    Property::MIN_SIZE + value.len() / 2 * 2
}

pub fn named_size(name: &[u8]) -> usize
    ensures { result ≡ 10 + length name.now / 2 * 2 }
{
    Layer::MIN_NAMED_SIZE + name.len() / 2 * 2
}

pub fn text_size(label: &[u8]) -> usize
    ensures { result ≡ 18 + length label.now / 2 * 2 }
{
    Text::MIN_SIZE + label.len() / 2 * 2
}

pub fn box_size(sides: &[i32]) -> usize
    ensures { result ≡ 4 + 4 * length sides.now }
{
    Boxes::BASE_SIZE + LONG_SIZE * sides.len()
}

pub fn poly_size(points: &[i32]) -> usize
    ensures { result ≡ 4 + 4 * length points.now }
{
    Poly::BASE_SIZE + LONG_SIZE * points.len()
}

pub fn wire_size(points: &[i32]) -> usize
    ensures { result ≡ 8 + 4 * length points.now }
{
    Wire::BASE_SIZE + LONG_SIZE * points.len()
}

// The size of an SREF with these flags and this name.
pub fn sref_size(flags: u8, name: &[u8]) -> usize
    ensures { result ≡ sref_size flags (length name.now) }
{
    let l = sref_layout(flags);
    l.name + Sref::MIN_NAME + name.len() / 2 * 2
}
