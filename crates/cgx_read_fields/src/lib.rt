// The typed fields of a record, read from the file: one small function a kind, each with the offsets of 01's table, also where two kinds are alike (no plainer).
// Texts and lists are told by their offsets in the file.
#![tactic(auto)]

ghost use Rattle.std.specs.Prelude.{◌≡◌, true, cond, ◌+◌, ◌-◌, ◌*◌, ◌%◌, ◌≤◌, ◌<◌, length, take, drop};
ghost use Rattle.cgx_spec.specs.Numbers.{long_of};
ghost use Rattle.cgx_spec.specs.Fields.{date, string, optional, value, pieces, values};
ghost use Rattle.cgx_spec.specs.Kinds.{layout};
ghost use Rattle.cgx_spec.specs.Walking.{rec_at};
ghost use Rattle.cgx_format_kinds.specs.Meant.{span_text, name_text, date_numbers, optional_value, field_values, fields_kind};
ghost use Rattle.cgx_format_sref.specs.Layouts.{sref_layout};
ghost use Rattle.cgx_read_fields.specs.Views.{Readable, FieldsAt, ReadAt, ReadAlike, TextAt, NameAt, word_at, real_at, AnswerAt, StringAt, OptionalAt, real_if, ArrayIs};

use cgx_format_kinds::{
    Boxes, Cprpty, DataType, Date, Fields, Grid, ItemList, Layer, LayerNo, Library, Point, Poly,
    Property, Sref, Struct, Text, TextSpan, Wire,
};
use cgx_format_sref::sref_layout;
use cgx_spec::{Kind, Real};
use numbers::{long_at, short_at, word_of};
use reals::real_of;

// The fields of the record of `size` bytes at `at`, of this kind and with these flags.
pub fn fields_of(f: &[u8], k: Kind, fl: u8, at: usize, size: usize) -> Fields
    requires { Readable k fl f.now at size }
    ensures result_value { field_values f.now result ≡ values (pieces (layout k fl) (rec_at f.now at size).body) }
    ensures kind { fields_kind result ≡ k }
    ensures located { FieldsAt fl f.now at (at + size) result }
{
    match k {
        Kind::Library => Fields::Library(library_of(f, at, size)),
        Kind::Struct => Fields::Struct(struct_of(f, at, size)),
        Kind::Cprpty => Fields::Cprpty(cprpty_of(f, at, size)),
        Kind::Property => Fields::Property(property_of(f, at, size)),
        Kind::Layer => Fields::Layer(layer_of(f, at, size)),
        Kind::Box => Fields::Box(box_of(f, at, size)),
        Kind::Poly => Fields::Poly(poly_of(f, at, size)),
        Kind::Wire => Fields::Wire(wire_of(f, at, size)),
        Kind::Text => Fields::Text(text_of(f, at, size)),
        Kind::Sref => Fields::Sref(sref_of(f, fl, at, size)),
        Kind::Endlib => Fields::Endlib,
    }
}

// ---- a kind each

fn library_of(f: &[u8], at: usize, size: usize) -> Library
    requires { StringAt f.now (at + 36) (size - 36) }
    ensures { ReadAlike Kind.Library f.now at size (Fields.Library result) }
{
    let munit = real_at(f, at + 4);
    let uunit = real_at(f, at + 12);
    let created = date_at(f, at + 20);
    let modified = date_at(f, at + 28);
    let name = text_at(f, at + 36, size - 36);
    Library {
        munit,
        uunit,
        created,
        modified,
        name,
    }
}

pub fn struct_of(f: &[u8], at: usize, size: usize) -> Struct
    requires { StringAt f.now (at + 20) (size - 20) }
    ensures { ReadAlike Kind.Struct f.now at size (Fields.Struct result) }
{
    let created = date_at(f, at + 4);
    let modified = date_at(f, at + 12);
    let name = text_at(f, at + 20, size - 20);
    Struct {
        created,
        modified,
        name,
    }
}

pub fn cprpty_of(f: &[u8], at: usize, size: usize) -> Cprpty
    requires { StringAt f.now (at + 8) (size - 8) }
    ensures { ReadAlike Kind.Cprpty f.now at size (Fields.Cprpty result) }
{
    let number = long_at(f, at + 4);
    let value = text_at(f, at + 8, size - 8);
    Cprpty { number, value }
}

pub fn property_of(f: &[u8], at: usize, size: usize) -> Property
    requires { StringAt f.now (at + 8) (size - 8) }
    ensures { ReadAlike Kind.Property f.now at size (Fields.Property result) }
{
    let number = long_at(f, at + 4);
    let value = text_at(f, at + 8, size - 8);
    Property { number, value }
}

pub fn layer_of(f: &[u8], at: usize, size: usize) -> Layer
    requires { (8 ≤ size) × OptionalAt f.now (at + 8) (size - 8) }
    ensures { ReadAlike Kind.Layer f.now at size (Fields.Layer result) }
{
    let number = short_at(f, at + 4);
    let datatype = short_at(f, at + 6);
    let name = name_at(f, at + 8, size - 8);
    Layer {
        number: LayerNo(number),
        datatype: DataType(datatype),
        name,
    }
}

pub fn box_of(f: &[u8], at: usize, size: usize) -> Boxes
    requires { (4 ≤ size) × (at + size ≤ length f.now) × ((size - 4) % 16 ≡ 0) }
    ensures { ReadAlike Kind.Box f.now at size (Fields.Box result) }
{
    let boxes = list_of(at + 4, size - 4, Boxes::BOX_SIZE);
    Boxes { boxes }
}

pub fn poly_of(f: &[u8], at: usize, size: usize) -> Poly
    requires { (4 ≤ size) × (at + size ≤ length f.now) × ((size - 4) % 8 ≡ 0) }
    ensures { ReadAlike Kind.Poly f.now at size (Fields.Poly result) }
{
    let points = list_of(at + 4, size - 4, Poly::PAIR_SIZE);
    Poly { points }
}

pub fn wire_of(f: &[u8], at: usize, size: usize) -> Wire
    requires { (8 ≤ size) × (at + size ≤ length f.now) × ((size - 8) % 8 ≡ 0) }
    ensures { ReadAlike Kind.Wire f.now at size (Fields.Wire result) }
{
    let width = long_at(f, at + 4);
    let points = list_of(at + 8, size - 8, Wire::PAIR_SIZE);
    Wire { width, points }
}

fn text_of(f: &[u8], at: usize, size: usize) -> Text
    requires { StringAt f.now (at + 16) (size - 16) }
    ensures { ReadAlike Kind.Text f.now at size (Fields.Text result) }
{
    let anchor = point_at(f, at + 4);
    let width = long_at(f, at + 12);
    let label = text_at(f, at + 16, size - 16);
    Text {
        at: anchor,
        width,
        label,
    }
}

// Each field that its flags say is there is read right after those before it.
fn sref_of(f: &[u8], fl: u8, at: usize, size: usize) -> Sref
    requires { StringAt f.now (at + (sref_layout fl).name) (size - (sref_layout fl).name) }
    ensures { ReadAt Kind.Sref fl f.now at size (Fields.Sref result) }
{
    let l = sref_layout(fl);
    let anchor = point_at(f, at + 4);
    let angle = real_if(f, at + 12, l.turned);
    let magnif = real_if(f, at + l.magnif, l.scaled);
    let array = array_if(f, at, l.array, l.repeated);
    let name = text_at(f, at + l.name, size - l.name);
    Sref {
        at: anchor,
        angle,
        magnif,
        array,
        name,
    }
}

// ---- fields

fn real_at(f: &[u8], at: usize) -> Real
    requires { at + 8 ≤ length f.now }
    ensures { result ≡ real_at f.now at }
{
    real_of(word_at(f, at))
}

// A real as the file has it.
pub fn word_at(f: &[u8], at: usize) -> u64
    requires { at + 8 ≤ length f.now }
    ensures { result ≡ word_at f.now at }
{
    let end = at + 8;
    word_of(&f[at..end])
}

pub fn date_at(f: &[u8], at: usize) -> Date
    requires { at + 8 ≤ length f.now }
    ensures { date_numbers result ≡ value date (take 8 (drop at f.now)) }
{
    Date {
        year: short_at(f, at),
        month: f[at + 2],
        day: f[at + 3],
        hour: f[at + 4],
        minute: f[at + 5],
        second: f[at + 6],
    }
}

fn point_at(f: &[u8], at: usize) -> Point
    requires { at + 8 ≤ length f.now }
    ensures { (result.x ≡ long_of (take 4 (drop at f.now))) × (result.y ≡ long_of (take 4 (drop (at + 4) f.now))) }
{
    let x = long_at(f, at);
    let y = long_at(f, at + 4);
    Point { x, y }
}

// A good string ends in one zero byte or in two, so that its last two bytes tell where its text ends.
pub fn text_at(f: &[u8], at: usize, len: usize) -> TextSpan
    requires { StringAt f.now at len }
    ensures { (span_text f.now result ≡ value string (take len (drop at f.now))) × TextAt at (at + len) result }
{
    let n = len - 2;
    if f[at + n] == 0 {
        return TextSpan { at, len: n };
    }
    TextSpan { at, len: n + 1 }
}

fn name_at(f: &[u8], at: usize, len: usize) -> Option<TextSpan>
    requires { OptionalAt f.now at len }
    ensures { (name_text f.now result ≡ value optional (take len (drop at f.now))) × NameAt at (at + len) result }
{
    if len == 0 {
        None
    } else {
        Some(text_at(f, at, len))
    }
}

// As many things of `unit` bytes as `len` bytes are.
fn list_of(first: usize, len: usize, unit: usize) -> ItemList
    requires { (0 < unit) × (len % unit ≡ 0) }
    ensures { (result.first ≡ first) × (unit * result.count ≡ len) }
{
    ItemList {
        first,
        count: len / unit,
    }
}

// ---- fields that an SREF may not have
// A flag of the record says whether the field is there, and then where it is: only what is read becomes an `Option`.

fn real_if(f: &[u8], at: usize, there: bool) -> Option<Real>
    requires { there ≡ true → at + 8 ≤ length f.now }
    ensures { (optional_value result ≡ real_if there f.now at) × AnswerAt f.now at result }
{
    if there { Some(real_at(f, at)) } else { None }
}

// Its word, or 0 for none: a word of a C caller's view, which says so (the C interface), and no `Option`.
pub fn word_if(f: &[u8], at: usize, there: bool) -> u64
    requires { there ≡ true → at + 8 ≤ length f.now }
    ensures { result ≡ cond there (word_at f.now at) 0 }
{
    if there { word_at(f, at) } else { 0 }
}

// From byte o of the record at `at` on.
fn array_if(f: &[u8], at: usize, o: usize, there: bool) -> Option<Grid>
    requires { (o ≤ 100) × (there ≡ true → at + (o + 24) ≤ length f.now) }
    ensures { ArrayIs there f.now at o result }
{
    if there {
        let cols = long_at(f, at + o);
        let rows = long_at(f, at + (o + 4));
        let across = point_at(f, at + (o + 8));
        let up = point_at(f, at + (o + 16));
        Some(Grid {
            cols,
            rows,
            across,
            up,
        })
    } else {
        None
    }
}
