// The kinds of record as a reader gives them: the typed fields of each, and its limits as named constants.
#![tactic(auto)]

use cgx_spec::{Kind, Real, Run};

// ---- what fields are made of

// The text of a string, a part of the file. Offset and length, as C has them, and no slice: fields outlive the loan of the file (the C interface).
#[derive(Clone, Copy)]
pub struct TextSpan {
    pub at: usize,
    pub len: usize,
}

#[derive(Clone, Copy)]
pub struct Date {
    pub year: i16,
    pub month: u8,
    pub day: u8,
    pub hour: u8,
    pub minute: u8,
    pub second: u8,
}

// Readers have confused the two: each is a number of its own kind.
#[derive(Clone, Copy)]
pub struct LayerNo(pub i16);

#[derive(Clone, Copy)]
pub struct DataType(pub i16);

#[derive(Clone, Copy)]
pub struct Point {
    pub x: i32,
    pub y: i32,
}

// Boxes or points, one after another in the file: the offset of the first, and how many. No `TextSpan`, which counts bytes (no plainer).
#[derive(Clone, Copy)]
pub struct ItemList {
    pub first: usize,
    pub count: usize,
}

// The least rectangle around something, or a box of a BOX.
#[derive(Clone, Copy)]
pub struct Sides {
    pub left: i32,
    pub bottom: i32,
    pub right: i32,
    pub top: i32,
}

// The array of an SREF: its columns, rows and two points.
#[derive(Clone, Copy)]
pub struct Grid {
    pub cols: i32,
    pub rows: i32,
    pub across: Point,
    pub up: Point,
}

// ---- the eleven kinds

#[derive(Clone, Copy)]
pub struct Library {
    pub munit: Real,
    pub uunit: Real,
    pub created: Date,
    pub modified: Date,
    pub name: TextSpan,
}

#[derive(Clone, Copy)]
pub struct Struct {
    pub created: Date,
    pub modified: Date,
    pub name: TextSpan,
}

// Of the same members as `Property`, and yet a type of its own: of a cell's and of an object's one cannot be taken for the other (no plainer).
#[derive(Clone, Copy)]
pub struct Cprpty {
    pub number: i32,
    pub value: TextSpan,
}

#[derive(Clone, Copy)]
pub struct Property {
    pub number: i32,
    pub value: TextSpan,
}

#[derive(Clone, Copy)]
pub struct Layer {
    pub number: LayerNo,
    pub datatype: DataType,
    pub name: Option<TextSpan>,
}

#[derive(Clone, Copy)]
pub struct Boxes {
    pub boxes: ItemList,
}

#[derive(Clone, Copy)]
pub struct Poly {
    pub points: ItemList,
}

#[derive(Clone, Copy)]
pub struct Wire {
    pub width: i32,
    pub points: ItemList,
}

#[derive(Clone, Copy)]
pub struct Text {
    pub at: Point,
    pub width: i32,
    pub label: TextSpan,
}

#[derive(Clone, Copy)]
pub struct Sref {
    pub at: Point,
    pub angle: Option<Real>,
    pub magnif: Option<Real>,
    pub array: Option<Grid>,
    pub name: TextSpan,
}

#[derive(Clone, Copy)]
pub enum Fields {
    Library(Library),
    Struct(Struct),
    Cprpty(Cprpty),
    Property(Property),
    Layer(Layer),
    Box(Boxes),
    Poly(Poly),
    Wire(Wire),
    Text(Text),
    Sref(Sref),
    Endlib,
}

// A record as a walk gives it, with the offsets of its STRUCT and LAYER, and the run of properties that it takes.
#[derive(Clone, Copy)]
pub struct View {
    pub kind: Kind,
    pub flags: u8,
    pub fields: Fields,
    pub at: usize,
    pub cell: Option<usize>,
    pub layer: Option<usize>,
    pub run: Option<Run>,
}

// ---- limits: sizes include the header, whose size and the size that no record passes are constants of `Kind`

// Of a kind that ends in a text the smallest record has the empty text, which takes two bytes.
impl Library {
    pub const MIN_SIZE: usize = 38;
}

impl Struct {
    pub const MIN_SIZE: usize = 22;
}

impl Cprpty {
    pub const MIN_SIZE: usize = 10;
}

impl Property {
    pub const MIN_SIZE: usize = 10;
}

impl Layer {
    // Without a name.
    pub const MIN_SIZE: usize = 8;

    // With one.
    pub const MIN_NAMED_SIZE: usize = 10;
}

impl Boxes {
    // The bytes before the first box.
    pub const BASE_SIZE: usize = Kind::HEADER_SIZE;

    // A box has so many bytes, and so many longs: left, bottom, right, top.
    pub const BOX_SIZE: usize = 16;

    pub const BOX_LONGS: usize = 4;

    pub const MIN_COUNT: usize = 1;

    pub const MAX_COUNT: usize = 4095;
}

impl Poly {
    // The bytes before the first pair.
    pub const BASE_SIZE: usize = Kind::HEADER_SIZE;

    // A pair has so many bytes, and so many longs: x, y.
    pub const PAIR_SIZE: usize = 8;

    pub const PAIR_LONGS: usize = 2;

    pub const MIN_COUNT: usize = 4;

    pub const MAX_COUNT: usize = 8191;
}

// Constants of its own, also where they are a POLY's: a pair is the same by the format's table, and not because a wire has a polygon's (no plainer).
impl Wire {
    pub const WIDTH_SIZE: usize = 4;

    // The bytes before the first pair.
    pub const BASE_SIZE: usize = Kind::HEADER_SIZE + Wire::WIDTH_SIZE;

    // A pair has so many bytes, and so many longs: x, y.
    pub const PAIR_SIZE: usize = 8;

    pub const PAIR_LONGS: usize = 2;

    pub const MIN_COUNT: usize = 1;

    pub const MAX_COUNT: usize = 8190;

    pub const MAX_FLAGS: u8 = 2;
}

impl Text {
    pub const MIN_SIZE: usize = 18;
}

impl Sref {
    // Without angle, magnif and array.
    pub const MIN_SIZE: usize = Kind::HEADER_SIZE + Sref::POINT_SIZE + Sref::MIN_NAME;

    // x and y, which every SREF has.
    pub const POINT_SIZE: usize = 8;

    // An angle or a magnif.
    pub const REAL_SIZE: usize = 8;

    // Columns, rows and two points.
    pub const ARRAY_SIZE: usize = 24;

    pub const MIN_NAME: usize = 2;

    pub const MAX_FLAGS: u8 = 15;
}

// An ENDLIB has no fields.
#[derive(Clone, Copy)]
pub struct Endlib;

impl Endlib {
    pub const SIZE: usize = Kind::HEADER_SIZE;
}
