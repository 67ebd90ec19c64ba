// The types of the definitions in specs/, which all code above shares, but for Context, Need and Place: code has a cursor in their stead (`cgx_format_cursor`).
#![tactic(auto)]

ghost use Rattle.std.specs.Prelude.{◌≡◌};
ghost use Rattle.cgx_spec.specs.Kinds.{Converts};
ghost use Rattle.cgx_spec.specs.Verdicts.{fault_number, of_file};

// The eleven kinds of record, in the order of their type bytes 0 to 10: `k as u8` is the type byte.
#[derive(Clone, Copy, Debug, PartialEq, Eq)]
pub enum Kind {
    Library,
    Struct,
    Cprpty,
    Property,
    Layer,
    Box,
    Poly,
    Wire,
    Text,
    Sref,
    Endlib,
}

// The limits that every kind shares; those of each kind are constants of its own struct, in `cgx_format_kinds`.
impl Kind {
    // Size, type and flags: no record is shorter.
    pub const HEADER_SIZE: usize = 4;

    // No record is longer, its header included.
    pub const MAX_SIZE: usize = 65534;
}

// A type byte that is no kind's: 11 to 255.
#[derive(Clone, Copy, Debug, PartialEq, Eq)]
pub struct UnknownType(pub u8);

impl TryFrom<u8> for Kind {
    type Error = UnknownType;

    ghost try_from_gives = { Converts };

    #[tactic(auto, unfolding(crate::specs::Kinds::kind_of))]
    fn try_from(t: u8) -> Result<Self, UnknownType> {
        match t {
            0 => Ok(Kind::Library),
            1 => Ok(Kind::Struct),
            2 => Ok(Kind::Cprpty),
            3 => Ok(Kind::Property),
            4 => Ok(Kind::Layer),
            5 => Ok(Kind::Box),
            6 => Ok(Kind::Poly),
            7 => Ok(Kind::Wire),
            8 => Ok(Kind::Text),
            9 => Ok(Kind::Sref),
            10 => Ok(Kind::Endlib),
            _ => Err(UnknownType(t)),
        }
    }
}

// PROPERTY records that await their object, or belong to one: the offset of the first, and how many. No slice: they may be far apart in the file.
#[derive(Clone, Copy)]
pub struct Run {
    pub first: usize,
    pub count: usize,
}

// What has been read before a record.
#[derive(Clone, Copy)]
pub struct Context {
    // LIBRARY has been read.
    pub library: bool,
    // The offsets of the open cell's STRUCT and of the LAYER in force.
    pub cell: Option<usize>,
    pub layer: Option<usize>,
    // Only CPRPTY records since the cell's STRUCT.
    pub fresh: bool,
    pub run: Option<Run>,
    // ENDLIB has been read.
    pub ended: bool,
}

// What a record may need of the context before it, in the order in which rule 6 looks at them.
#[derive(Clone, Copy)]
pub enum Need {
    LibraryBefore,
    NoLibraryBefore,
    OpenCell,
    LayerInForce,
    NoneAwaiting,
    OnlyCprpty,
}

// Where a walk is: the offset of the next record and the context so far.
#[derive(Clone, Copy)]
pub struct Place {
    pub at: usize,
    pub context: Context,
}

// Why something is refused: the refusals of 01's table, by their numbers. Their names are those of include/cgx.h.
#[derive(Clone, Copy, PartialEq, Eq)]
pub enum Fault {
    NotCgx = 1,
    Level = 2,
    NoEndlib = 3,
    Cut = 4,
    Size = 5,
    Order = 6,
    Flags = 7,
    Length = 8,
    Date = 9,
    Number = 10,
    String = 11,
    NotClosed = 12,
    Trailing = 13,
    Room = 14,
    TooLarge = 15,
    NoSuch = 16,
}

impl Fault {
    pub fn number(self) -> u8
        ensures { result ≡ fault_number self }
    {
        self as u8
    }

    // The refusal of a file that names this place.
    pub fn at(self, at: usize) -> FileRefusal
        ensures { result ≡ record { number = fault_number self; at = at } }
    {
        FileRefusal {
            number: self.number(),
            at,
        }
    }

    // The refusal of a call that names no place.
    pub fn nowhere(self) -> Refusal
        ensures { result ≡ record { number = fault_number self; at = None } }
    {
        Refusal {
            number: self.number(),
            at: None,
        }
    }
}

// Why a file is refused: the refusal's number, and the place in the file that it names. The number stands here and not the `Fault`: it is what the definitions,
// C and the lister name a refusal by, and each would have to turn a `Fault` into it (no plainer).
#[derive(Clone, Copy)]
pub struct FileRefusal {
    pub number: u8,
    pub at: usize,
}

// What is said of a whole file: it is accepted, or why not.
pub type Verdict = Result<(), FileRefusal>;

// Why a call is refused: the refusal's number, and the place that it names, if any.
#[derive(Clone, Copy)]
pub struct Refusal {
    pub number: u8,
    pub at: Option<usize>,
}

impl From<FileRefusal> for Refusal {
    ghost from_gives = { λ r q. q ≡ of_file r };

    fn from(r: FileRefusal) -> Refusal {
        Refusal {
            number: r.number,
            at: Some(r.at),
        }
    }
}

// A real as the double that equals it, or by its parts where no double does. Both are answers and neither is a failure, so that a `Result` would be no plainer.
#[derive(Clone, Copy)]
pub enum Real {
    Exact(f64),
    Inexact { negative: bool, e: u8, m: u64 },
}
