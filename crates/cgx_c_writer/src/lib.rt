// The writer in a C caller's memory. A caller lends a cgx_writer of include/cgx.h, whose words are those of its place, a number for the offset that a refusal names, and the
// structs that a call is given. specs/Lent.antt says what a call leaves in them, specs/Parts.antt what those structs say.
#![tactic(auto)]

ghost use Rattle.std.specs.Prelude.{◌≡◌};
ghost use Rattle.cgx_c_writer.specs.Lent.{writer_in, number_told, words_after, offset_told};
ghost use Rattle.cgx_c_writer.specs.Parts.{date_in, real_in, low_long, high_long, point_in, grid_in, placement_in, layer_no_in, data_type_in};

use cgx_c_places::{PlaceWords, cursor_of, put_cursor, put_offset};
use cgx_format_kinds::{DataType, Date, Grid, LayerNo, Point};
use cgx_spec::Refusal;
use cgx_write_given::Writer;
use numbers::{WordBytes, short_of, signed_long, word_bytes};

// ---- the writer

pub fn writer_of(w: &PlaceWords) -> Writer
    ensures { result ≡ writer_in w.now }
{
    Writer {
        cursor: cursor_of(w),
    }
}

// Leaves what a call answers in the lent memory. A refusal changes no word of the writer; where it names no offset, the caller's number stays.
pub fn settle(answer: Result<Writer, Refusal>, w: &mut PlaceWords, at: &mut u64) -> u32
    ensures { (result ≡ number_told answer) × (w.new ≡ words_after w.old answer) × (at.new ≡ offset_told answer at.old) }
{
    if let Err(r) = answer {
        put_offset(at, r.at);
    }
    settle_start(answer, w)
}

// The number and the writer's words: all that is left of what a start answers, which names no offset.
pub fn settle_start(answer: Result<Writer, Refusal>, w: &mut PlaceWords) -> u32
    ensures { (result ≡ number_told answer) × (w.new ≡ words_after w.old answer) }
{
    match answer {
        Ok(writer) => {
            put_cursor(w, writer.cursor);
            0
        }
        Err(r) => r.number as u32,
    }
}

// ---- what a call is given
// Functions and no `From`: words and what they say are types of other crates, all but `Placement`, which is read as the others are.

// The year's low byte comes first, and the last byte is not looked at.
pub fn date_of(d: &[u8; 8]) -> Date
    ensures { result ≡ date_in d.now }
{
    let low = d[0];
    let high = d[1];
    let month = d[2];
    let day = d[3];
    let hour = d[4];
    let minute = d[5];
    let second = d[6];
    Date {
        year: short_of(high, low),
        month,
        day,
        hour,
        minute,
        second,
    }
}

// The eight bytes of a real, as a file has them.
pub fn real_of(r: &[u64; 1]) -> WordBytes
    ensures { result ≡ real_in r.now }
{
    word_bytes(r[0])
}

pub fn layer_no(id: &[i16; 2]) -> LayerNo
    ensures { result ≡ layer_no_in id.now }
{
    let number = id[0];
    LayerNo(number)
}

pub fn data_type(id: &[i16; 2]) -> DataType
    ensures { result ≡ data_type_in id.now }
{
    let datatype = id[1];
    DataType(datatype)
}

// Where an SREF shows its cell.
#[derive(Clone, Copy)]
pub struct Placement {
    pub at: Point,
    pub angle: WordBytes,
    pub magnif: WordBytes,
    pub grid: Grid,
}

pub fn placement_of(p: &[u64; 6]) -> Placement
    ensures { result ≡ placement_in p.now }
{
    let at = p[0];
    let angle = p[1];
    let magnif = p[2];
    let counts = p[3];
    let across = p[4];
    let up = p[5];
    Placement {
        at: point_of(at),
        angle: word_bytes(angle),
        magnif: word_bytes(magnif),
        grid: grid_of(counts, across, up),
    }
}

fn grid_of(counts: u64, across: u64, up: u64) -> Grid
    ensures { result ≡ grid_in counts across up }
{
    Grid {
        cols: low_long(counts),
        rows: high_long(counts),
        across: point_of(across),
        up: point_of(up),
    }
}

fn point_of(w: u64) -> Point
    ensures { result ≡ point_in w }
{
    Point {
        x: low_long(w),
        y: high_long(w),
    }
}

// A function for each half: one that is given the half would be no plainer.
fn low_long(w: u64) -> i32
    ensures { result ≡ low_long w }
{
    signed_long((w % 0x1_0000_0000) as u32)
}

fn high_long(w: u64) -> i32
    ensures { result ≡ high_long w }
{
    signed_long((w / 0x1_0000_0000) as u32)
}
