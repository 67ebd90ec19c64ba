// What the lister prints of a file: the offset and the name of each good known record, a line each, and the verdict.
#![tactic(auto)]

ghost use Rattle.std.specs.Prelude.{◌≡◌, ◌+◌, ◌≤◌, ◌<◌, length};
ghost use Rattle.cgx_spec.specs.Files.{opening};
ghost use Rattle.cgx_ask_listing.specs.Listing.{digit, decimal, name_end, line, last_line, lines_of, line_if, Listed, Stored};

use buffers::put_bytes;
use cgx_format_headers::check_opening;
use cgx_format_phases::Phase;
use cgx_read_judge::judge;
use cgx_spec::{FileRefusal, Kind, Verdict};

// The longest file that is listed.
pub const LIMIT: usize = 65536;

// Room for every listing: a record has 4 bytes or more, and its line 15 or fewer.
pub const ROOM: usize = 262144;

// Stores the listing of a file at the beginning of a buffer, and answers its length.
pub fn listing(file: &[u8], out: &mut [u8; ROOM]) -> usize
    ensures { Listed file.now out.old out.new result }
{
    if LIMIT < file.len() {
        return put_word(out, 0, b"too large\n");
    }
    if let Err(refusal) = check_opening(file) {
        return put_last(out, 0, Err(refusal));
    }
    put_records(file, out)
}

// The lines of the records and of the verdict.
fn put_records(file: &[u8], out: &mut [u8]) -> usize
    requires { (opening file.now ≡ 0) × (length file.now ≤ 65536) × (262144 ≤ length out.old) }
    ensures { Stored out.old 0 (lines_of file.now) out.new result }
{
    let mut p = Phase::Start;
    let mut at: usize = 4;
    let mut to: usize = 0;
    // By offset, since each record tells how far the next one is: no range and no chunks are plainer.
    loop {
        match judge(file, p, at) {
            Ok(Some(found)) => {
                let h = found.header;
                to = put_record(out, to, at, h.kind);
                p = found.phase;
                at += h.size;
            }
            Ok(None) => {
                return put_last(out, to, Ok(()));
            }
            Err(refusal) => {
                return put_last(out, to, Err(refusal));
            }
        }
    }
}

// ---- lines: each function stores from an offset on, and answers the offset after it: the buffer is lent (a rule of the project: no heap)

// The line of a record; nothing where its type is unknown.
fn put_record(out: &mut [u8], at: usize, offset: usize, t: Option<Kind>) -> usize
    requires { at + length (line_if t offset) ≤ length out.old }
    ensures { Stored out.old at (line_if t offset) out.new result }
{
    match t {
        Some(k) => put_line(out, at, offset, k),
        None => at,
    }
}

// Its offset and its name.
fn put_line(out: &mut [u8], at: usize, offset: usize, k: Kind) -> usize
    requires { at + length (line offset k) ≤ length out.old }
    ensures { Stored out.old at (line offset k) out.new result }
{
    let to = put_decimal(out, at, offset);
    put_word(out, to, name_end(k))
}

// The name of a kind between a space and the end of the line. Not by `Display` and `write!`: their contracts tell the bytes on Ok
// alone, and a listing cannot fail.
fn name_end(k: Kind) -> &'static [u8]
    ensures { result.now ≡ name_end k }
{
    match k {
        Kind::Library => b" LIBRARY\n",
        Kind::Struct => b" STRUCT\n",
        Kind::Cprpty => b" CPRPTY\n",
        Kind::Property => b" PROPERTY\n",
        Kind::Layer => b" LAYER\n",
        Kind::Box => b" BOX\n",
        Kind::Poly => b" POLY\n",
        Kind::Wire => b" WIRE\n",
        Kind::Text => b" TEXT\n",
        Kind::Sref => b" SREF\n",
        Kind::Endlib => b" ENDLIB\n",
    }
}

// The line of the verdict.
fn put_last(out: &mut [u8], at: usize, v: Verdict) -> usize
    requires { at + length (last_line v) ≤ length out.old }
    ensures { Stored out.old at (last_line v) out.new result }
{
    match v {
        Ok(()) => put_word(out, at, b"ok\n"),
        Err(refusal) => put_refusal(out, at, refusal),
    }
}

fn put_refusal(out: &mut [u8], at: usize, r: FileRefusal) -> usize
    requires { at + length (last_line (Err r)) ≤ length out.old }
    ensures { Stored out.old at (last_line (Err r)) out.new result }
{
    let a = put_word(out, at, b"refused ");
    let b = put_decimal(out, a, r.number as usize);
    let c = put_word(out, b, b" at ");
    let d = put_decimal(out, c, r.at);
    put_word(out, d, b"\n")
}

// The digits of a number, the high ones first. By hand, since `write!` tells the bytes only where it does not fail (as at `name_end`).
fn put_decimal(out: &mut [u8], at: usize, n: usize) -> usize
    requires { at + length (decimal n) ≤ length out.old }
    ensures { Stored out.old at (decimal n) out.new result }
{
    if n < 10 {
        return put_digit(out, at, n);
    }
    let to = put_decimal(out, at, n / 10);
    put_digit(out, to, n % 10)
}

fn put_digit(out: &mut [u8], at: usize, n: usize) -> usize
    requires { (at < length out.old) × (n < 10) }
    ensures { Stored out.old at (digit n) out.new result }
{
    out[at] = 48 + n as u8;
    at + 1
}

fn put_word(out: &mut [u8], at: usize, word: &[u8]) -> usize
    requires { at + length word.now ≤ length out.old }
    ensures { Stored out.old at word.now out.new result }
{
    put_bytes(out, at, word);
    at + word.len()
}
