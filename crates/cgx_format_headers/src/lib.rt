// The first four bytes of a file, and a record's header: size, kind and flags, read once.
#![tactic(auto)]

ghost use Rattle.std.specs.Prelude.{◌≡◌, ◌+◌, ◌≤◌, ◌<◌, length};
ghost use Rattle.cgx_spec.specs.Kinds.{kind_of};
ghost use Rattle.cgx_spec.specs.Files.{opening};
ghost use Rattle.cgx_format_headers.specs.Headers.{opened, header_of, Heads};

use cgx_spec::{Fault, FileRefusal, Kind, Verdict};
use numbers::unsigned_at;

#[derive(Clone, Copy)]
pub struct Header {
    pub size: usize,
    // None where the type is unknown.
    pub kind: Option<Kind>,
    pub flags: u8,
}

// A record of a known kind: its offset, and its header.
#[derive(Clone, Copy)]
pub struct KnownRecord {
    pub at: usize,
    pub size: usize,
    pub kind: Kind,
    pub flags: u8,
}

// Whether the first four bytes of a file are those of a file; else refusal 1 or 2, at 0.
pub fn check_opening(s: &[u8]) -> Verdict
    ensures { result ≡ opened (opening s.now) }
{
    if s.len() < 4 {
        return Err(Fault::NotCgx.at(0));
    }
    if s[0] != b'c' {
        return Err(Fault::NotCgx.at(0));
    }
    if s[1] != b'g' {
        return Err(Fault::NotCgx.at(0));
    }
    if s[2] != b'x' {
        return Err(Fault::NotCgx.at(0));
    }
    if s[3] != 0 {
        return Err(Fault::Level.at(0));
    }
    Ok(())
}

// The header at an offset, or why there is none: fewer than four bytes (3, 4), then 5, then 4 by size.
pub fn header_at(s: &[u8], at: usize) -> Result<Header, FileRefusal>
    requires { at ≤ length s.now }
    ensures { Heads s.now at result }
{
    let left = s.len() - at;
    if left == 0 {
        return Err(Fault::NoEndlib.at(at));
    }
    if left < Kind::HEADER_SIZE {
        return Err(Fault::Cut.at(at));
    }
    let h = header_of(s, at);
    let size = h.size;
    if size % 2 == 1 {
        return Err(Fault::Size.at(at));
    }
    if size < Kind::HEADER_SIZE {
        return Err(Fault::Size.at(at));
    }
    if left < size {
        return Err(Fault::Cut.at(at));
    }
    Ok(h)
}

// The header at an offset with four bytes or more, of any size.
pub fn header_of(s: &[u8], at: usize) -> Header
    requires { at + 4 ≤ length s.now }
    ensures { (result ≡ header_of s.now at) × (result.size < 65536) }
{
    let size = unsigned_at(s, at) as usize;
    // Types from 11 on are unknown.
    let kind = Kind::try_from(s[at + 2]).ok();
    let flags = s[at + 3];
    Header { size, kind, flags }
}
