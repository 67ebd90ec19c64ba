// The lister's input and output. Where the bytes of the reader are known, as of one over memory, so is what is written of them:
// `listing_of` says it. Of the process's own input and output no contract can speak.
#![tactic(auto)]

ghost use Rattle.std.specs.Prelude.{◌<◌, ◌≤◌, length, take, OnOk, IfSome};
ghost use Rattle.std.specs.Io.KnownBytes.{Appends, Consumes, IsAtEnd};
ghost use Rattle.cgx_ask_listing.specs.Listing.{listing_of};

use cgx_ask_listing::{LIMIT, ROOM, listing};
use std::io;
use std::io::{Read, Write};

// Writes the listing of what can be read. One byte more than the limit is enough to tell that it is too large. Where a read fails,
// what came before it is listed, and then the read's error is returned.
pub fn list_from<R: Read, W: Write>(from: &mut R, to: &mut W) -> io::Result<()>
    ensures { OnOk result (IfSome (R.remaining from.old) (λ f. Appends (W.contents to.old) (W.contents to.new) (listing_of f))) }
{
    // Fixed, here and below, with the length beside it (a rule of the project: no heap).
    let mut buf = [0u8; LIMIT + 1];
    let (n, end) = read_full(from, &mut buf);
    list(&buf[..n], to)?;
    end
}

// Reads until the buffer is full, the input ends or a read fails. Answers how many bytes are then at its beginning, and the error. A loop of its own, since std's
// `read_to_end` takes an allocator (a rule of the project: no heap) and `read_exact` tells no length.
fn read_full<R: Read>(from: &mut R, buf: &mut [u8]) -> (usize, io::Result<()>)
    ensures inside { result.0 ≤ length buf.new }
    ensures bytes { Consumes (R.remaining from.old) (R.remaining from.new) (take result.0 buf.new) }
    ensures end { OnOk result.1 (result.0 < length buf.new → IsAtEnd (R.remaining from.new)) }
{
    let mut done = 0;
    while done < buf.len() {
        match from.read(&mut buf[done..]) {
            Ok(0) => return (done, Ok(())),
            Ok(n) => done += n,
            Err(e) => return (done, Err(e)),
        }
    }
    (done, Ok(()))
}

fn list<W: Write>(file: &[u8], to: &mut W) -> io::Result<()>
    ensures { OnOk result (Appends (W.contents to.old) (W.contents to.new) (listing_of file.now)) }
{
    let mut out = [0u8; ROOM];
    let n = listing(file, &mut out);
    to.write_all(&out[..n])
}
