// The whole-file checker, with the length of the normal form on the way.
#![tactic(auto)]

ghost use Rattle.std.specs.Prelude.{◌≡◌};
ghost use Rattle.cgx_spec.specs.Numbers.{Bytes};
ghost use Rattle.cgx_spec.specs.Files.{verdict_of};
ghost use Rattle.cgx_read_check.specs.Measure.{measure_of, taken};

use cgx_format_headers::check_opening;
use cgx_format_phases::Phase;
use cgx_read_judge::judge;
use cgx_spec::{FileRefusal, Kind, Verdict};

// The verdict on a file: accepted, or the number and the place of its refusal. (A slice holds bytes, which is what demand 3 asks of a file.)
pub fn check(file: &[u8]) -> Verdict
    ensures value { result ≡ verdict_of file.now }
    ensures bytes { Bytes file.now }
{
    measure(file)?;
    Ok(())
}

// The length of the normal form of a file that is accepted: the first four bytes, and the known records as long as they are. Else why it is refused.
// The offset goes on by hand: each record says how far the next one is, and its phase what may follow (no plainer).
pub fn measure(file: &[u8]) -> Result<usize, FileRefusal>
    ensures { result ≡ measure_of file.now }
{
    check_opening(file)?;
    let mut p = Phase::Start;
    let mut at: usize = 4;
    let mut length: usize = 4;
    while let Some(found) = judge(file, p, at)? {
        let h = found.header;
        length += taken_by(h.kind, h.size);
        p = found.phase;
        at += h.size;
    }
    Ok(length)
}

// The bytes that a record takes in the normal form: an unknown one takes none.
fn taken_by(t: Option<Kind>, size: usize) -> usize
    ensures { result ≡ taken t size }
{
    match t {
        Some(_) => size,
        None => 0,
    }
}
