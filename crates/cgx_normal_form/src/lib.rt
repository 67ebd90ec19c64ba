// The normal-form maker.
#![tactic(auto)]

ghost use Rattle.std.specs.Prelude.{◌≡◌, ◌≤◌, length};
ghost use Rattle.cgx_spec.specs.Files.{Accepted, normal_form};
ghost use Rattle.buffers.specs.Put.{put};
ghost use Rattle.cgx_normal_form.specs.NormalAnswer.{normal_answer_of, output_after};

use buffers::put_bytes;
use cgx_normal_copy::copy_record;
use cgx_read_check::measure;
use cgx_read_sequence::next_known;
use cgx_spec::{Fault, Refusal};

// Makes the normal form of an accepted file at the beginning of the output, and answers its length: else the file's refusal, or 14. On a refusal no byte of the output changes.
// A lent output and the length of what stands in it (the C interface; no heap).
pub fn normal_form(file: &[u8], out: &mut [u8]) -> Result<usize, Refusal>
    ensures value { result ≡ normal_answer_of file.now (length out.old) }
    ensures output { out.new ≡ output_after file.now out.old }
{
    let length = measure(file)?;
    if out.len() < length {
        return Err(Fault::Room.nowhere());
    }
    copy_records(file, out);
    Ok(length)
}

// Writes the normal form to the beginning of an output that has room for it. Both offsets go on by hand: each record says how far the next one is (no plainer).
fn copy_records(file: &[u8], out: &mut [u8])
    requires { Accepted file.now × (length (normal_form file.now) ≤ length out.old) }
    ensures { out.new ≡ put out.old 0 (normal_form file.now) }
{
    put_bytes(out, 0, &file[0..4]);
    let mut to: usize = 4;
    let mut at: usize = 4;
    while let Some(r) = next_known(file, at) {
        copy_record(file, r.kind, r.at, r.size, out, to);
        to += r.size;
        at = r.at + r.size;
    }
}
