// The judge: one record of a file at an offset, after a phase. With one caller in a program it is compiled into the caller's loop. With two it
// is not, and a record costs 8 ns more.
#![tactic(auto)]

ghost use Rattle.std.specs.Prelude.{◌≡◌, ◌≤◌, length};
ghost use Rattle.cgx_read_judge.specs.Judging.{Judges};

use cgx_format_headers::{Header, header_at};
use cgx_format_phases::{Phase, has_ended, is_allowed, phase_after};
use cgx_format_records::record_fault;
use cgx_spec::{Fault, FileRefusal, Kind};

// A good record, and the phase after it.
#[derive(Clone, Copy)]
pub struct Judged {
    pub header: Header,
    pub phase: Phase,
}

// The record at an offset after a phase; none at the end of an accepted file.
pub fn judge(file: &[u8], p: Phase, at: usize) -> Result<Option<Judged>, FileRefusal>
    requires { at ≤ length file.now }
    ensures { Judges file.now p at result }
{
    if has_ended(p) {
        if at == file.len() {
            return Ok(None);
        }
        return Err(Fault::Trailing.at(at));
    }
    let header = header_at(file, at)?;
    let phase = phase_after(p, header.kind);
    let from = at + Kind::HEADER_SIZE;
    let to = at + header.size;
    if let Err(fault) = record_fault(
        is_allowed(phase),
        header.kind,
        header.flags,
        &file[from..to],
    ) {
        return Err(fault.at(at));
    }
    Ok(Some(Judged { header, phase }))
}
