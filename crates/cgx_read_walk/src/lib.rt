// A walk over a file: from the start, one known record at a step.
#![tactic(auto)]

ghost use Rattle.std.specs.Prelude.{◌≡◌, List, ℕ};
ghost use Rattle.cgx_format_cursor.specs.Cursors.{context_in};
ghost use Rattle.cgx_read_walk.specs.Walk.{start_of, answer_meant, Left, Located, StepMade, answer_from, Reached, SoughtIs};

use cgx_format_cursor::{Cursor, allows, is_forged, next_state};
use cgx_format_headers::{KnownRecord, check_opening, header_at};
use cgx_format_kinds::View;
use cgx_format_records::record_fault;
use cgx_read_views::view_at;
use cgx_spec::{Fault, FileRefusal, Kind, Refusal};

// What one step answers: the three answers that the papers name, which a `Result` of an `Option` would not make plainer.
#[derive(Clone, Copy)]
pub enum Outcome {
    // The next known record, and the place after it.
    Record(View, Cursor),
    Done,
    // The refusal, and the place that the step was given.
    Refused(Refusal, Cursor),
}

// The place of a walk's first step; else refusal 1 or 2, at 0.
pub fn start(file: &[u8]) -> Result<Cursor, FileRefusal>
    ensures { result ≡ start_of file.now }
{
    check_opening(file)?;
    Ok(Cursor::start())
}

// One step: unknown records are skipped, and a refusal after them names the bad record.
pub fn step(file: &[u8], place: Cursor) -> Outcome
    ensures { StepMade file.now place result }
{
    match seek(file, place) {
        Ok(Some(r)) => known(file, place, r),
        Ok(None) => Outcome::Done,
        Err(refusal) => Outcome::Refused(refusal, place),
    }
}

// What a step comes to before it judges a known record: that record, none at the end of a good file, or a refusal.
pub fn seek(file: &[u8], place: Cursor) -> Result<Option<KnownRecord>, Refusal>
    ensures { SoughtIs file.now place result }
{
    if is_forged(file.len(), place) {
        return Err(Fault::NoSuch.nowhere());
    }
    let s = place.state;
    let mut at = place.at;
    if s.ended {
        if at == file.len() {
            return Ok(None);
        }
        return Err(Refusal::from(Fault::Trailing.at(at)));
    }
    // By offset, since each record tells how far the next one is: no range and no chunks are plainer.
    loop {
        let h = header_at(file, at)?;
        if let Some(kind) = h.kind {
            return Ok(Some(KnownRecord {
                at,
                size: h.size,
                kind,
                flags: h.flags,
            }));
        }
        if !s.library {
            return Err(Refusal::from(Fault::Order.at(at)));
        }
        at += h.size;
    }
}

// A known record's view, and the place after it; or the first of the rules 6 to 12 that it breaks.
fn known(file: &[u8], place: Cursor, r: KnownRecord) -> Outcome
    requires { Reached file.now place.state r }
    ensures { (answer_meant file.now result ≡ answer_from file.now (context_in place.state) r.at) × Left place result × Located file.now result }
{
    let s = place.state;
    let from = r.at + Kind::HEADER_SIZE;
    let to = r.at + r.size;
    if let Err(fault) = record_fault(allows(s, r.kind), Some(r.kind), r.flags, &file[from..to]) {
        return Outcome::Refused(Refusal::from(fault.at(r.at)), place);
    }
    let after = next_state(s, r.at, r.kind);
    let v = view_at(file, r.at, r, s, after);
    Outcome::Record(
        v,
        Cursor {
            at: r.at + r.size,
            state: after,
        },
    )
}
