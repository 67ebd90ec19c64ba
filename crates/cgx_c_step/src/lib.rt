// A step of a walk in a C caller's memory: over the place, the view and the number for an offset that it lends.
#![tactic(auto)]

ghost use Rattle.std.specs.Prelude.{◌≡◌};
ghost use Rattle.cgx_spec.specs.Verdicts.{numbered};
ghost use Rattle.cgx_read_walk.specs.Walk.{Reached};
ghost use Rattle.cgx_c_step.specs.Lent.{StepLent, RecordIf};

use cgx_c_fields::fill_fields;
use cgx_c_places::{PlaceWords, cursor_of, put_cursor, put_offset};
use cgx_c_views::{ViewWords, put_head};
use cgx_format_cursor::{Cursor, State, allows, next_state};
use cgx_format_headers::KnownRecord;
use cgx_format_records::flags_good;
use cgx_read_views::taken;
use cgx_read_walk::seek;
use cgx_spec::Fault;

// The end of a good file.
const DONE: u32 = 256;

// A record's view and the place after it are left in the lent memory, of which nothing changes at the end; at a refusal only the number does, where an offset is named.
pub fn step_over(file: &[u8], place: &mut PlaceWords, view: &mut ViewWords, at: &mut u64) -> u32
    ensures { StepLent file.now place.old view.old at.old result place.new view.new at.new }
{
    let c = cursor_of(place);
    match seek(file, c) {
        Ok(None) => DONE,
        Ok(Some(r)) => match record_over(file, place, view, c.state, r) {
            Ok(()) => 0,
            Err(fault) => {
                *at = r.at as u64;
                fault.number() as u32
            }
        },
        Err(refusal) => {
            put_offset(at, refusal.at);
            refusal.number as u32
        }
    }
}

// A known record: the first of the rules 6 to 12 that it breaks, if any. Each kind's rules and stores are in one arm (cgx_c_fields), so
// that the head of the view comes after them.
fn record_over(
    file: &[u8],
    place: &mut PlaceWords,
    view: &mut ViewWords,
    s: State,
    r: KnownRecord,
) -> Result<(), Fault>
    requires { Reached file.now s r }
    ensures { RecordIf file.now s r (numbered result) place.old view.old place.new view.new }
{
    if !allows(s, r.kind) {
        return Err(Fault::Order);
    }
    if !flags_good(r.kind, r.flags) {
        return Err(Fault::Flags);
    }
    fill_fields(file, view, r)?;
    let after = next_state(s, r.at, r.kind);
    let count = taken(r.kind, s.count);
    put_head(
        view,
        r.kind,
        r.flags,
        r.at,
        after.cell,
        after.layer,
        s.first,
        count,
    );
    put_cursor(
        place,
        Cursor {
            at: r.at + r.size,
            state: after,
        },
    );
    Ok(())
}
