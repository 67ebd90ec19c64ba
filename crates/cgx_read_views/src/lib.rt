// The view of a good record: its fields, and the offsets of its cell, layer and properties.
#![tactic(auto)]

ghost use Rattle.std.specs.Prelude.{◌≡◌};
ghost use Rattle.cgx_spec.specs.Order.{next};
ghost use Rattle.cgx_format_cursor.specs.Cursors.{offset_in, run_in, context_in};
ghost use Rattle.cgx_read_views.specs.RecordViews.{Found, Viewed, taken_by};

use cgx_format_cursor::State;
use cgx_format_headers::KnownRecord;
use cgx_format_kinds::View;
use cgx_read_fields::fields_of;
use cgx_spec::{Kind, Run};

// The good record r of the file, whose first byte is byte `from` of this memory: texts and lists count from that memory, the view's own
// offset, its cell, layer and run from the file.
pub fn view_at(m: &[u8], from: usize, r: KnownRecord, s: State, after: State) -> View
    requires { Found m.now (context_in s) from r.size r.kind r.flags × (context_in after ≡ next (context_in s) r.at (Some r.kind)) }
    ensures { Viewed m.now from (context_in s) r.at r.size r.kind result }
{
    let fields = fields_of(m, r.kind, r.flags, from, r.size);
    let cell = offset_of(after.cell);
    let layer = offset_of(after.layer);
    let run = run_of(s.first, taken(r.kind, s.count));
    View {
        kind: r.kind,
        flags: r.flags,
        fields,
        at: r.at,
        cell,
        layer,
        run,
    }
}

// A state has 0 for none, and a run of none for no run. Functions and no `From`: numbers are no types of this crate.
fn offset_of(n: usize) -> Option<usize>
    ensures { result ≡ offset_in n }
{
    (n != 0).then_some(n)
}

fn run_of(first: usize, count: usize) -> Option<Run>
    ensures { result ≡ run_in first count }
{
    (count != 0).then_some(Run { first, count })
}

// How many PROPERTY records a record takes, of those that await an object.
pub fn taken(k: Kind, count: usize) -> usize
    ensures { result ≡ taken_by k count }
{
    match k {
        Kind::Box | Kind::Poly | Kind::Wire | Kind::Text | Kind::Sref => count,
        _ => 0,
    }
}
