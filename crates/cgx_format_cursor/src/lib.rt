// A walk's and a writer's place in plain numbers, where 0 is none: no record has offset 0. `place_in` says which place of the definitions a cursor is.
#![tactic(auto)]

ghost use Rattle.std.specs.Prelude.{◌≡◌, ◌<◌};
ghost use Rattle.cgx_spec.specs.Order.{start, allowed, next};
ghost use Rattle.cgx_spec.specs.Walking.{first_place, forged, run_up_to};
ghost use Rattle.cgx_format_cursor.specs.Cursors.{run_in, context_in, place_in, state_of, cursor_of, needs_met, none_awaiting, first_of, state_after};

use cgx_spec::Kind;

// What has been read before a record. Offsets in the file and no slices of it, 0 for none and no `Option`, as the words of a C caller's place have it (the C interface).
#[derive(Clone, Copy)]
pub struct State {
    // The offsets of the open cell's STRUCT and of the LAYER in force.
    pub cell: usize,
    pub layer: usize,
    // The PROPERTY records that await their object: the offset of the first, and how many.
    pub first: usize,
    pub count: usize,
    // LIBRARY has been read.
    pub library: bool,
    // Only CPRPTY records since the cell's STRUCT.
    pub fresh: bool,
    // ENDLIB has been read.
    pub ended: bool,
}

// The offset of the next record, and what has been read before it.
#[derive(Clone, Copy)]
pub struct Cursor {
    pub at: usize,
    pub state: State,
}

impl State {
    // Nothing has been read.
    pub fn start() -> State
        ensures { result ≡ state_of start }
    {
        State {
            cell: 0,
            layer: 0,
            first: 0,
            count: 0,
            library: false,
            fresh: false,
            ended: false,
        }
    }
}

impl Cursor {
    // After the first four bytes.
    pub fn start() -> Cursor
        ensures { result ≡ cursor_of first_place }
    {
        Cursor {
            at: 4,
            state: State::start(),
        }
    }
}

// ---- refusal 16

// A cursor that no walk over n bytes can have come to.
pub fn is_forged(n: usize, c: Cursor) -> bool
    ensures { result ≡ forged n (place_in c) }
{
    let at = c.at;
    let s = c.state;
    let low = 4 <= at;
    let even = at % 2 == 0;
    let inside = at <= n;
    let cell = s.cell <= at;
    let layer = s.layer <= at;
    let run = run_up_to(at, s.first, s.count);
    !(low & even & inside & cell & layer & run)
}

// The offset of a run that is none is not looked at.
fn run_up_to(at: usize, first: usize, count: usize) -> bool
    ensures { result ≡ run_up_to at (run_in first count) }
{
    if count == 0 {
        return true;
    }
    (first <= at) & (count <= at)
}

// ---- rule 6

pub fn allows(s: State, k: Kind) -> bool
    ensures { result ≡ allowed (context_in s) (Some k) }
{
    needs_met(s, k)
}

// Each need of the kind, in the order of `Need`. Kinds with the same needs have an arm each: with these and those of `state_after`
// joined, the C step jumps by the kind twice, and a walk over polygons took 15.0 ns a record where it takes 12.7.
fn needs_met(s: State, k: Kind) -> bool
    ensures { result ≡ needs_met s k }
{
    let library = s.library;
    let fresh = s.fresh;
    let cell = s.cell != 0;
    let layer = s.layer != 0;
    let none = s.count == 0;
    match k {
        Kind::Library => !library & none,
        Kind::Struct => library & none,
        Kind::Cprpty => library & cell & none & fresh,
        Kind::Property => library & cell,
        Kind::Layer => library & cell & none,
        Kind::Box => library & cell & layer,
        Kind::Poly => library & cell & layer,
        Kind::Wire => library & cell & layer,
        Kind::Text => library & cell & layer,
        Kind::Sref => library & cell,
        Kind::Endlib => library & none,
    }
}

// ---- what follows from a record

// The state after a record of this kind at an offset.
pub fn next_state(s: State, at: usize, k: Kind) -> State
    requires { (0 < at) × (s.count < 18446744073709551615) }
    ensures { result ≡ state_of (next (context_in s) at (Some k)) }
{
    state_after(s, at, k)
}

// An arm for each kind, as in `needs_met`.
fn state_after(s: State, at: usize, k: Kind) -> State
    requires { s.count < 18446744073709551615 }
    ensures { result ≡ state_after s at k }
{
    match k {
        Kind::Library => State {
            cell: 0,
            layer: 0,
            first: 0,
            count: 0,
            library: true,
            fresh: false,
            ended: false,
        },
        Kind::Struct => State {
            cell: at,
            layer: 0,
            first: 0,
            count: 0,
            library: s.library,
            fresh: true,
            ended: false,
        },
        Kind::Cprpty => none_awaiting(s, s.layer, s.fresh, false),
        Kind::Property => State {
            cell: s.cell,
            layer: s.layer,
            first: first_of(s.first, s.count, at),
            count: s.count + 1,
            library: s.library,
            fresh: false,
            ended: false,
        },
        Kind::Layer => none_awaiting(s, at, false, false),
        Kind::Box => none_awaiting(s, s.layer, false, false),
        Kind::Poly => none_awaiting(s, s.layer, false, false),
        Kind::Wire => none_awaiting(s, s.layer, false, false),
        Kind::Text => none_awaiting(s, s.layer, false, false),
        Kind::Sref => none_awaiting(s, s.layer, false, false),
        Kind::Endlib => none_awaiting(s, s.layer, false, true),
    }
}

// Any kind but PROPERTY leaves none that await an object.
fn none_awaiting(s: State, layer: usize, fresh: bool, ended: bool) -> State
    ensures { result ≡ none_awaiting s layer fresh ended }
{
    State {
        cell: s.cell,
        layer,
        first: 0,
        count: 0,
        library: s.library,
        fresh,
        ended,
    }
}

// The first of a run with one more PROPERTY at an offset; with 0 for the offset the first of the run itself, or 0 where it has none.
pub fn first_of(first: usize, count: usize, at: usize) -> usize
    ensures { result ≡ first_of first count at }
{
    if count == 0 { at } else { first }
}
