// Phases: what rule 6 sees of a context, as one small value. Who only judges needs no offsets, and goes from record to record with a phase.
#![tactic(auto)]

ghost use Rattle.std.specs.Prelude.{◌≡◌};
ghost use Rattle.cgx_format_phases.specs.Phases.{is_ended, allowed_phase, after_unknown, after_library, after_struct, after_cprpty, after_property, after_layer, after_shape, after_sref, after_endlib, after_phase};

use cgx_spec::Kind;

#[derive(Clone, Copy, Debug, PartialEq, Eq)]
pub enum Phase {
    // Nothing has been read.
    Start,
    // LIBRARY, and no cell is open.
    Library,
    // A cell is open, with only CPRPTY records since its STRUCT.
    Fresh,
    // A cell is open, and no layer is in force.
    Cell,
    // A layer is in force.
    Layer,
    // As Cell and Layer, with PROPERTY records that await their object.
    CellRun,
    LayerRun,
    // ENDLIB has been read.
    Ended,
    // A record is where it is not allowed.
    Refused,
}

pub fn has_ended(p: Phase) -> bool
    ensures { result ≡ is_ended p }
{
    p == Phase::Ended
}

// Rule 6 allowed the record before this phase.
pub fn is_allowed(p: Phase) -> bool
    ensures { result ≡ allowed_phase p }
{
    p != Phase::Refused
}

// The phase after a record of any type; Refused where it is not allowed.
pub fn phase_after(p: Phase, t: Option<Kind>) -> Phase
    ensures { result ≡ after_phase p t }
{
    match t {
        Some(k) => after_known(p, k),
        None => after_unknown(p),
    }
}

// BOX, POLY, WIRE and TEXT have an arm each: with one for the four, the compiled check tests anew which of them it is, and took 2 to 6 %
// longer over short texts.
fn after_known(p: Phase, k: Kind) -> Phase
    ensures { result ≡ after_phase p (Some k) }
{
    match k {
        Kind::Library => after_library(p),
        Kind::Struct => after_struct(p),
        Kind::Cprpty => after_cprpty(p),
        Kind::Property => after_property(p),
        Kind::Layer => after_layer(p),
        Kind::Box => after_shape(p),
        Kind::Poly => after_shape(p),
        Kind::Wire => after_shape(p),
        Kind::Text => after_shape(p),
        Kind::Sref => after_sref(p),
        Kind::Endlib => after_endlib(p),
    }
}

// An unknown record changes nothing, but is not allowed before LIBRARY.
fn after_unknown(p: Phase) -> Phase
    ensures { result ≡ after_unknown p }
{
    match p {
        Phase::Start => Phase::Refused,
        _ => p,
    }
}

fn after_library(p: Phase) -> Phase
    ensures { result ≡ after_library p }
{
    match p {
        Phase::Start => Phase::Library,
        _ => Phase::Refused,
    }
}

fn after_struct(p: Phase) -> Phase
    ensures { result ≡ after_struct p }
{
    match p {
        Phase::Library | Phase::Fresh | Phase::Cell | Phase::Layer => Phase::Fresh,
        _ => Phase::Refused,
    }
}

fn after_cprpty(p: Phase) -> Phase
    ensures { result ≡ after_cprpty p }
{
    match p {
        Phase::Fresh => Phase::Fresh,
        _ => Phase::Refused,
    }
}

fn after_property(p: Phase) -> Phase
    ensures { result ≡ after_property p }
{
    match p {
        Phase::Fresh | Phase::Cell | Phase::CellRun => Phase::CellRun,
        Phase::Layer | Phase::LayerRun => Phase::LayerRun,
        _ => Phase::Refused,
    }
}

fn after_layer(p: Phase) -> Phase
    ensures { result ≡ after_layer p }
{
    match p {
        Phase::Fresh | Phase::Cell | Phase::Layer => Phase::Layer,
        _ => Phase::Refused,
    }
}

// BOX, POLY, WIRE and TEXT.
fn after_shape(p: Phase) -> Phase
    ensures { result ≡ after_shape p }
{
    match p {
        Phase::Layer | Phase::LayerRun => Phase::Layer,
        _ => Phase::Refused,
    }
}

fn after_sref(p: Phase) -> Phase
    ensures { result ≡ after_sref p }
{
    match p {
        Phase::Fresh | Phase::Cell | Phase::CellRun => Phase::Cell,
        Phase::Layer | Phase::LayerRun => Phase::Layer,
        _ => Phase::Refused,
    }
}

fn after_endlib(p: Phase) -> Phase
    ensures { result ≡ after_endlib p }
{
    match p {
        Phase::Library | Phase::Fresh | Phase::Cell | Phase::Layer => Phase::Ended,
        _ => Phase::Refused,
    }
}
