// The rules 6 to 12 of a record.
#![tactic(auto)]

ghost use Rattle.std.specs.Prelude.{◌≡◌};
ghost use Rattle.cgx_spec.specs.Kinds.{good_flags};
ghost use Rattle.cgx_spec.specs.Verdicts.{numbered};
ghost use Rattle.cgx_format_bodies.specs.Bodies.{body_fault, Body};
ghost use Rattle.cgx_format_records.specs.Faults.{FaultIs};

use cgx_format_kinds::{Sref, Wire};
use cgx_spec::{Fault, Kind};

// The first of the rules 6 to 12 that a record breaks, if any. Whether rule 6 allows it here is told; nothing more is asked of an unknown one.
pub fn record_fault(here: bool, t: Option<Kind>, fl: u8, b: &[u8]) -> Result<(), Fault>
    requires { Body b.now }
    ensures { FaultIs here t fl b.now (numbered result) }
{
    if !here {
        return Err(Fault::Order);
    }
    match t {
        Some(k) => {
            if !flags_good(k, fl) {
                return Err(Fault::Flags);
            }
            body_fault(k, fl, b)
        }
        None => Ok(()),
    }
}

// Rule 7.
pub fn flags_good(k: Kind, fl: u8) -> bool
    ensures { result ≡ good_flags k fl }
{
    match k {
        Kind::Wire => fl <= Wire::MAX_FLAGS,
        Kind::Sref => fl <= Sref::MAX_FLAGS,
        _ => true,
    }
}

// The rules 8 to 12.
pub fn body_fault(k: Kind, fl: u8, b: &[u8]) -> Result<(), Fault>
    requires { Body b.now }
    ensures { numbered result ≡ body_fault k fl b.now }
{
    match k {
        Kind::Library => cgx_format_bodies::library_fault(b, fl),
        Kind::Struct => cgx_format_bodies::struct_fault(b, fl),
        Kind::Cprpty => cgx_format_bodies::cprpty_fault(b, fl),
        Kind::Property => cgx_format_bodies::property_fault(b, fl),
        Kind::Layer => cgx_format_bodies::layer_fault(b, fl),
        Kind::Box => cgx_format_bodies::box_fault(b, fl),
        Kind::Poly => cgx_format_bodies::poly_fault(b, fl),
        Kind::Wire => cgx_format_bodies::wire_fault(b, fl),
        Kind::Text => cgx_format_bodies::text_fault(b, fl),
        Kind::Sref => cgx_format_bodies::sref_fault(b, fl),
        Kind::Endlib => cgx_format_bodies::endlib_fault(b, fl),
    }
}
