// The rules 8 to 12 of a record's body, a function a kind, also where two kinds are alike: each promises its own kind's rules (no plainer).
// Each answers the first that is broken, if any.
#![tactic(auto)]

ghost use Rattle.std.specs.Prelude.{◌≡◌, true, not, ◌&&◌, ◌||◌, [], ◌∷◌, ◌+◌, ◌≤◌, length, take, drop};
ghost use Rattle.cgx_spec.specs.declared.Kind.TheVariants.{Library as KLibrary, Struct as KStruct, Cprpty as KCprpty, Property as KProperty, Layer as KLayer, Box as KBox, Poly as KPoly, Wire as KWire, Text as KText, Sref as KSref, Endlib as KEndlib};
ghost use Rattle.cgx_spec.specs.Numbers.{longs_of};
ghost use Rattle.cgx_spec.specs.Reals.{positive_real};
ghost use Rattle.cgx_spec.specs.Fields.{ones};
ghost use Rattle.cgx_spec.specs.Records.{rule, broken};
ghost use Rattle.cgx_spec.specs.Verdicts.{numbered};
ghost use Rattle.cgx_format_bodies.specs.Bodies.{body_fault, Body};

use cgx_format_fields::{
    boxes_good, closed_good, count_good, date_good, optional_good, string_good,
};
use cgx_format_kinds::{
    Boxes, Cprpty, Endlib, Layer, Library, Poly, Property, Sref, Struct, Text, Wire,
};
use cgx_format_sref::sref_layout;
use cgx_spec::{Fault, Kind};
use reals::positive_bytes;

// ---- the eleven kinds

pub fn library_fault(b: &[u8], fl: u8) -> Result<(), Fault>
    requires { Body b.now }
    ensures { numbered result ≡ body_fault KLibrary fl b.now }
{
    if b.len() + Kind::HEADER_SIZE < Library::MIN_SIZE {
        return Err(Fault::Length);
    }
    let munit = positive_bytes(&b[0..8]);
    let uunit = positive_bytes(&b[8..16]);
    let created = date_good(&b[16..24]);
    let modified = date_good(&b[24..32]);
    let name = string_good(&b[32..]);
    first_broken(created & modified, munit & uunit, name, true)
}

pub fn struct_fault(b: &[u8], fl: u8) -> Result<(), Fault>
    requires { Body b.now }
    ensures { numbered result ≡ body_fault KStruct fl b.now }
{
    if b.len() + Kind::HEADER_SIZE < Struct::MIN_SIZE {
        return Err(Fault::Length);
    }
    let created = date_good(&b[0..8]);
    let modified = date_good(&b[8..16]);
    let name = string_good(&b[16..]);
    first_broken(created & modified, true, name, true)
}

pub fn cprpty_fault(b: &[u8], fl: u8) -> Result<(), Fault>
    requires { Body b.now }
    ensures { numbered result ≡ body_fault KCprpty fl b.now }
{
    if b.len() + Kind::HEADER_SIZE < Cprpty::MIN_SIZE {
        return Err(Fault::Length);
    }
    let value = string_good(&b[4..]);
    first_broken(true, true, value, true)
}

pub fn property_fault(b: &[u8], fl: u8) -> Result<(), Fault>
    requires { Body b.now }
    ensures { numbered result ≡ body_fault KProperty fl b.now }
{
    if b.len() + Kind::HEADER_SIZE < Property::MIN_SIZE {
        return Err(Fault::Length);
    }
    let value = string_good(&b[4..]);
    first_broken(true, true, value, true)
}

pub fn layer_fault(b: &[u8], fl: u8) -> Result<(), Fault>
    requires { Body b.now }
    ensures { numbered result ≡ body_fault KLayer fl b.now }
{
    if b.len() + Kind::HEADER_SIZE < Layer::MIN_SIZE {
        return Err(Fault::Length);
    }
    let name = optional_good(&b[4..]);
    first_broken(true, true, name, true)
}

pub fn box_fault(b: &[u8], fl: u8) -> Result<(), Fault>
    requires { Body b.now }
    ensures { numbered result ≡ body_fault KBox fl b.now }
{
    let n = b.len();
    if n % Boxes::BOX_SIZE != 0 {
        return Err(Fault::Length);
    }
    let count = n / Boxes::BOX_SIZE;
    if count < Boxes::MIN_COUNT {
        return Err(Fault::Length);
    }
    if Boxes::MAX_COUNT < count {
        return Err(Fault::Length);
    }
    let boxes = boxes_good(b);
    first_broken(true, boxes, true, true)
}

pub fn poly_fault(b: &[u8], fl: u8) -> Result<(), Fault>
    requires { Body b.now }
    ensures { numbered result ≡ body_fault KPoly fl b.now }
{
    let n = b.len();
    if n % Poly::PAIR_SIZE != 0 {
        return Err(Fault::Length);
    }
    let count = n / Poly::PAIR_SIZE;
    if count < Poly::MIN_COUNT {
        return Err(Fault::Length);
    }
    if Poly::MAX_COUNT < count {
        return Err(Fault::Length);
    }
    let end = closed_good(b);
    first_broken(true, true, true, end)
}

pub fn wire_fault(b: &[u8], fl: u8) -> Result<(), Fault>
    requires { Body b.now }
    ensures { numbered result ≡ body_fault KWire fl b.now }
{
    // The width comes before the pairs.
    if b.len() < Wire::WIDTH_SIZE {
        return Err(Fault::Length);
    }
    let n = b.len() - Wire::WIDTH_SIZE;
    if n % Wire::PAIR_SIZE != 0 {
        return Err(Fault::Length);
    }
    let count = n / Wire::PAIR_SIZE;
    if count < Wire::MIN_COUNT {
        return Err(Fault::Length);
    }
    if Wire::MAX_COUNT < count {
        return Err(Fault::Length);
    }
    Ok(())
}

pub fn text_fault(b: &[u8], fl: u8) -> Result<(), Fault>
    requires { Body b.now }
    ensures { numbered result ≡ body_fault KText fl b.now }
{
    if b.len() + Kind::HEADER_SIZE < Text::MIN_SIZE {
        return Err(Fault::Length);
    }
    let label = string_good(&b[12..]);
    first_broken(true, true, label, true)
}

pub fn sref_fault(b: &[u8], fl: u8) -> Result<(), Fault>
    requires { Body b.now }
    ensures { numbered result ≡ body_fault KSref fl b.now }
{
    let l = sref_layout(fl);
    let magnif_at = l.magnif - Kind::HEADER_SIZE;
    let grid_at = l.array - Kind::HEADER_SIZE;
    let name_at = l.name - Kind::HEADER_SIZE;
    if b.len() < name_at + Sref::MIN_NAME {
        return Err(Fault::Length);
    }
    let scale = magnif_good(b, magnif_at, l.scaled);
    let grid = grid_good(b, grid_at, l.repeated);
    let name = string_good(&b[name_at..]);
    first_broken(true, scale & grid, name, true)
}

pub fn endlib_fault(b: &[u8], fl: u8) -> Result<(), Fault>
    requires { Body b.now }
    ensures { numbered result ≡ body_fault KEndlib fl b.now }
{
    if b.len() + Kind::HEADER_SIZE == Endlib::SIZE {
        Ok(())
    } else {
        Err(Fault::Length)
    }
}

// ---- what they share

// The first of the rules 9 to 12 that is broken, if any.
fn first_broken(dates: bool, numbers: bool, texts: bool, polygon: bool) -> Result<(), Fault>
    ensures { numbered result ≡ broken (rule 9 dates ∷ rule 10 numbers ∷ rule 11 texts ∷ rule 12 polygon ∷ []) }
{
    if !dates {
        return Err(Fault::Date);
    }
    if !numbers {
        return Err(Fault::Number);
    }
    if !texts {
        return Err(Fault::String);
    }
    if !polygon {
        return Err(Fault::NotClosed);
    }
    Ok(())
}

// `there` says, here and below, whether the body has the bytes from `at` on: an `Option` of the offset would be made only to be taken apart.
fn magnif_good(b: &[u8], at: usize, there: bool) -> bool
    requires { there ≡ true → at + 8 ≤ length b.now }
    ensures { result ≡ (not there || positive_real (take 8 (drop at b.now))) }
{
    if there {
        let end = at + Sref::REAL_SIZE;
        return positive_bytes(&b[at..end]);
    }
    true
}

// Columns and rows.
fn grid_good(b: &[u8], at: usize, there: bool) -> bool
    requires { there ≡ true → at + 24 ≤ length b.now }
    ensures { result ≡ (not there || (ones (longs_of (take 4 (drop at b.now))) && ones (longs_of (take 4 (drop (at + 4) b.now))))) }
{
    if there {
        let middle = at + 4;
        let end = at + 8;
        let cols = count_good(&b[at..middle]);
        let rows = count_good(&b[middle..end]);
        return cols & rows;
    }
    true
}
