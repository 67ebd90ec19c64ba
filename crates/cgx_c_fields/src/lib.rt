// The fields of a record, judged and stored in a C caller's view as they are read: a value that holds those of any kind would be copied at each step.
#![tactic(auto)]

ghost use Rattle.std.specs.Prelude.{◌≡◌, true, cond, ◌+◌, ◌-◌, ◌≤◌, length};
ghost use Rattle.cgx_spec.specs.Walking.{Held, rec_at};
ghost use Rattle.cgx_spec.specs.Verdicts.{numbered};
ghost use Rattle.cgx_format_bodies.specs.Bodies.{body_fault, Body};
ghost use Rattle.cgx_format_sref.specs.Layouts.{sref_layout};
ghost use Rattle.cgx_read_fields.specs.Views.{StringAt};
ghost use Rattle.cgx_c_fields.specs.Fill.{pair_at, Filled, FilledAlike, FilledIf};

use cgx_c_views::{
    ViewWords, pair_word, put_layer, put_library, put_list, put_property, put_sref, put_struct,
    put_text, put_wire,
};
use cgx_format_bodies::{
    box_fault, layer_fault, poly_fault, property_fault, text_fault, wire_fault,
};
use cgx_format_headers::KnownRecord;
use cgx_format_records::body_fault;
use cgx_format_sref::sref_layout;
use cgx_read_fields::{
    box_of, cprpty_of, date_at, layer_of, poly_of, property_of, struct_of, text_at, wire_of,
    word_at, word_if,
};
use cgx_spec::{Fault, Kind};
use numbers::{bits_of, long_at};

// Of a known record of this file: the first of the rules 8 to 12 that its body breaks is the error.
pub fn fill_fields(f: &[u8], w: &mut ViewWords, r: KnownRecord) -> Result<(), Fault>
    requires { Held f.now r.at r.size }
    ensures { FilledIf r.kind r.flags f.now r.at r.size (numbered result) w.old w.new }
{
    match r.kind {
        Kind::Library => fill_library(f, w, r),
        Kind::Struct => fill_struct(f, w, r),
        Kind::Cprpty => fill_cprpty(f, w, r),
        Kind::Property => fill_property(f, w, r),
        Kind::Layer => fill_layer(f, w, r),
        Kind::Box => fill_box(f, w, r),
        Kind::Poly => fill_poly(f, w, r),
        Kind::Wire => fill_wire(f, w, r),
        Kind::Text => fill_text(f, w, r),
        Kind::Sref => fill_sref(f, w, r),
        Kind::Endlib => fill_endlib(f, r),
    }
}

// ---- a kind each: the rules, then the stores. The rules of the kinds that files are full of are compiled in here; `body_fault`, which the check calls too, is a call.

fn fill_library(f: &[u8], w: &mut ViewWords, r: KnownRecord) -> Result<(), Fault>
    requires { Held f.now r.at r.size }
    ensures { FilledIf Kind.Library r.flags f.now r.at r.size (numbered result) w.old w.new }
{
    body_fault(Kind::Library, r.flags, body_at(f, r))?;
    store_library(f, w, r.at, r.size);
    Ok(())
}

fn fill_struct(f: &[u8], w: &mut ViewWords, r: KnownRecord) -> Result<(), Fault>
    requires { Held f.now r.at r.size }
    ensures { FilledIf Kind.Struct r.flags f.now r.at r.size (numbered result) w.old w.new }
{
    body_fault(Kind::Struct, r.flags, body_at(f, r))?;
    put_struct(w, struct_of(f, r.at, r.size));
    Ok(())
}

fn fill_cprpty(f: &[u8], w: &mut ViewWords, r: KnownRecord) -> Result<(), Fault>
    requires { Held f.now r.at r.size }
    ensures { FilledIf Kind.Cprpty r.flags f.now r.at r.size (numbered result) w.old w.new }
{
    body_fault(Kind::Cprpty, r.flags, body_at(f, r))?;
    let p = cprpty_of(f, r.at, r.size);
    put_property(w, p.number, p.value);
    Ok(())
}

fn fill_property(f: &[u8], w: &mut ViewWords, r: KnownRecord) -> Result<(), Fault>
    requires { Held f.now r.at r.size }
    ensures { FilledIf Kind.Property r.flags f.now r.at r.size (numbered result) w.old w.new }
{
    property_fault(body_at(f, r), r.flags)?;
    let p = property_of(f, r.at, r.size);
    put_property(w, p.number, p.value);
    Ok(())
}

fn fill_layer(f: &[u8], w: &mut ViewWords, r: KnownRecord) -> Result<(), Fault>
    requires { Held f.now r.at r.size }
    ensures { FilledIf Kind.Layer r.flags f.now r.at r.size (numbered result) w.old w.new }
{
    layer_fault(body_at(f, r), r.flags)?;
    put_layer(w, layer_of(f, r.at, r.size));
    Ok(())
}

fn fill_box(f: &[u8], w: &mut ViewWords, r: KnownRecord) -> Result<(), Fault>
    requires { Held f.now r.at r.size }
    ensures { FilledIf Kind.Box r.flags f.now r.at r.size (numbered result) w.old w.new }
{
    box_fault(body_at(f, r), r.flags)?;
    let b = box_of(f, r.at, r.size);
    put_list(w, 6, b.boxes);
    Ok(())
}

fn fill_poly(f: &[u8], w: &mut ViewWords, r: KnownRecord) -> Result<(), Fault>
    requires { Held f.now r.at r.size }
    ensures { FilledIf Kind.Poly r.flags f.now r.at r.size (numbered result) w.old w.new }
{
    poly_fault(body_at(f, r), r.flags)?;
    let p = poly_of(f, r.at, r.size);
    put_list(w, 6, p.points);
    Ok(())
}

fn fill_wire(f: &[u8], w: &mut ViewWords, r: KnownRecord) -> Result<(), Fault>
    requires { Held f.now r.at r.size }
    ensures { FilledIf Kind.Wire r.flags f.now r.at r.size (numbered result) w.old w.new }
{
    wire_fault(body_at(f, r), r.flags)?;
    put_wire(w, wire_of(f, r.at, r.size));
    Ok(())
}

fn fill_text(f: &[u8], w: &mut ViewWords, r: KnownRecord) -> Result<(), Fault>
    requires { Held f.now r.at r.size }
    ensures { FilledIf Kind.Text r.flags f.now r.at r.size (numbered result) w.old w.new }
{
    text_fault(body_at(f, r), r.flags)?;
    store_text(f, w, r.at, r.size);
    Ok(())
}

fn fill_sref(f: &[u8], w: &mut ViewWords, r: KnownRecord) -> Result<(), Fault>
    requires { Held f.now r.at r.size }
    ensures { FilledIf Kind.Sref r.flags f.now r.at r.size (numbered result) w.old w.new }
{
    body_fault(Kind::Sref, r.flags, body_at(f, r))?;
    store_sref(f, w, r.flags, r.at, r.size);
    Ok(())
}

// Nothing is stored.
fn fill_endlib(f: &[u8], r: KnownRecord) -> Result<(), Fault>
    requires { Held f.now r.at r.size }
    ensures { numbered result ≡ body_fault Kind.Endlib r.flags (rec_at f.now r.at r.size).body }
{
    body_fault(Kind::Endlib, r.flags, body_at(f, r))
}

// What comes after the header.
fn body_at(f: &[u8], r: KnownRecord) -> &[u8]
    requires { Held f.now r.at r.size }
    ensures bytes { result.now ≡ (rec_at f.now r.at r.size).body }
    ensures body { Body result.now }
{
    &f[r.at + Kind::HEADER_SIZE..r.at + r.size]
}

// ---- kinds with reals, points or counts: these are stored as the words that they are, and no double is made

fn store_library(f: &[u8], w: &mut ViewWords, at: usize, size: usize)
    requires { StringAt f.now (at + 36) (size - 36) }
    ensures { FilledAlike Kind.Library f.now at size w.old w.new }
{
    let munit = word_at(f, at + 4);
    let uunit = word_at(f, at + 12);
    let created = date_at(f, at + 20);
    let modified = date_at(f, at + 28);
    let name = text_at(f, at + 36, size - 36);
    put_library(w, munit, uunit, created, modified, name);
}

fn store_text(f: &[u8], w: &mut ViewWords, at: usize, size: usize)
    requires { StringAt f.now (at + 16) (size - 16) }
    ensures { FilledAlike Kind.Text f.now at size w.old w.new }
{
    let point = pair_at(f, at + 4);
    let width = long_at(f, at + 12);
    let label = text_at(f, at + 16, size - 16);
    put_text(w, point, width, label);
}

fn store_sref(f: &[u8], w: &mut ViewWords, fl: u8, at: usize, size: usize)
    requires { StringAt f.now (at + (sref_layout fl).name) (size - (sref_layout fl).name) }
    ensures { Filled Kind.Sref fl f.now at size w.old w.new }
{
    let l = sref_layout(fl);
    let point = pair_at(f, at + 4);
    let angle = word_if(f, at + 12, l.turned);
    let magnif = word_if(f, at + l.magnif, l.scaled);
    let counts = pair_if(f, at + l.array, l.repeated);
    let across = pair_if(f, at + (l.array + 8), l.repeated);
    let up = pair_if(f, at + (l.array + 16), l.repeated);
    let name = text_at(f, at + l.name, size - l.name);
    put_sref(w, point, angle, magnif, counts, across, up, name);
}

// Two longs as one word of a view: a point, or columns and rows.
fn pair_at(f: &[u8], at: usize) -> u64
    requires { at + 8 ≤ length f.now }
    ensures { result ≡ pair_at f.now at }
{
    let first = bits_of(f[at], f[at + 1], f[at + 2], f[at + 3]);
    let second = bits_of(f[at + 4], f[at + 5], f[at + 6], f[at + 7]);
    pair_word(first, second)
}

// 0 for none: a word of a C caller's view, which says so (the C interface), and no `Option`. As `word_if`, which reads another value: one function given a closure would be no plainer.
fn pair_if(f: &[u8], at: usize, there: bool) -> u64
    requires { there ≡ true → at + 8 ≤ length f.now }
    ensures { result ≡ cond there (pair_at f.now at) 0 }
{
    if there { pair_at(f, at) } else { 0 }
}
