// The writer and the makers. Each call lends its writer and a number for the offset that a refusal names.
ghost use Rattle.std.specs.Prelude.{◌≡◌};
ghost use Rattle.cgx_c_writer.specs.Lent.{writer_in, lent, lent_start};
ghost use Rattle.cgx_c_writer.specs.Parts.{date_in, real_in, layer_no_in, data_type_in, given_placed, card_around, frame_around};
ghost use Rattle.cgx_write_given.specs.Given.{given_library, given_struct, given_cprpty, given_property, given_layer, given_box, given_poly, given_wire, given_text, given_endlib};
ghost use Rattle.cgx_write_given.specs.Typed.{WellTyped, AllWell};
ghost use Rattle.cgx_write_given.specs.Writing.{start_in, call_in};
ghost use Rattle.cgx_write_makers.specs.Makers.{all_in};

use cgx_c_places::PlaceWords;
use cgx_c_writer::{
    data_type, date_of, layer_no, placement_of, real_of, settle, settle_start, writer_of,
};
use cgx_format_kinds::Point;
use cgx_write_makers::{caption_frame, test_card};

#[unsafe(no_mangle)]
pub extern "C" fn cgx_write_start(buf: &mut [u8], writer: &mut PlaceWords) -> u32
    ensures { record { number = result; writer = writer.new; buffer = buf.new } ≡ lent_start writer.old (start_in buf.old) }
{
    settle_start(cgx_write_calls::start(buf), writer)
}

// ---- one record a call

#[unsafe(no_mangle)]
pub extern "C" fn cgx_write_library(
    buf: &mut [u8],
    writer: &mut PlaceWords,
    at: &mut u64,
    version: u8,
    munit: &[u64; 1],
    uunit: &[u64; 1],
    created: &[u8; 8],
    modified: &[u8; 8],
    name: &[u8],
) -> u32
    ensures buf_after { record { number = result; writer = writer.new; at = at.new; buffer = buf.new } ≡ lent writer.old at.old (call_in buf.old (writer_in writer.old) (given_library version (real_in munit.now) (real_in uunit.now) (date_in created.now) (date_in modified.now) name.now)) }
    ensures typed { WellTyped (given_library version (real_in munit.now) (real_in uunit.now) (date_in created.now) (date_in modified.now) name.now) }
{
    settle(
        cgx_write_calls::library(
            buf,
            writer_of(writer),
            version,
            real_of(munit),
            real_of(uunit),
            date_of(created),
            date_of(modified),
            name,
        ),
        writer,
        at,
    )
}

#[unsafe(no_mangle)]
pub extern "C" fn cgx_write_struct(
    buf: &mut [u8],
    writer: &mut PlaceWords,
    at: &mut u64,
    created: &[u8; 8],
    modified: &[u8; 8],
    name: &[u8],
) -> u32
    ensures buf_after { record { number = result; writer = writer.new; at = at.new; buffer = buf.new } ≡ lent writer.old at.old (call_in buf.old (writer_in writer.old) (given_struct (date_in created.now) (date_in modified.now) name.now)) }
    ensures typed { WellTyped (given_struct (date_in created.now) (date_in modified.now) name.now) }
{
    settle(
        cgx_write_calls::structure(
            buf,
            writer_of(writer),
            date_of(created),
            date_of(modified),
            name,
        ),
        writer,
        at,
    )
}

#[unsafe(no_mangle)]
pub extern "C" fn cgx_write_cprpty(
    buf: &mut [u8],
    writer: &mut PlaceWords,
    at: &mut u64,
    number: i32,
    value: &[u8],
) -> u32
    ensures buf_after { record { number = result; writer = writer.new; at = at.new; buffer = buf.new } ≡ lent writer.old at.old (call_in buf.old (writer_in writer.old) (given_cprpty number value.now)) }
    ensures typed { WellTyped (given_cprpty number value.now) }
{
    settle(
        cgx_write_calls::cprpty(buf, writer_of(writer), number, value),
        writer,
        at,
    )
}

#[unsafe(no_mangle)]
pub extern "C" fn cgx_write_property(
    buf: &mut [u8],
    writer: &mut PlaceWords,
    at: &mut u64,
    number: i32,
    value: &[u8],
) -> u32
    ensures buf_after { record { number = result; writer = writer.new; at = at.new; buffer = buf.new } ≡ lent writer.old at.old (call_in buf.old (writer_in writer.old) (given_property number value.now)) }
    ensures typed { WellTyped (given_property number value.now) }
{
    settle(
        cgx_write_calls::property(buf, writer_of(writer), number, value),
        writer,
        at,
    )
}

#[unsafe(no_mangle)]
pub extern "C" fn cgx_write_layer(
    buf: &mut [u8],
    writer: &mut PlaceWords,
    at: &mut u64,
    id: &[i16; 2],
) -> u32
    ensures buf_after { record { number = result; writer = writer.new; at = at.new; buffer = buf.new } ≡ lent writer.old at.old (call_in buf.old (writer_in writer.old) (given_layer (layer_no_in id.now) (data_type_in id.now) None)) }
    ensures typed { WellTyped (given_layer (layer_no_in id.now) (data_type_in id.now) None) }
{
    settle(
        cgx_write_calls::layer(buf, writer_of(writer), layer_no(id), data_type(id)),
        writer,
        at,
    )
}

#[unsafe(no_mangle)]
pub extern "C" fn cgx_write_named_layer(
    buf: &mut [u8],
    writer: &mut PlaceWords,
    at: &mut u64,
    id: &[i16; 2],
    name: &[u8],
) -> u32
    ensures buf_after { record { number = result; writer = writer.new; at = at.new; buffer = buf.new } ≡ lent writer.old at.old (call_in buf.old (writer_in writer.old) (given_layer (layer_no_in id.now) (data_type_in id.now) (Some name.now))) }
    ensures typed { WellTyped (given_layer (layer_no_in id.now) (data_type_in id.now) (Some name.now)) }
{
    settle(
        cgx_write_calls::named_layer(buf, writer_of(writer), layer_no(id), data_type(id), name),
        writer,
        at,
    )
}

#[unsafe(no_mangle)]
pub extern "C" fn cgx_write_box_longs(
    buf: &mut [u8],
    writer: &mut PlaceWords,
    at: &mut u64,
    longs: &[i32],
) -> u32
    ensures buf_after { record { number = result; writer = writer.new; at = at.new; buffer = buf.new } ≡ lent writer.old at.old (call_in buf.old (writer_in writer.old) (given_box longs.now)) }
    ensures typed { WellTyped (given_box longs.now) }
{
    settle(
        cgx_write_calls::boxes(buf, writer_of(writer), longs),
        writer,
        at,
    )
}

#[unsafe(no_mangle)]
pub extern "C" fn cgx_write_poly_longs(
    buf: &mut [u8],
    writer: &mut PlaceWords,
    at: &mut u64,
    longs: &[i32],
) -> u32
    ensures buf_after { record { number = result; writer = writer.new; at = at.new; buffer = buf.new } ≡ lent writer.old at.old (call_in buf.old (writer_in writer.old) (given_poly longs.now)) }
    ensures typed { WellTyped (given_poly longs.now) }
{
    settle(
        cgx_write_calls::poly(buf, writer_of(writer), longs),
        writer,
        at,
    )
}

#[unsafe(no_mangle)]
pub extern "C" fn cgx_write_wire_longs(
    buf: &mut [u8],
    writer: &mut PlaceWords,
    at: &mut u64,
    width: i32,
    longs: &[i32],
) -> u32
    ensures buf_after { record { number = result; writer = writer.new; at = at.new; buffer = buf.new } ≡ lent writer.old at.old (call_in buf.old (writer_in writer.old) (given_wire None width longs.now)) }
    ensures typed { WellTyped (given_wire None width longs.now) }
{
    settle(
        cgx_write_calls::wire(buf, writer_of(writer), None, width, longs),
        writer,
        at,
    )
}

#[unsafe(no_mangle)]
pub extern "C" fn cgx_write_styled_wire_longs(
    buf: &mut [u8],
    writer: &mut PlaceWords,
    at: &mut u64,
    style: u8,
    width: i32,
    longs: &[i32],
) -> u32
    ensures buf_after { record { number = result; writer = writer.new; at = at.new; buffer = buf.new } ≡ lent writer.old at.old (call_in buf.old (writer_in writer.old) (given_wire (Some style) width longs.now)) }
    ensures typed { WellTyped (given_wire (Some style) width longs.now) }
{
    settle(
        cgx_write_calls::wire(buf, writer_of(writer), Some(style), width, longs),
        writer,
        at,
    )
}

#[unsafe(no_mangle)]
pub extern "C" fn cgx_write_text(
    buf: &mut [u8],
    writer: &mut PlaceWords,
    at: &mut u64,
    flags: u8,
    x: i32,
    y: i32,
    width: i32,
    label: &[u8],
) -> u32
    ensures buf_after { record { number = result; writer = writer.new; at = at.new; buffer = buf.new } ≡ lent writer.old at.old (call_in buf.old (writer_in writer.old) (given_text flags (record { x = x; y = y }) width label.now)) }
    ensures typed { WellTyped (given_text flags (record { x = x; y = y }) width label.now) }
{
    settle(
        cgx_write_calls::text(buf, writer_of(writer), flags, Point { x, y }, width, label),
        writer,
        at,
    )
}

#[unsafe(no_mangle)]
pub extern "C" fn cgx_write_sref(
    buf: &mut [u8],
    writer: &mut PlaceWords,
    at: &mut u64,
    flags: u8,
    placement: &[u64; 6],
    name: &[u8],
) -> u32
    ensures buf_after { record { number = result; writer = writer.new; at = at.new; buffer = buf.new } ≡ lent writer.old at.old (call_in buf.old (writer_in writer.old) (given_placed flags placement.now name.now)) }
    ensures typed { WellTyped (given_placed flags placement.now name.now) }
{
    let p = placement_of(placement);
    let angle = p.angle;
    let magnif = p.magnif;
    settle(
        cgx_write_calls::sref(
            buf,
            writer_of(writer),
            flags,
            p.at,
            angle,
            magnif,
            p.grid,
            name,
        ),
        writer,
        at,
    )
}

#[unsafe(no_mangle)]
pub extern "C" fn cgx_write_endlib(buf: &mut [u8], writer: &mut PlaceWords, at: &mut u64) -> u32
    ensures buf_after { record { number = result; writer = writer.new; at = at.new; buffer = buf.new } ≡ lent writer.old at.old (call_in buf.old (writer_in writer.old) given_endlib) }
    ensures typed { WellTyped given_endlib }
{
    settle(cgx_write_calls::endlib(buf, writer_of(writer)), writer, at)
}

// ---- the makers: all or nothing

#[unsafe(no_mangle)]
pub extern "C" fn cgx_write_test_card(
    buf: &mut [u8],
    writer: &mut PlaceWords,
    at: &mut u64,
    sides: &[i32; 4],
) -> u32
    ensures buf_after { record { number = result; writer = writer.new; at = at.new; buffer = buf.new } ≡ lent writer.old at.old (all_in buf.old (writer_in writer.old) (card_around sides.now)) }
    ensures typed { AllWell (card_around sides.now) }
{
    let left = sides[0];
    let bottom = sides[1];
    let right = sides[2];
    let top = sides[3];
    settle(
        test_card(buf, writer_of(writer), left, bottom, right, top),
        writer,
        at,
    )
}

#[unsafe(no_mangle)]
pub extern "C" fn cgx_write_caption_frame(
    buf: &mut [u8],
    writer: &mut PlaceWords,
    at: &mut u64,
    sides: &[i32; 4],
    label: &[u8],
) -> u32
    ensures buf_after { record { number = result; writer = writer.new; at = at.new; buffer = buf.new } ≡ lent writer.old at.old (all_in buf.old (writer_in writer.old) (frame_around sides.now label.now)) }
    ensures typed { AllWell (frame_around sides.now label.now) }
{
    let left = sides[0];
    let bottom = sides[1];
    let right = sides[2];
    let top = sides[3];
    settle(
        caption_frame(buf, writer_of(writer), left, bottom, right, top, label),
        writer,
        at,
    )
}
