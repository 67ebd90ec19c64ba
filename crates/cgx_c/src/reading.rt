// The checker, the walk, the normal-form maker, reals, layer names and extents.
ghost use Rattle.std.specs.Prelude.{◌≡◌, length as length_of};
ghost use Rattle.cgx_spec.specs.Files.{verdict_of};
ghost use Rattle.cgx_spec.specs.Reals.{answer};
ghost use Rattle.doubles.specs.Doubles.{real_from};
ghost use Rattle.cgx_read_check.specs.Measure.{measure_of};
ghost use Rattle.cgx_read_walk.specs.Walk.{start_of};
ghost use Rattle.cgx_read_lists.specs.Lists.{box_of, point_of, within};
ghost use Rattle.cgx_normal_form.specs.NormalAnswer.{normal_answer_of, output_after};
ghost use Rattle.cgx_ask_layer_name.specs.Layers.{layer_answer, name_answer_of};
ghost use Rattle.cgx_ask_extent.specs.Extent.{extent_of};
ghost use Rattle.cgx_c_answers.specs.Told.{verdict_told, start_told, list_in, span_in, box_told, point_told, inside_told, layer_told, name_told, extent_told, length_told, normal_told, double_told, real_told};
ghost use Rattle.cgx_c_step.specs.Lent.{StepLent};

use cgx_ask_extent::extent;
use cgx_ask_layer_name::{layer_at, layer_name_at};
use cgx_c_answers::{
    list_of, span_of, tell_box, tell_double, tell_extent, tell_inside, tell_layer, tell_length,
    tell_name, tell_normal, tell_point, tell_real, tell_start, tell_verdict,
};
use cgx_c_places::PlaceWords;
use cgx_c_step::step_over;
use cgx_c_views::ViewWords;
use cgx_normal_form::normal_form;
use cgx_read_check::{check, measure};
use cgx_read_lists::{box_at, point_at, text_inside};
use cgx_read_walk::start;
use doubles::real_from_bits;
use reals::real_of;

// CGX_VERSION of include/cgx.h.
#[unsafe(no_mangle)]
pub extern "C" fn cgx_version() -> u32
    ensures { result ≡ 0x30000 }
{
    0x3_0000
}

#[unsafe(no_mangle)]
pub extern "C" fn cgx_check(file: &[u8], at: &mut u64) -> u32
    ensures { record { number = result; at = at.new } ≡ verdict_told (verdict_of file.now) at.old }
{
    tell_verdict(check(file), at)
}

// ---- the walk

#[unsafe(no_mangle)]
pub extern "C" fn cgx_start(file: &[u8], place: &mut PlaceWords, at: &mut u64) -> u32
    ensures { record { number = result; filled = place.new; at = at.new } ≡ start_told (start_of file.now) place.old at.old }
{
    tell_start(start(file), place, at)
}

#[unsafe(no_mangle)]
pub extern "C" fn cgx_step(
    file: &[u8],
    place: &mut PlaceWords,
    view: &mut ViewWords,
    at: &mut u64,
) -> u32
    ensures { StepLent file.now place.old view.old at.old result place.new view.new at.new }
{
    step_over(file, place, view, at)
}

#[unsafe(no_mangle)]
pub extern "C" fn cgx_box_at(file: &[u8], boxes: &[u64; 2], i: usize, sides: &mut [i32; 4]) -> u32
    ensures { record { number = result; filled = sides.new } ≡ box_told (box_of file.now (list_in boxes.now) i) sides.old }
{
    tell_box(box_at(file, list_of(boxes), i), sides)
}

#[unsafe(no_mangle)]
pub extern "C" fn cgx_point_at(
    file: &[u8],
    points: &[u64; 2],
    i: usize,
    point: &mut [i32; 2],
) -> u32
    ensures { record { number = result; filled = point.new } ≡ point_told (point_of file.now (list_in points.now) i) point.old }
{
    tell_point(point_at(file, list_of(points), i), point)
}

#[unsafe(no_mangle)]
pub extern "C" fn cgx_text_inside(file: &[u8], text: &[u64; 2]) -> u32
    ensures { result ≡ inside_told (within (length_of file.now) (span_in text.now)) }
{
    tell_inside(text_inside(file, span_of(text)))
}

// ---- reals: a real is its word, a double its bits

#[unsafe(no_mangle)]
pub extern "C" fn cgx_real_double(real: &u64, value: &mut f64) -> u32
    ensures { record { number = result; filled = value.new } ≡ double_told (answer real.now) value.old }
{
    tell_double(real_of(*real), value)
}

#[unsafe(no_mangle)]
pub extern "C" fn cgx_real_from_double(value: &u64, real: &mut u64) -> u32
    ensures { record { number = result; filled = real.new } ≡ real_told (real_from value.now) real.old }
{
    tell_real(real_from_bits(*value), real)
}

// ---- questions about a layer and a cell

// 0 where a good LAYER is at the offset, else 16.
#[unsafe(no_mangle)]
pub extern "C" fn cgx_layer_at(file: &[u8], at: usize) -> u32
    ensures { result ≡ layer_told (layer_answer file.now at) }
{
    tell_layer(layer_at(file, at))
}

#[unsafe(no_mangle)]
pub extern "C" fn cgx_layer_name(
    file: &[u8],
    at: usize,
    substitute: &[u8],
    name: &mut [u64; 2],
) -> u32
    ensures { record { number = result; filled = name.new } ≡ name_told (name_answer_of file.now at) (length_of substitute.now) name.old }
{
    tell_name(layer_name_at(file, at), substitute.len(), name)
}

#[unsafe(no_mangle)]
pub extern "C" fn cgx_extent(file: &[u8], cell: usize, sides: &mut [i32; 4], at: &mut u64) -> u32
    ensures { record { number = result; filled = sides.new; at = at.new } ≡ extent_told (extent_of file.now cell) sides.old at.old }
{
    tell_extent(extent(file, cell), sides, at)
}

// ---- the normal form

#[unsafe(no_mangle)]
pub extern "C" fn cgx_normal_length(file: &[u8], length: &mut u64, at: &mut u64) -> u32
    ensures { record { number = result; filled = length.new; at = at.new } ≡ length_told (measure_of file.now) length.old at.old }
{
    tell_length(measure(file), length, at)
}

#[unsafe(no_mangle)]
pub extern "C" fn cgx_normal_form(
    file: &[u8],
    out: &mut [u8],
    length: &mut u64,
    at: &mut u64,
) -> u32
    ensures at_after { record { number = result; filled = length.new; at = at.new } ≡ normal_told (normal_answer_of file.now (length_of out.old)) length.old at.old }
    ensures output { out.new ≡ output_after file.now out.old }
{
    tell_normal(normal_form(file, out), length, at)
}
