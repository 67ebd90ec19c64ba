// The makers: each appends several records, all or nothing. All are planned, each from the writer after the one before it, before the first is stored. What they give is
// well typed, as what the writer's calls give is.
#![tactic(auto)]

ghost use Rattle.std.specs.Prelude.{◌≡◌, [], ◌∷◌, ◌++◌, ◌+◌, ◌*◌, ◌≤◌, length};
ghost use Rattle.cgx_spec.specs.Records.{bytes_of};
ghost use Rattle.buffers.specs.Put.{put};
ghost use Rattle.cgx_write_given.specs.Given.{written};
ghost use Rattle.cgx_write_given.specs.Typed.{AllWell};
ghost use Rattle.cgx_write_given.specs.Writing.{max_size};
ghost use Rattle.cgx_write_makers.specs.Makers.{corners, card_layer, card_wire, outline, caption, card_calls, frame_calls, all_in};
ghost use Rattle.cgx_write_makers.specs.Planned.{all_planned};

use cgx_format_kinds::{DataType, Layer, LayerNo, Point};
use cgx_write_given::{Answer, Writer, wire_size};
use cgx_write_plans::{plan_layer, plan_text, plan_wire};
use cgx_write_stores::{store_layer, store_text, store_wire};

// The test card: LAYER 1, and a wire with flush ends around the four sides.
pub fn test_card(
    buf: &mut [u8],
    writer: Writer,
    left: i32,
    bottom: i32,
    right: i32,
    top: i32,
) -> Answer
    ensures buf_after { record { answer = result; buffer = buf.new } ≡ all_in buf.old writer (card_calls left bottom right top) }
    ensures typed { AllWell (card_calls left bottom right top) }
{
    let corners = corners_of(left, bottom, right, top);
    let after = plan_outline(buf.len(), writer, &corners)?;
    store_outline(buf, writer.cursor.at, &corners);
    Ok(after)
}

// The studio's caption frame: the same two records, and a TEXT at the left and the bottom.
pub fn caption_frame(
    buf: &mut [u8],
    writer: Writer,
    left: i32,
    bottom: i32,
    right: i32,
    top: i32,
    label: &[u8],
) -> Answer
    ensures buf_after { record { answer = result; buffer = buf.new } ≡ all_in buf.old writer (frame_calls left bottom right top label.now) }
    ensures typed { AllWell (frame_calls left bottom right top label.now) }
{
    let corners = corners_of(left, bottom, right, top);
    let at = Point { x: left, y: bottom };
    let after = plan_frame(buf.len(), writer, &corners, at, label)?;
    let to = store_outline(buf, writer.cursor.at, &corners);
    store_text(buf, to, 0, at, WIDTH, label);
    Ok(after)
}

// The width of the wire and of the caption.
const WIDTH: i32 = 2;

// The wire's ends are flush, whatever a wire without a style gets.
const STYLE: u8 = 0;

// ---- the plans: what the last record answers, or the first that is refused
// A match and no `?`, which at -Oz copies an answer through memory once more: the caption frame has the deepest stack of all calls there (docs/TARGETS.md). At -O2 they
// are compiled into the makers.

#[inline]
fn plan_outline(room: usize, w: Writer, points: &[i32]) -> Answer
    ensures { result ≡ all_planned room w (outline points.now) }
{
    match plan_layer(room, w, LayerNo(1), DataType(0)) {
        Ok(next) => plan_wire(room, next, Some(STYLE), WIDTH, points),
        Err(refusal) => Err(refusal),
    }
}

#[inline]
fn plan_frame(room: usize, w: Writer, points: &[i32], at: Point, label: &[u8]) -> Answer
    ensures { result ≡ all_planned room w (outline points.now ++ (caption at label.now ∷ [])) }
{
    match plan_outline(room, w, points) {
        Ok(next) => plan_text(room, next, 0, at, WIDTH, label),
        Err(refusal) => Err(refusal),
    }
}

// ---- the two records that both makers append

// The points of the wire: from the left and the bottom around, and back.
fn corners_of(left: i32, bottom: i32, right: i32, top: i32) -> [i32; 10]
    ensures { result ≡ corners left bottom right top }
{
    [
        left, bottom, right, bottom, right, top, left, top, left, bottom,
    ]
}

// Answers the offset after them.
fn store_outline(buf: &mut [u8], at: usize, points: &[i32]) -> usize
    requires { (at + (16 + 4 * length points.now) ≤ length buf.old) × (8 + 4 * length points.now ≤ max_size) }
    ensures { (result ≡ at + (16 + 4 * length points.now)) × (buf.new ≡ put (put buf.old at (bytes_of (written card_layer))) (at + 8) (bytes_of (written (card_wire points.now)))) }
{
    let next = at + Layer::MIN_SIZE;
    store_layer(buf, at, LayerNo(1), DataType(0));
    store_wire(buf, next, Some(STYLE), WIDTH, points);
    next + wire_size(points)
}
