// The name shown for a layer: a part of the file, or of a substitute text that the caller lends.
#![tactic(auto)]

ghost use Rattle.std.specs.Prelude.{◌≡◌};
ghost use Rattle.cgx_ask_layer_name.specs.Layers.{layer_answer, name_answer_of, name_answer_text, name_answer_ptr, NameAnswerInside, LayerSizeIs, is_layer};

use cgx_format_headers::header_at;
use cgx_format_records::body_fault;
use cgx_read_fields::layer_of;
use cgx_spec::{Fault, Kind, Refusal};

// What is shown: no layer's name, a part of the file, or the whole substitute. Three cases, which an `Option` of an `Option` would not make plainer.
#[derive(Clone, Copy)]
pub enum NameAnswer {
    NoLayer,
    OfFile { at: usize, len: usize },
    OfSubstitute,
}

// Whether there is a good LAYER at an offset; refusal 16 where there is none.
pub fn layer_at(file: &[u8], at: usize) -> Result<(), Refusal>
    ensures { result ≡ layer_answer file.now at }
{
    match layer_size(file, at) {
        Some(_) => Ok(()),
        None => Err(Fault::NoSuch.nowhere()),
    }
}

// The name shown for the layer at an offset. The promise has its bytes, and its place: it is the very part of the file or of the
// substitute that `layer_name_at` tells; where there is no good LAYER, the empty beginning of the substitute.
pub fn layer_name<'a>(file: &'a [u8], at: usize, substitute: &'a [u8]) -> &'a [u8]
    ensures result_value { result.now ≡ name_answer_text file.now substitute.now (name_answer_of file.now at) }
    ensures place { result.ref_ptr ≡ name_answer_ptr file.entry.ref_ptr substitute.entry.ref_ptr (name_answer_of file.now at) }
{
    let shown = layer_name_at(file, at);
    match shown {
        NameAnswer::NoLayer => &substitute[0..0],
        NameAnswer::OfFile { at: from, len } => {
            let end = from + len;
            &file[from..end]
        }
        NameAnswer::OfSubstitute => substitute,
    }
}

// The same, told by offset and length.
pub fn layer_name_at(file: &[u8], at: usize) -> NameAnswer
    ensures value { result ≡ name_answer_of file.now at }
    ensures inside { NameAnswerInside file.now result }
{
    let Some(size) = layer_size(file, at) else {
        return NameAnswer::NoLayer;
    };
    match layer_of(file, at, size).name {
        None => NameAnswer::OfSubstitute,
        Some(text) => {
            if text.len == 0 {
                return NameAnswer::OfSubstitute;
            }
            NameAnswer::OfFile {
                at: text.at,
                len: text.len,
            }
        }
    }
}

// The size of the good LAYER at an offset, if there is one. Nothing before the offset is read.
fn layer_size(file: &[u8], at: usize) -> Option<usize>
    ensures { LayerSizeIs file.now at result }
{
    if at < 4 {
        return None;
    }
    if at % 2 == 1 {
        return None;
    }
    if file.len() < at {
        return None;
    }
    let Ok(h) = header_at(file, at) else {
        return None;
    };
    if !is_layer(h.kind) {
        return None;
    }
    let from = at + Kind::HEADER_SIZE;
    let to = at + h.size;
    // Not by `layer_fault`: with this second caller `body_fault` stays out of line, and the check's loop small.
    match body_fault(Kind::Layer, h.flags, &file[from..to]) {
        Ok(()) => Some(h.size),
        Err(_) => None,
    }
}

fn is_layer(t: Option<Kind>) -> bool
    ensures { result ≡ is_layer t }
{
    match t {
        Some(k) => k == Kind::Layer,
        None => false,
    }
}
