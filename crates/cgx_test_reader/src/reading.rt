// What a reader answers over a file, to its end or refusal and a step further, and the labels of the texts.
use crate::printing::{print, quoted, show_place, show_refusal, then_size};
use cgx_format_cursor::Cursor;
use cgx_format_kinds::Fields;
use cgx_read_lists::text_bytes;
use cgx_read_reader::{read_next, read_on};
use cgx_read_walk::{Outcome, start};
use cgx_spec::Refusal;
use std::io;

pub fn show_reading(rt: &impl Print, file: &[u8]) -> io::Result<()> {
    match start(file) {
        Ok(place) => read_from(rt, file, place),
        Err(refusal) => show_refusal(rt, Refusal::from(refusal)),
    }
}

// A record takes at least a byte, so that there are enough turns for each record and the end.
fn read_from(rt: &impl Print, file: &[u8], first: Cursor) -> io::Result<()> {
    let mut place = first;
    for _ in 0..file.len() {
        let step = show_step(rt, file, place)?;
        place = step.place;
        if !step.more {
            show_step(rt, file, place)?;
            return Ok(());
        }
    }
    print(rt, b"without end\n")
}

// Where a reader is after a step, and whether it was given a record. The place counts either way, so that an `Option` of it would not do.
#[derive(Clone, Copy)]
struct Shown {
    more: bool,
    place: Cursor,
}

// One step of a reader at this place.
fn show_step(rt: &impl Print, file: &[u8], place: Cursor) -> io::Result<Shown> {
    print(rt, b"peek")?;
    show_outcome(rt, file, read_next(file, place))?;
    let moved = read_on(file, place);
    let outcome = moved.outcome;
    let after = moved.place;
    print(rt, b"next")?;
    let more = show_outcome(rt, file, outcome)?;
    show_place(rt, after.at)?;
    Ok(Shown { more, place: after })
}

// Whether it is a record.
fn show_outcome(rt: &impl Print, file: &[u8], o: Outcome) -> io::Result<bool> {
    match o {
        Outcome::Record(view, _) => {
            let fields = view.fields;
            then_size(rt, view.at)?;
            show_label(rt, file, fields)?;
            Ok(true)
        }
        Outcome::Done => {
            print(rt, b" done\n")?;
            Ok(false)
        }
        Outcome::Refused(refusal, _) => {
            print(rt, b" ")?;
            show_refusal(rt, refusal)?;
            Ok(false)
        }
    }
}

fn show_label(rt: &impl Print, file: &[u8], f: Fields) -> io::Result<()> {
    if let Fields::Text(r) = f {
        quoted(rt, text_bytes(file, r.label))
    } else {
        print(rt, b"\n")
    }
}
