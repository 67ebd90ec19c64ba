// Numbers, texts, refusals and places. `then_` prints a space first. No contract can speak of what is printed: each function is safe
// and ends, with an error where a write fails.
use cgx_spec::Refusal;
use std::io;

pub fn print(rt: &impl Print, text: &[u8]) -> io::Result<()> {
    rt.write_all(text)
}

pub fn then_size(rt: &impl Print, n: usize) -> io::Result<()> {
    then_number(rt, n as u64)
}

fn then_number(rt: &impl Print, n: u64) -> io::Result<()> {
    print!(rt; " {n}")
}

// A text, at the end of a line.
pub fn quoted(rt: &impl Print, text: &[u8]) -> io::Result<()> {
    print(rt, b" \"")?;
    print(rt, text)?;
    print(rt, b"\"\n")
}

pub fn show_refusal(rt: &impl Print, r: Refusal) -> io::Result<()> {
    print(rt, b"refused")?;
    then_number(rt, r.number as u64)?;
    if let Some(place) = r.at {
        print(rt, b" at")?;
        then_size(rt, place)?;
    }
    print(rt, b"\n")
}

pub fn show_place(rt: &impl Print, at: usize) -> io::Result<()> {
    print(rt, b"  place")?;
    then_size(rt, at)?;
    print(rt, b"\n")
}
