// What only Rattle can reach, run on files: a reader, the bytes of a text, and the name shown for a layer, which are a struct with a
// reference and parts of the file. Each argument names a file. All else is reached from C, and tested there. The harness writes the
// files, and says what is to be printed of each (`cargo run --bin vectors -- --write`):
//
//   NAME
//   refused N at P         where the file begins badly; else of each step
//   peek OFFSET            what `peek` answers: the record at this offset, done, or refused N at P
//   peek OFFSET "BYTES"    the same of a TEXT, with its label
//   next OFFSET            what `next` answers, in the same way
//     place OFFSET         where the reader is then
//   layer OFFSET "BYTES"   the name shown for each good LAYER, asked at every offset
//
// After the end or a refusal one step more is taken, which must answer the same and leave the reader where it is.
#![tactic(auto)]

mod names;
mod printing;
mod reading;

ghost use Rattle.std.specs.Prelude.{◌≤◌, length};

use names::show_names;
use printing::print;
use reading::show_reading;
use std::env::{Env, FillError};
use std::fs::File;
use std::io::Read;
use std::rt::Files;
use std::{io, str};

fn main(rt: HostRuntime) -> io::Result<()> {
    for i in 1..usize::MAX {
        if !one(&rt, i)? {
            break;
        }
    }
    Ok(())
}

// What is said of the file that argument i names. Whether there is such an argument.
fn one<R: Env + Files + Print>(rt: &R, i: usize) -> io::Result<bool> {
    let mut name = [0u8; 4096];
    let n = match rt.arg(i, &mut name) {
        Ok(n) => n,
        // No path is as long, and no name is shown.
        Err(FillError::TooLong) => 0,
        Err(FillError::NotPresent) => return Ok(false),
    };
    print(rt, &name[..n])?;
    print(rt, b"\n")?;
    match open_named(rt, &name[..n]) {
        None => print(rt, b"cannot be opened\n")?,
        Some(mut file) => show_file(rt, &mut file)?,
    }
    Ok(true)
}

// The file of this name. std's paths are UTF-8, so that one whose name is not cannot be opened.
fn open_named<R: Files>(files: &R, name: &[u8]) -> Option<R::File> {
    let path = str::from_utf8(name).ok()?;
    File::open(files, path).ok()
}

// No file is longer than the 4,096 bytes of the buffer (a rule of the project: no heap).
fn show_file<P: Print, F: Read>(rt: &P, file: &mut F) -> io::Result<()> {
    let mut buf = [0u8; 4096];
    let n = read_full(file, &mut buf);
    show(rt, &buf[..n])
}

// Reads until the buffer is full, the input ends or a read fails: how many bytes are at its beginning then. A loop of its own, as in cgx_list_io.
fn read_full<F: Read>(file: &mut F, buf: &mut [u8]) -> usize
    ensures { result ≤ length buf.new }
{
    let mut done = 0;
    while done < buf.len() {
        match file.read(&mut buf[done..]) {
            Ok(0) | Err(_) => break,
            Ok(n) => done += n,
        }
    }
    done
}

fn show(rt: &impl Print, file: &[u8]) -> io::Result<()> {
    show_reading(rt, file)?;
    show_names(rt, file)
}
