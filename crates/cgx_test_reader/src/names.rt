// The names shown for the layers of a file, as the parts of the file or of the substitute that they are.
use crate::printing::{print, quoted, then_size};
use cgx_ask_layer_name::{layer_at, layer_name};
use cgx_spec::Fault;
use std::io;

// Every offset is asked, and the end.
pub fn show_names(rt: &impl Print, file: &[u8]) -> io::Result<()> {
    let n = file.len();
    for at in 0..n {
        show_name(rt, file, at)?;
    }
    show_name(rt, file, n)
}

// Where there is no good LAYER, nothing is said unless a name is shown.
fn show_name(rt: &impl Print, file: &[u8], at: usize) -> io::Result<()> {
    let name = layer_name(file, at, b"unnamed");
    match layer_at(file, at) {
        Ok(()) => {
            print(rt, b"layer")?;
            then_size(rt, at)?;
            quoted(rt, name)
        }
        Err(r) if r.number == Fault::NoSuch.number() && name.is_empty() => Ok(()),
        Err(_) => print(rt, b"no layer, but a name\n"),
    }
}
