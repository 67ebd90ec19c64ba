// An SREF's layout: which of angle, magnif and array its flags say that it has, and where its fields begin.
#![tactic(auto)]

ghost use Rattle.std.specs.Prelude.{◌≡◌, cond, ◌+◌, ◌≤◌};
ghost use Rattle.cgx_format_sref.specs.Layouts.{sref_layout, Laid};

use cgx_format_kinds::Sref;

#[derive(Clone, Copy)]
pub struct SrefLayout {
    // It has an angle, a magnif, an array.
    pub turned: bool,
    pub scaled: bool,
    pub repeated: bool,
    // Where magnif, array and name begin, in bytes from the record's first. The angle begins at 12. No `Option` each: such an offset is that of the next field
    // where this one is not there (no plainer).
    pub magnif: usize,
    pub array: usize,
    pub name: usize,
}

pub fn sref_layout(flags: u8) -> SrefLayout
    ensures value { result ≡ sref_layout flags }
    ensures inside { Laid result }
{
    let turned = flags % 2 == 1;
    let scaled = flags / 2 % 2 == 1;
    let repeated = flags / 8 % 2 == 1;
    let magnif = after(turned, 12, Sref::REAL_SIZE);
    let array = after(scaled, magnif, Sref::REAL_SIZE);
    let name = after(repeated, array, Sref::ARRAY_SIZE);
    SrefLayout {
        turned,
        scaled,
        repeated,
        magnif,
        array,
        name,
    }
}

// Where the next field begins: w bytes after o, if this one is there. The offset counts either way, so that an `Option` of it would not do.
fn after(there: bool, o: usize, w: usize) -> usize
    requires { (o ≤ 100) × (w ≤ 100) }
    ensures { result ≡ cond there (o + w) o }
{
    if there { o + w } else { o }
}
