// The sequence of an accepted file: its known records one after another, not judged again.
#![tactic(auto)]

ghost use Rattle.std.specs.Prelude.{◌≡◌};
ghost use Rattle.cgx_read_sequence.specs.Sequence.{Along, NextIn};

use cgx_format_headers::{KnownRecord, header_of};

// The next known record of an accepted file, from an offset on at which a record begins or the file ends. Unknown ones are skipped.
pub fn next_known(file: &[u8], from: usize) -> Option<KnownRecord>
    requires { Along file.now from }
    ensures { NextIn file.now from result }
{
    // By offset, since each record tells how far the next one is: no range and no chunks are plainer.
    let mut at = from;
    while at < file.len() {
        let h = header_of(file, at);
        if let Some(kind) = h.kind {
            return Some(KnownRecord {
                at,
                size: h.size,
                kind,
                flags: h.flags,
            });
        }
        at += h.size;
    }
    None
}
