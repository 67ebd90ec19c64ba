// One record copied in normal form: its bytes as they are, then the flags that are meant and the normal reals stored
// over them. A large record is one vector loop.
#![tactic(auto)]

ghost use Rattle.std.specs.Prelude.{◌≡◌, ◌+◌, ◌≤◌, length, drop, set};
ghost use Rattle.cgx_spec.specs.Kinds.{text_place, text_flags, flags_of};
ghost use Rattle.cgx_spec.specs.Records.{bytes_of, normal_of};
ghost use Rattle.cgx_spec.specs.Walking.{rec_at};
ghost use Rattle.buffers.specs.Put.{put};
ghost use Rattle.cgx_normal_copy.specs.Copy.{reals_in, real_width, reals_end, real_if, normal_reals, Copyable};

use buffers::put_bytes;
use cgx_format_sref::sref_layout;
use cgx_spec::Kind;
use reals::normal_bytes;

// Copies the record of `size` bytes at `at`, of kind k, to the buffer from `to` on.
pub fn copy_record(f: &[u8], k: Kind, at: usize, size: usize, out: &mut [u8], to: usize)
    requires { Copyable k f.now at size out.old to }
    ensures { out.new ≡ put out.old to (bytes_of (normal_of k (rec_at f.now at size))) }
{
    let flags = f[at + 3];
    let end = at + size;
    copy_flagged(&f[at..end], flags_meant(k, flags), out, to);
    let body = at + 4;
    put_reals(reals_in(k, flags), &f[body..end], out, to + 4);
}

// ---- flags

// Meaningless flags are 0, and a TEXT's place 3 is 0 too.
pub fn flags_meant(k: Kind, fl: u8) -> u8
    ensures { result ≡ flags_of k fl }
{
    match k {
        Kind::Library | Kind::Wire | Kind::Sref => fl,
        Kind::Text => text_flags(fl),
        _ => 0,
    }
}

fn text_flags(fl: u8) -> u8
    ensures { result ≡ text_flags fl }
{
    fl % 16 + 16 * text_place(fl / 16 % 4) + 64 * text_place(fl / 64 % 4)
}

fn text_place(p: u8) -> u8
    ensures { (result ≡ text_place p) × (result ≤ p) }
{
    if p == 3 { 0 } else { p }
}

// ---- the bytes of a record

// A record with other flags.
fn copy_flagged(whole: &[u8], flags: u8, out: &mut [u8], to: usize)
    requires { (4 ≤ length whole.now) × (to + length whole.now ≤ length out.old) }
    ensures { out.new ≡ put out.old to (set whole.now 3 flags) }
{
    put_bytes(out, to, whole);
    out[to + 3] = flags;
}

// ---- reals

// The reals of a body: at most two, one after another from byte `skip` on. Whether each is there, and no `Option` of it: it is read and stored where it lies (no plainer).
#[derive(Clone, Copy)]
struct Reals {
    skip: usize,
    first: bool,
    second: bool,
}

// LIBRARY's munit and uunit; SREF's angle and magnif, each where its flag is set.
fn reals_in(k: Kind, fl: u8) -> Reals
    ensures { result ≡ reals_in k fl }
{
    match k {
        Kind::Library => Reals {
            skip: 0,
            first: true,
            second: true,
        },
        Kind::Sref => {
            let l = sref_layout(fl);
            Reals {
                skip: 8,
                first: l.turned,
                second: l.scaled,
            }
        }
        _ => Reals {
            skip: 0,
            first: false,
            second: false,
        },
    }
}

// Stores the normal reals of a body where they are in its copy, which begins at `to`.
fn put_reals(reals: Reals, body: &[u8], out: &mut [u8], to: usize)
    requires { (reals_end reals ≤ length body.now) × (to + reals_end reals ≤ length out.old) }
    ensures { out.new ≡ put out.old (to + reals.skip) (normal_reals reals body.now) }
{
    let at = reals.skip;
    let first = reals.first;
    let second = reals.second;
    put_real(first, body, at, out, to + at);
    let next = at + real_width(first);
    put_real(second, body, next, out, to + next);
}

// `there` is a flag of `Reals`, which says of both reals of a kind whether they are there: neither has an offset before the one before it is known, so that `Option`s would not do.
fn real_width(there: bool) -> usize
    ensures { result ≡ real_width there }
{
    if there { 8 } else { 0 }
}

fn put_real(there: bool, body: &[u8], at: usize, out: &mut [u8], to: usize)
    requires { (at + real_width there ≤ length body.now) × (to + real_width there ≤ length out.old) }
    ensures { out.new ≡ put out.old to (real_if there (drop at body.now)) }
{
    if there {
        let end = at + 8;
        let real = normal_bytes(&body[at..end]);
        put_bytes(out, to, &real);
    }
}
