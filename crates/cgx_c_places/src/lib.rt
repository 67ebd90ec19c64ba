// Places in a C caller's memory. A caller lends a cgx_place of include/cgx.h, which is taken as six words of eight bytes, and a number for the offset that a refusal names.
#![tactic(auto)]

ghost use Rattle.std.specs.Prelude.{◌≡◌};
ghost use Rattle.cgx_c_places.specs.Words.{seen_word, cursor_words, cursor_in, told_at};

use cgx_format_cursor::{Cursor, State, first_of};

pub type PlaceWords = [u64; 6];

// A function and no `From`: words and cursor are both types of other crates.
pub fn cursor_of(w: &PlaceWords) -> Cursor
    ensures { result ≡ cursor_in w.now }
{
    let at = w[0] as usize;
    let cell = w[1] as usize;
    let layer = w[2] as usize;
    let first = w[3] as usize;
    let count = w[4] as usize;
    let seen = w[5];
    Cursor {
        at,
        state: State {
            cell,
            layer,
            // The first of a run of none is not looked at.
            first: first_of(first, count, 0),
            count,
            library: seen % 2 == 1,
            fresh: seen / 2 % 2 == 1,
            ended: seen / 4 % 2 == 1,
        },
    }
}

// All words at once: a contract knows nothing of the length of a lent array, so that six stores could not be said to be all of it.
pub fn put_cursor(w: &mut PlaceWords, c: Cursor)
    ensures { w.new ≡ cursor_words c }
{
    let at = c.at;
    let s = c.state;
    *w = [
        at as u64,
        s.cell as u64,
        s.layer as u64,
        s.first as u64,
        s.count as u64,
        seen_word(s.library, s.fresh, s.ended),
    ];
}

fn seen_word(library: bool, fresh: bool, ended: bool) -> u64
    ensures { result ≡ seen_word library fresh ended }
{
    u64::from(library) + 2 * u64::from(fresh) + 4 * u64::from(ended)
}

// The offset that a refusal names: where it names none, the caller's number stays.
pub fn put_offset(at: &mut u64, o: Option<usize>)
    ensures { at.new ≡ told_at o at.old }
{
    if let Some(n) = o {
        *at = n as u64;
    }
}
