// A reader that holds a file's bytes and its place in a walk over them, thin over `step`. `read_next` and `read_on` have plain parameters.
#![tactic(auto)]

ghost use Rattle.std.specs.Prelude.{◌≡◌};
ghost use Rattle.cgx_read_walk.specs.Walk.{StepMade};
ghost use Rattle.cgx_read_reader.specs.Reading.{left_at, Moves};

use cgx_format_cursor::Cursor;
use cgx_read_walk::{Outcome, step};

#[derive(Clone, Copy)]
pub struct Reader<'a> {
    pub file: &'a [u8],
    pub place: Cursor,
}

impl<'a> Reader<'a> {
    // A reader at a place: the one that `start` gives, or a later one.
    pub fn new(file: &'a [u8], place: Cursor) -> Reader<'a>
        ensures { (result.file ≡ file.entry) × (result.place ≡ place) }
    {
        Reader { file, place }
    }

    // What the next step answers. The reader stays where it is.
    pub fn peek(self) -> Outcome
        ensures { StepMade self.entry.file.now self.entry.place result }
    {
        step(self.file, self.place)
    }

    // One step. The reader goes on after the record that it is given, and stays where it is at the end or at a refusal.
    pub fn next(&mut self) -> Outcome
        ensures { (self.new.file ≡ self.old.file) × Moves self.old.file.now self.old.place result self.new.place }
    {
        let moved = step_from(self.file, self.place);
        self.place = moved.place;
        moved.outcome
    }
}

// One step, by a reader made for it: public beside `Reader::peek`, as `read_on` beside `Reader::next` (what may not change: both are called by name).
pub fn read_next(file: &[u8], place: Cursor) -> Outcome
    ensures { StepMade file.now place result }
{
    Reader::new(file, place).peek()
}

// What a step answers, and the place after it.
#[derive(Clone, Copy)]
pub struct Moved {
    pub outcome: Outcome,
    pub place: Cursor,
}

// One step, by a reader made for it, and the place where that reader is afterwards.
pub fn read_on(file: &[u8], place: Cursor) -> Moved
    ensures { Moves file.now place result.outcome result.place }
{
    let mut reader = Reader::new(file, place);
    let outcome = reader.next();
    Moved {
        outcome,
        place: reader.place,
    }
}

// ---- what `next` does with the plain bytes and place

fn step_from(file: &[u8], place: Cursor) -> Moved
    ensures { Moves file.now place result.outcome result.place }
{
    let outcome = step(file, place);
    let after = left_at(place, outcome);
    Moved {
        outcome,
        place: after,
    }
}

fn left_at(place: Cursor, o: Outcome) -> Cursor
    ensures { result ≡ left_at place o }
{
    match o {
        Outcome::Record(_, after) => after,
        Outcome::Done => place,
        Outcome::Refused(_, _) => place,
    }
}
