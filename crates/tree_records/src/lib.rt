// Trees as records in a lent workspace of 32-bit numbers: 8 numbers for each record, children given
// by place.
#![tactic(auto)]

ghost use Rattle.std.specs.Prelude.{◌≡◌, List, [], ◌∷◌, ◌+◌, ◌*◌, ◌^◌, ◌≤◌, ◌<◌, length};
ghost use Rattle.tree_records.specs.Lies.{at};
ghost use Rattle.tree_records.specs.Made.{Wrote};
ghost use Rattle.tree_records.specs.Holds.{Inside, Grew, Pushed, Remembered};
ghost use Rattle.tree_records.specs.Trees.{Fresh, Begun, Stays, Reads, Peeks, Pops, numbers};

use definition::Refusal;
use machine::budget::Budget;
use machine::kinds::Kind;

// The places on the stack are stored from STACK * n on, those that are remembered from SEEN * n on.
pub const STACK: usize = 60;

pub const SEEN: usize = 61;

// The counts, the number of records, and the numbers of places on the stack and remembered.
#[derive(Clone, Copy)]
pub struct State {
    pub budget: Budget,
    pub top: usize,
    pub depth: usize,
    pub seen: usize,
}

impl State {
    // Returns the state at the beginning of a run: no tree is made.
    pub fn new() -> Self
        ensures { Fresh result }
    {
        State {
            budget: Budget::new(),
            top: 0,
            depth: 0,
            seen: 0,
        }
    }
}

// Trees as records in a lent workspace: 8 numbers for each record, children given by place. The
// ceiling is n.
// Kept: what the workspace holds, and how much it has to spare (`Has`, `Inside`), stands in clauses
// of the functions and is no ghost field. What there is to spare changes within an operator: a node
// is charged before it is made, and trees are taken one by one. The weakest of these facts, that
// some machine is stored (`nothing_spare`), would be asked of `grow`, `push` and `remember` too,
// which now ask for numbers only.
#[derive(Drop)]
pub struct Trees<'a> {
    pub ws: &'a mut [u32],
    pub n: usize,
    pub state: State,
}

// The 8 numbers of a record: its kind, size and count, and 5 that its kind gives a meaning. A cell
// of a list is a record, too: its label, its tree and the cell after it are a, b and c.
#[derive(Clone, Copy)]
pub struct Record {
    pub kind: Kind,
    pub size: u32,
    pub count: u32,
    pub a: u32,
    pub b: u32,
    pub c: u32,
    pub d: u32,
    pub e: u32,
}

impl Record {
    // Where each number is.
    // Kept: a field is a number below 8 and no enum, since `Source::field` of the printer has the
    // same numbers, and takes them from the codes of pieces, too.
    pub const KIND: usize = 0;

    pub const SIZE: usize = 1;

    pub const COUNT: usize = 2;

    pub const A: usize = 3;

    pub const B: usize = 4;

    // The number that says that a label is missing.
    pub const NO_LABEL: u32 = 4294967295;

    // A record whose numbers are 0, among them that of its kind.
    pub const ZERO: Record = Record {
        kind: Kind::Identifier,
        size: 0,
        count: 0,
        a: 0,
        b: 0,
        c: 0,
        d: 0,
        e: 0,
    };
}

// The last 5 numbers of a record.
#[derive(Clone, Copy)]
pub struct Fields {
    pub a: u32,
    pub b: u32,
    pub c: u32,
    pub d: u32,
    pub e: u32,
}

// Writes the 8 numbers of one record at a place. Any number may be its kind.
pub fn make(ws: &mut [u32], place: usize, kind: u32, size: u32, count: u32, rest: Fields)
    requires { 8 * place + 8 ≤ length ws.old }
    ensures { Wrote ws.old ws.new place (kind ∷ size ∷ count ∷ rest.a ∷ rest.b ∷ rest.c ∷ rest.d ∷ rest.e ∷ []) }
{
    let i = 8 * place;
    ws[i] = kind;
    ws[i + 1] = size;
    ws[i + 2] = count;
    ws[i + 3] = rest.a;
    ws[i + 4] = rest.b;
    ws[i + 5] = rest.c;
    ws[i + 6] = rest.d;
    ws[i + 7] = rest.e;
}

impl<'a> Trees<'a> {
    // Returns the trees at the beginning of a run, whatever the workspace holds.
    pub fn new(ws: &'a mut [u32], n: usize) -> Self
        ensures { Begun ws.entry n result }
    {
        Trees {
            ws,
            n,
            state: State::new(),
        }
    }
}

impl Trees<'_> {
    // Returns one number of the record at a place.
    pub fn field(&self, place: usize, k: usize) -> u32
        requires { (8 * place + 8 ≤ length self.now.ws.now) × (k < 8) }
        ensures { result ≡ at self.now.ws.now place k }
    {
        self.ws[8 * place + k]
    }

    // Returns a number of the record at a place that is the place of another.
    pub fn child(&self, place: usize, k: usize) -> usize
        requires { (8 * place + 8 ≤ length self.now.ws.now) × (k < 8) }
        ensures { (result ≡ at self.now.ws.now place k) × (result < 2 ^ 32) }
    {
        self.field(place, k) as usize
    }

    // Returns the place of the top of the stack, and leaves it there.
    #[tactic(auto, using(crate::proofs::Tops::top_taken))]
    pub fn peek(&self) -> Option<usize>
        requires { Inside self.now.ws.now self.now.n self.now.state 0 0 0 }
        ensures { Peeks self.now result }
    {
        if self.state.depth == 0 {
            return None;
        }
        Some(self.ws[STACK * self.n + self.state.depth - 1] as usize)
    }

    // Takes the place of the top of the stack.
    pub fn pop(&mut self) -> Result<usize, Refusal>
        requires { Inside self.old.ws.now self.old.n self.old.state 0 0 0 }
        ensures reads { Reads self.old self.new }
        ensures pops { Pops self.old self.new result }
    {
        let Some(place) = self.peek() else {
            return Err(Refusal::Stack);
        };
        self.state.depth -= 1;
        Ok(place)
    }

    // Makes a record, and returns its place.
    pub fn grow(&mut self, made: Record) -> usize
        requires { Inside self.old.ws.now self.old.n self.old.state 2 0 0 }
        ensures stays { Stays self.old self.new }
        ensures grew { Grew self.old.ws.now self.new.ws.now self.old.n self.old.state self.new.state (numbers made) }
        ensures place { result ≡ self.old.state.top }
    {
        let place = self.state.top;
        let rest = Fields {
            a: made.a,
            b: made.b,
            c: made.c,
            d: made.d,
            e: made.e,
        };
        make(
            self.ws,
            place,
            made.kind.code(),
            made.size,
            made.count,
            rest,
        );
        self.state.top += 1;
        place
    }

    // Pushes a place.
    pub fn push(&mut self, place: usize)
        requires inside { Inside self.old.ws.now self.old.n self.old.state 3 1 0 }
        requires place_bound { place < 2 ^ 32 }
        ensures stays { Stays self.old self.new }
        ensures pushed { Pushed self.old.ws.now self.new.ws.now self.old.n self.old.state self.new.state place }
    {
        self.ws[STACK * self.n + self.state.depth] = place as u32;
        self.state.depth += 1;
    }

    // Remembers a place.
    // Kept: `push` and `remember` differ in the base and the counter; one function would take both,
    // and its contract would be a choice between these two.
    pub fn remember(&mut self, place: usize)
        requires inside { Inside self.old.ws.now self.old.n self.old.state 0 0 1 }
        requires place_bound { place < 2 ^ 32 }
        ensures stays { Stays self.old self.new }
        ensures remembered { Remembered self.old.ws.now self.new.ws.now self.old.n self.old.state self.new.state place }
    {
        self.ws[SEEN * self.n + self.state.seen] = place as u32;
        self.state.seen += 1;
    }
}
