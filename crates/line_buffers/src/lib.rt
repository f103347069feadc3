// The input buffer of the programs `names` and `shapes`: its contents, what is done after a read,
// and what is owed for a line that has no newline in the buffer. The contracts
// speak of the answers that are still to be written (`owed` in line_forms/specs/Lines.antt). It is
// assumed of the system that a read stores the input's next bytes in the slice, and that a write
// writes the slice.
#![tactic(auto)]

ghost use Rattle.std.specs.Prelude.{◌≡◌, ◌+◌, ◌-◌, ◌≤◌, ◌<◌, ◌^◌, length};
ghost use Rattle.line_forms.specs.Lines.{Clear};
ghost use Rattle.line_buffers.specs.Buffers.{message, Resting, Passing, Holds, after_read, Filled, start};

use line_forms::LINE;
use line_forms::ends::line_end;
use std::error::Error;
use std::fmt;
use std::io::Read;

// What is done next: input is read; the contents of the buffer are answered; or nothing, because
// all is answered.
#[derive(Clone, Copy, PartialEq, Eq)]
pub enum Next {
    Read,
    Answer,
    Done,
}

// What stops a program before all is answered.
#[derive(Clone, Copy, Debug, PartialEq, Eq)]
pub enum Failure {
    Read,
    Write,
}

impl Failure {
    // Returns the line that reports it, with its newline.
    pub fn message(self) -> &'static str
        ensures { result.now ≡ message self }
    {
        match self {
            Failure::Read => "standard input cannot be read\n",
            Failure::Write => "standard output cannot be written\n",
        }
    }
}

impl fmt::Display for Failure {
    fn fmt<W: fmt::Write>(&self, f: &mut fmt::Formatter<W>) -> fmt::Result {
        f.write_str(self.message().trim_end())
    }
}

impl Error for Failure {}

// How much of a text was read and how many bytes its answers have; whether the rest of the text
// continues a line that is already answered; and what is done next.
// Kept: `inside` says nothing of the other fields, which are there whether it holds or not, so that
// this and `State` are no `Option` or enum.
#[derive(Clone, Copy)]
pub struct Turn {
    pub read: usize,
    pub written: usize,
    pub inside: bool,
    pub next: Next,
}

// A program between two steps. The bytes of the buffer from `from` to `end` are not answered yet.
// `inside`: they continue a line that is already answered. `ended`: nothing follows them.
// `written`: how many bytes of the output slice were written last.
#[derive(Clone, Copy)]
pub struct State {
    pub from: usize,
    pub end: usize,
    pub inside: bool,
    pub ended: bool,
    pub written: usize,
    pub next: Next,
}

impl State {
    // Returns the state before the first step: nothing is read yet.
    pub fn fresh() -> State
        ensures { result ≡ start }
    {
        State {
            from: 0,
            end: 0,
            inside: false,
            ended: false,
            written: 0,
            next: Next::Read,
        }
    }

    // Returns the state after a read of n bytes, which are answered next; at the end of the input n
    // is 0, and the bytes that were kept are answered.
    fn after_read(self, n: usize) -> State
        requires { (self.from ≤ self.end) × (self.end - self.from + n < 2 ^ 63) }
        ensures { result ≡ after_read self n }
    {
        State {
            from: 0,
            end: self.end - self.from + n,
            ended: n == 0,
            written: 0,
            next: Next::Answer,
            ..self
        }
    }
}

// A line that has no newline in the buffer: it is the last one; it is longer than any line that is
// read; more of it has to be read first; or there is none, because the input has ended.
// Kept: each of the four has a turn of its own, so that this is neither an `Option` nor a `Result`.
#[derive(Clone, Copy, PartialEq, Eq)]
pub enum Rest {
    Last,
    Long,
    More,
    Nothing,
}

// Returns which of these the text is.
pub fn rest_of(text: &[u8], ended: bool) -> Rest
    requires { Clear text.now }
    ensures { Resting text.now ended result }
{
    if ended {
        if text.is_empty() {
            return Rest::Nothing;
        }
        return Rest::Last;
    }
    if LINE < text.len() {
        return Rest::Long;
    }
    Rest::More
}

// Skips the rest of a line that is already answered.
pub fn passed(text: &[u8], ended: bool) -> Turn
    ensures { Passing text.now ended result }
{
    let end = line_end(text, 0);
    if end < text.len() {
        return Turn {
            read: end + 1,
            written: 0,
            inside: false,
            next: Next::Answer,
        };
    }
    Turn {
        read: end,
        written: 0,
        inside: true,
        next: if ended { Next::Done } else { Next::Read },
    }
}

// Reads once, if input is to be read. The bytes that are not answered are moved to the front, and
// the bytes that are read are stored after them.
pub fn fill<R: Read>(stdin: &mut R, input: &mut [u8], before: State) -> Result<State, Failure>
    requires { Holds input.old before × (4096 < length input.old) × (length input.old < 2 ^ 63) }
    ensures { Filled R.remaining stdin.old stdin.new input.old input.new before result }
{
    if before.next != Next::Read {
        return Ok(before);
    }
    let have = before.end - before.from;
    input.copy_within(before.from..before.end, 0);
    let n = stdin.read(&mut input[have..]).map_err(|_| Failure::Read)?;
    Ok(before.after_read(n))
}
