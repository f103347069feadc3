// Standard input to standard output. `step` reads, answers and writes once. Its contract says that
// what is written, together with what is owed for the bytes that are kept, is what was owed before
// for all that was read (`Stepped` in crates/line_buffers/specs/Buffers). `run_answers`
// (proofs/Runs.antt) says so for all steps together. `answer_all` makes the steps, and its contract
// says that they answer the whole input. What a read stores, and that a write writes, is assumed of
// the system.
#![tactic(auto)]

// The answer to a line, and to the lines of a buffer.
pub mod answers;

ghost use Rattle.std.specs.Prelude.{◌≡◌, ◌≢◌, false, ◌+◌, ◌≤◌, ◌<◌, ◌^◌, length, take, IfOk, IfErr, OnOk};
ghost use Rattle.std.specs.Io.KnownBytes.{Appends};
ghost use Rattle.line_forms.specs.Lines.{line_of};
ghost use Rattle.line_buffers.specs.Buffers.{message, Turned, Holds, Stepped, Took, Failed, AnsweredAll};

use crate::answers::{WORKSPACE, answer_line, answer_lines};
use line_buffers::{Failure, Next, Rest, State, Turn, fill, passed, rest_of};
use line_forms::Asked;
use std::io;
use std::io::{Read, Write};
use text_output::Sink;

// 64 KB of what is read.
const INPUT: usize = 65536;

const OUTPUT: usize = 131072;

// Answers the lines of a text that end in a newline, while there is room. If the text has no
// newline, it is answered if it is the last line or too long; otherwise more is read first.
// `inside`: the text begins inside a line that is already answered. `ended`: nothing follows the
// text.
fn turn(
    asked: Asked,
    text: &[u8],
    inside: bool,
    ended: bool,
    ws: &mut [u32; WORKSPACE],
    out: &mut [u8; OUTPUT],
) -> Turn
    ensures { Turned (line_of asked) text.now inside ended out.new result }
{
    if inside {
        return passed(text, ended);
    }
    let mut sink = Sink {
        out,
        at: 0,
        room: OUTPUT,
    };
    let read = answer_lines(asked, text, ws, &mut sink);
    if 0 < read {
        return Turn {
            read,
            written: sink.at,
            inside: false,
            next: Next::Answer,
        };
    }
    match rest_of(text, ended) {
        Rest::Last => {
            answer_line(asked, text, ws, &mut sink);
            Turn {
                read: text.len(),
                written: sink.at,
                inside: false,
                next: Next::Done,
            }
        }
        Rest::Long => {
            answer_line(asked, text, ws, &mut sink);
            Turn {
                read: text.len(),
                written: sink.at,
                inside: true,
                next: Next::Read,
            }
        }
        Rest::More => Turn {
            read: 0,
            written: 0,
            inside: false,
            next: Next::Read,
        },
        Rest::Nothing => Turn {
            read: 0,
            written: 0,
            inside: false,
            next: Next::Done,
        },
    }
}

// Reads if the state requires it, answers and writes. If it fails, it says which of the two failed.
fn step<R: Read, W: Write>(
    asked: Asked,
    stdin: &mut R,
    stdout: &mut W,
    input: &mut [u8; INPUT],
    before: State,
    ws: &mut [u32; WORKSPACE],
    out: &mut [u8; OUTPUT],
) -> Result<State, Failure>
    requires holds { Holds input.old before }
    requires goes_on { before.next ≢ Next.Done }
    ensures stepped { IfOk result (Stepped (line_of asked) input.old input.new out.new before) }
    ensures read { IfOk result (Took (R.remaining stdin.old) (R.remaining stdin.new) input.new before) }
    ensures wrote { IfOk result (λ s. Appends (W.contents stdout.old) (W.contents stdout.new) (take s.written out.new)) }
    ensures failed { IfErr result (Failed (line_of asked) (R.remaining stdin.old) (R.remaining stdin.new) stdout.old stdout.new input.old input.new out.new before) }
{
    let held = fill(stdin, input, before)?;
    let t = turn(
        asked,
        &input[held.from..held.end],
        held.inside,
        held.ended,
        ws,
        out,
    );
    stdout
        .write_all(&out[..t.written])
        .map_err(|_| Failure::Write)?;
    Ok(State {
        from: held.from + t.read,
        inside: t.inside,
        written: t.written,
        next: t.next,
        ..held
    })
}

// Answers each line of standard input on standard output. The steps of the loop are enough for any
// input of fewer than 2^62 bytes.
fn answer_all<R: Read, W: Write>(asked: Asked, stdin: &mut R, stdout: &mut W) -> Result<(), Failure>
    ensures { OnOk result (AnsweredAll (line_of asked) (R.remaining stdin.old) (R.remaining stdin.new) (W.contents stdout.old) (W.contents stdout.new)) }
{
    let mut ws = [0; WORKSPACE];
    let mut input = [0; INPUT];
    let mut out = [0; OUTPUT];
    let mut state = State::fresh();
    for _ in 0..u64::MAX {
        state = step(asked, stdin, stdout, &mut input, state, &mut ws, &mut out)?;
        if state.next == Next::Done {
            return Ok(());
        }
    }
    Ok(())
}

// Writes the message of a failure as a whole, and not piece by piece.
fn report<E: Write>(stderr: &mut E, failure: Failure) -> io::Result<()>
    ensures { OnOk result (Appends (E.contents stderr.old) (E.contents stderr.new) (message failure)) }
{
    stderr.write_all(failure.message().as_bytes())
}

// Answers each line of standard input on standard output. If a read or a write fails, it stops with
// a message on standard error.
pub fn answer_input<R: Read, W: Write, E: Write>(
    asked: Asked,
    stdin: &mut R,
    stdout: &mut W,
    stderr: &mut E,
) {
    if let Err(failure) = answer_all(asked, stdin, stdout) {
        let _ = report(stderr, failure);
    }
}
