// The answers of the programs `names` and `shapes`: for one line, and for the lines of a buffer
// (line_forms/specs/Lines.antt).
ghost use Rattle.std.specs.Prelude.{◌≡◌, ◌+◌, ◌≤◌, ◌<◌, ◌^◌, length};
ghost use Rattle.definition.specs.Check as Check;
ghost use Rattle.definition.specs.Reading as Reading;
ghost use Rattle.line_forms.specs.Appends.{Space};
ghost use Rattle.line_forms.specs.Lines.{name_answer, shape_answer, line_of};
ghost use Rattle.line_stream.specs.Does.{Whole, Reads, Answers, Answered};

use call_values::number;
use definition::{Answer, Refusal};
use line_forms::ends::line_end;
use line_forms::{Asked, LINE, put_counts, put_refusal};
use text_output::Sink;

const CEILING: usize = 256;

// 64 × 256 numbers.
pub const WORKSPACE: usize = 16384;

// The longest text.
const TEXT: usize = 16384;

// The longest answer: `=`, a tab, a text and a newline.
const ANSWER: usize = 16387;

// Kept: what the functions below require of the sink (`Whole`, `Space`) is no fact of the type: a
// sink's room may be less than its slice, and `Space` ends with each line that is appended.

// Reads a symbol, and writes its text to the sink's slice, from its place on. The place stays.
fn read(line: &[u8], ws: &mut [u32; WORKSPACE], out: &mut Sink) -> Answer
    requires { (out.old.at + 16384 ≤ length out.old.out.now) }
    ensures { Reads (Reading.demangle line.now 256 16384 16384) out.old out.new result }
{
    let end = out.at + TEXT;
    swift_demangle::demangle(line, CEILING, ws, &mut out.out[out.at..end])
}

// Answers a line with a symbol's text.
fn answer_name(line: &[u8], ws: &mut [u32; WORKSPACE], out: &mut Sink)
    requires space { Whole out.old × Space out.old.out.now out.old.at }
    ensures { Answers out.old out.new (name_answer (Reading.demangle line.now 256 16384 16384)) }
{
    let at = out.at;
    out.put_byte(b'=');
    out.put_byte(b'\t');
    match read(line, ws, out) {
        Ok(accepted) => {
            out.at += accepted.length;
            out.put_byte(b'\n');
        }
        // overwrites `=` and the tab
        Err(refused) => {
            out.at = at;
            put_refusal(out, number(refused.refusal), refused.place);
        }
    }
}

// Answers a line with the counts of a symbol's shape check.
fn answer_shape(line: &[u8], ws: &mut [u32; WORKSPACE], out: &mut Sink)
    requires space { Whole out.old × Space out.old.out.now out.old.at }
    ensures { Answers out.old out.new (shape_answer (Check.shape line.now 256 16384).values) }
{
    match swift_shape::shape(line, CEILING, ws) {
        Ok(accepted) => put_counts(out, accepted.counts),
        Err(refused) => put_refusal(out, number(refused.refusal), refused.place),
    }
}

// Answers a line.
pub fn answer_line(asked: Asked, line: &[u8], ws: &mut [u32; WORKSPACE], out: &mut Sink)
    requires space { Whole out.old × Space out.old.out.now out.old.at }
    ensures { Answers out.old out.new (line_of asked line.now) }
{
    if LINE < line.len() {
        put_refusal(out, number(Refusal::Length), 0);
        return;
    }
    match asked {
        Asked::Name => answer_name(line, ws, out),
        Asked::Shape => answer_shape(line, ws, out),
    }
}

// Answers the lines that end in a newline, while there is room. Returns the number of bytes of the
// input that were answered.
pub fn answer_lines(asked: Asked, text: &[u8], ws: &mut [u32; WORKSPACE], out: &mut Sink) -> usize
    requires whole { Whole out.old × (out.old.at ≡ 0) }
    ensures { Answered (line_of asked) text.now out.old out.new result }
{
    let mut read = 0;
    // Kept: the loop ends where an answer may not fit or no newline is left; it counts no index.
    while out.at + ANSWER <= out.out.len() {
        let end = line_end(text, read);
        if end == text.len() {
            return read;
        }
        answer_line(asked, &text[read..end], ws, out);
        read = end + 1;
    }
    read
}
