// A name that is spelled again from its place in the text, using the table of words.
// Kept: that the words fit the text stands in each contract here. A struct of text and words would
// be made for each call, and what is printed from (`print_names::Source`) has both already.
#![tactic(auto)]

// A name's segments, one after another.
pub mod segments;

ghost use Rattle.std.specs.Prelude.{◌≡◌, ◌≤◌, length, take, drop};
ghost use Rattle.definition.specs.Base.{Name, same};
ghost use Rattle.text_words.specs.Table.{Fitting};
ghost use Rattle.text_spelling.specs.Spelled.{Spells, LengthIs, Spelled};

use crate::segments::{Segments, measured};
use text_cursor::Reader;
use text_output::Sink;
use text_words::Words;

// Returns the length of the name at p.
pub fn name_length(text: &[u8], p: usize, known: &Words) -> usize
    requires { (length text.now ≤ 65535) × Fitting text.now known.now }
    ensures { LengthIs text.now known.now p result }
{
    let mut segments = Segments::new(text, p, known);
    let mut sum = 0;
    // Kept: each turn takes a segment, here and in the two loops below; no index is counted.
    while let Some(bytes) = segments.next() {
        sum += bytes.len();
    }
    sum
}

// Appends the name at p, segment by segment, and stops once past the room.
fn put_segments(out: &mut Sink, text: &[u8], p: usize, known: &Words)
    requires { Fitting text.now known.now }
    ensures { Spelled text.now known.now p out.old out.new }
{
    let mut segments = Segments::new(text, p, known);
    while let Some(bytes) = segments.next() {
        out.put(bytes);
        if out.is_past() {
            return;
        }
    }
}

// Appends the name at p. A name that does not begin with `0` is a length and its bytes.
// Kept: with `put_segments` for all names, one costs 52 instructions more (callgrind).
pub fn put_name(out: &mut Sink, text: &[u8], p: usize, known: &Words)
    requires { Fitting text.now known.now }
    ensures { Spelled text.now known.now p out.old out.new }
{
    let mut reader = Reader { text, at: p };
    if reader.next_if(b'0') {
        put_segments(out, text, p, known);
        return;
    }
    if let Some(bytes) = measured(&mut reader, false) {
        out.put(bytes);
    }
}

// Whether the name at p is `fixed`.
pub fn name_is(text: &[u8], p: usize, known: &Words, fixed: &[u8]) -> bool
    requires { Fitting text.now known.now }
    ensures { (name : Name) → Spells text.now known.now p name → result ≡ same name fixed.now }
{
    let mut segments = Segments::new(text, p, known);
    let mut left = fixed;
    while let Some(bytes) = segments.next() {
        match left.strip_prefix(bytes) {
            Some(behind) => left = behind,
            None => return false,
        }
    }
    left.is_empty()
}
