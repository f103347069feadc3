// The forms of an answer line of the programs `names` and `shapes` (specs/Lines.antt).
#![tactic(auto)]

// Where a line ends.
pub mod ends;

ghost use Rattle.text_output.specs.Appends.{Appended};
ghost use Rattle.line_forms.specs.Lines.{field, refused_line, accepted_line, counts_told};

use definition::Counts;
use print_numerals::put_decimal;
use text_output::Sink;

// The longest line that is read.
pub const LINE: usize = 4096;

// What is asked for each line: the text of a symbol, or its shape.
#[derive(Clone, Copy)]
pub enum Asked {
    Name,
    Shape,
}

// Appends a tab and a number.
#[tactic(auto, using(text_output::specs::Appends::appended_then), unfolding(crate::specs::Lines::field))]
fn put_field(out: &mut Sink, n: usize)
    ensures { Appended out.old out.new (field n) }
{
    out.put_byte(b'\t');
    put_decimal(out, n);
}

// Appends the line of a refusal.
pub fn put_refusal(out: &mut Sink, number: usize, place: usize)
    ensures { Appended out.old out.new (refused_line number place) }
{
    out.put_byte(b'!');
    put_field(out, number);
    put_field(out, place);
    out.put_byte(b'\n');
}

// Appends `=`, the three counts and a newline.
pub fn put_counts(out: &mut Sink, counts: Counts)
    ensures { Appended out.old out.new (accepted_line (counts_told counts.steps counts.total counts.wraps)) }
{
    out.put_byte(b'=');
    put_field(out, counts.steps);
    put_field(out, counts.total);
    put_field(out, counts.wraps);
    out.put_byte(b'\n');
}
