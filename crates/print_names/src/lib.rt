// The leaves of the printer: fixed texts, numbers, the names of generic parameters, and names given
// by their numbers.
#![tactic(auto)]

ghost use Rattle.std.specs.Prelude.{◌≡◌, ◌<◌};
ghost use Rattle.definition.specs.Base.{Name, bytes, same};
ghost use Rattle.definition.specs.Operators.{suspend_resume_text};
ghost use Rattle.definition.specs.Print.{effects, join, param_names};
ghost use Rattle.operator_names.specs.Fixed.{fixed};
ghost use Rattle.text_output.specs.Appends.{Appended};
ghost use Rattle.tree_records.specs.Holds.{Named};
ghost use Rattle.print_names.specs.Texts.{text_of, number_of, sep_before};
ghost use Rattle.print_names.specs.Naming.{Alone, Puts, Some, naming_of};

// Where the numbers of a record are.
pub mod fields;
// What is printed from, and its records.
pub mod source;

use operator_names::{NAMES, Text, fixed_name};
use print_numerals::{generic_param_name, put_decimal};
pub use source::Source;
use text_output::Sink;
use text_spelling::{name_is, put_name};

// The numbers from this one on represent fixed names; those below are offsets of the text.
const FIXED: usize = 65536;

// Appends a fixed text.
pub fn put_text(out: &mut Sink, text: Text)
    ensures { Appended out.old out.new (text_of (number_of text)) }
{
    put_numbered(out, text as usize);
}

// Appends the fixed text with number n.
pub fn put_numbered(out: &mut Sink, n: usize)
    requires { n < 37 }
    ensures { Appended out.old out.new (text_of n) }
{
    out.put(fixed_name(NAMES + n));
}

// Appends a text before each element except the first.
pub fn put_sep(out: &mut Sink, i: usize, text: Text)
    ensures { Appended out.old out.new (sep_before i (number_of text)) }
{
    if i != 0 {
        put_text(out, text);
    }
}

// Appends the names of `count` generic parameters, with `, ` between them, and stops once past the
// room.
pub fn put_param_names(out: &mut Sink, count: usize)
    ensures { Appended out.old out.new (join ", " (param_names count 0)) }
{
    for i in 0..count {
        if out.is_past() {
            return;
        }
        put_sep(out, i, Text::Comma);
        generic_param_name(out, 0, i);
    }
}

// Appends what is printed between the parameters of a function and its result, without the arrow.
pub fn put_effects(out: &mut Sink, throws: bool, asynchronous: bool)
    ensures { Appended out.old out.new (effects throws asynchronous) }
{
    if asynchronous {
        put_text(out, Text::Async);
    }
    if throws {
        put_text(out, Text::Throws);
    }
}

// Appends the words of a suspend or resume function.
pub fn put_suspend_resume(out: &mut Sink, index: usize)
    ensures { Appended out.old out.new (suspend_resume_text index) }
{
    put_text(out, Text::OpenParenthesis);
    put_decimal(out, index);
    put_text(out, Text::SuspendResume);
}

// Appends the fixed name with number n.
pub fn put_fixed(out: &mut Sink, n: usize)
    ensures { Appended out.old out.new (bytes (fixed n)) }
{
    if n < NAMES {
        out.put(fixed_name(n));
    }
}

// Appends the name that the number k represents: the identifier at that offset of the text, or,
// from 65,536 on, a fixed name.
pub fn put_named(out: &mut Sink, from: &Source, k: usize)
    requires some { Some (Named (naming_of from.now) k) }
    ensures { Puts (Named (naming_of from.now) k) out.old out.new }
{
    if k < FIXED {
        put_name(out, from.text, k, from.words);
    } else {
        put_fixed(out, k - FIXED);
    }
}

// Whether the name that the number k represents is the fixed name with number n, whose bytes are
// also given.
pub fn named_is(from: &Source, k: usize, n: usize, fixed: &[u8]) -> bool
    requires some { Some (Named (naming_of from.now) k) }
    requires alone { Alone n fixed.now }
    ensures { (name : Name) → Named (naming_of from.now) k name → result ≡ same name fixed.now }
{
    if k < FIXED {
        return name_is(from.text, k, from.words, fixed);
    }
    k - FIXED == n
}
