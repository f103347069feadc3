// Numbers as digits and as letters, and the names of generic parameters.
#![tactic(auto)]

ghost use Rattle.std.specs.Prelude.{◌+◌, ◌<◌};
ghost use Rattle.definition.specs.Base.{decimal};
ghost use Rattle.definition.specs.Print.{generic_param_name, param_letters};
ghost use Rattle.text_output.specs.Appends.{Appended};

use text_output::Sink;

// How many letters there are.
const LETTERS: usize = 26;

// Appends the decimal digits of n.
pub fn put_decimal(out: &mut Sink, n: usize)
    ensures { Appended out.old out.new (decimal n) }
{
    if n < 10 {
        out.put_byte(b'0' + n as u8);
        return;
    }
    put_decimal(out, n / 10);
    out.put_byte(b'0' + (n % 10) as u8);
}

// Appends the letters of the name of a generic parameter, the least significant first.
pub fn put_letters(out: &mut Sink, index: usize)
    ensures { Appended out.old out.new (param_letters (index + 1) index) }
{
    let mut n = index;
    // Kept: 0 has a letter, too, so the end is tested after the letter; no index is counted.
    loop {
        out.put_byte(b'A' + (n % LETTERS) as u8);
        n /= LETTERS;
        if n == 0 {
            return;
        }
    }
}

// Appends the name of a generic parameter: its letters, then its depth if that is above 0.
pub fn generic_param_name(out: &mut Sink, depth: usize, index: usize)
    ensures { Appended out.old out.new (generic_param_name depth index) }
{
    put_letters(out, index);
    if depth == 0 {
        return;
    }
    put_decimal(out, depth);
}
