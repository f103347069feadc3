// The checks 1 to 5 of document 01, which are made before a run. They also give the part of the
// text that is read.
#![tactic(auto)]

// What is read.
pub mod admitted;

ghost use Rattle.std.specs.Prelude.{◌≡◌, true, ◌-◌, ◌≤◌, length, take, drop};
ghost use Rattle.definition.specs.Text as Text;
ghost use Rattle.text_symbols.specs.Symbol as Symbols;
ghost use Rattle.call_admission.specs.Admits.{framed, Frames, parts, Admits};

use crate::admitted::Admitted;
use definition::{Refusal, Refused};
use machine::budget::Budget;
use machine::runs::Final;
use text_symbols::Parts;

// The longest text that is read.
const MOST_BYTES: usize = 65535;

// Returns the parts of a symbol; all of a type is its body.
fn parts_of(text: &[u8], what: Final) -> Option<Parts>
    requires { Text.well_formed text.now ≡ true }
    ensures { Frames (framed what text.now) text.now result }
{
    match what {
        Final::Symbol => text_symbols::split(text),
        Final::Type => Some(Parts {
            start: 0,
            end: text.len(),
        }),
    }
}

// Returns text[start..end], with what follows it, for a run with that ceiling.
pub fn part(text: &[u8], start: usize, end: usize, ceiling: usize) -> Admitted
    requires { (start ≤ end) × (end ≤ length text.now) × (length text.now ≤ 65535) × (ceiling ≤ 65536) × (Text.well_formed (take (end - start) (drop start text.now)) ≡ true) }
    ensures symbol { parts result ≡ Symbols.symbol text.now start end }
    ensures ceiling { result.ceiling ≡ ceiling }
{
    Admitted {
        ceiling,
        start,
        body: &text[start..end],
        suffix: &text[end..],
    }
}

// Makes the checks 1 to 5, in order, for a call that needs `need` numbers of workspace for each
// node. Refusal 5: a symbol has no body.
pub fn admit(
    text: &[u8],
    what: Final,
    ceiling: usize,
    need: usize,
    numbers: usize,
) -> Result<Admitted, Refused>
    requires { need ≤ 64 }
    ensures { Admits what need ceiling numbers text.now result }
{
    if ceiling == 0 || Budget::MOST_NODES < ceiling {
        return Err(Refused::at_start(Refusal::Ceiling));
    }
    if numbers < need * ceiling {
        return Err(Refused::at_start(Refusal::Workspace));
    }
    if MOST_BYTES < text.len() {
        return Err(Refused::at_start(Refusal::Length));
    }
    if let Some(place) = text_utf8::ill_formed(text) {
        return Err(Refused {
            refusal: Refusal::Encoding,
            place,
        });
    }
    let Some(Parts { start, end }) = parts_of(text, what) else {
        return Err(Refused::at_start(Refusal::Prefix));
    };
    Ok(part(text, start, end, ceiling))
}
