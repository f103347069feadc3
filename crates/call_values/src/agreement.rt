// Whether two answers agree: their values, and the numbers that stopped calls wrote.
#![tactic(auto, unfolding(definition::specs::Enums::number, definition::specs::Enums::values, definition::specs::Calls::refusal))]

ghost use Rattle.std.specs.Prelude.{◌≡◌, ◌&&◌, ◌≤◌, length, take};
ghost use Rattle.definition.specs.Base.{same};
ghost use Rattle.definition.specs.Enums as Enums;
ghost use Rattle.call_values.specs.Agreement.{same_values, values_due, values_agree};

use definition::{Accepted, Answer, Refusal, Refused};

// Returns the answer that a whole reading must give if the check gives this one. Where both accept,
// the length is the reading's own. A reading that refuses what the check accepts must refuse with
// 12, at 0.
fn due(reading: Answer, check: Answer) -> Answer
    ensures { Enums.values result ≡ values_due (Enums.values reading) (Enums.values check) }
{
    match (reading, check) {
        (_, Err(_)) => check,
        (Err(_), Ok(_)) => Err(Refused::at_start(Refusal::Output)),
        (Ok(read), Ok(checked)) => Ok(Accepted {
            length: read.length,
            ..checked
        }),
    }
}

// Compares whole calls by their values only. The text that was written is not compared here.
pub fn whole_agrees(reading: Answer, check: Answer) -> bool
    ensures { result ≡ values_agree (Enums.values reading) (Enums.values check) }
{
    reading == due(reading, check)
}

// Compares stopped calls: all values, and the numbers that they wrote.
pub fn stopped_agrees(
    reading: Answer,
    check: Answer,
    reading_stack: &[u32],
    check_stack: &[u32],
) -> bool
    requires { ((Enums.values reading).length ≤ length reading_stack.now) × ((Enums.values check).length ≤ length check_stack.now) }
    ensures { result ≡ (same_values (Enums.values reading) (Enums.values check) && same (take (Enums.values reading).length reading_stack.now) (take (Enums.values reading).length check_stack.now)) }
{
    if reading != check {
        return false;
    }
    match reading {
        Ok(read) => reading_stack[..read.length] == check_stack[..read.length],
        Err(_) => true,
    }
}
