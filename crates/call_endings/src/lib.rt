// The result at the end of any run: its counts, or refusal 12 if a text or a stack exceeds the
// output slice.
#![tactic(auto, unfolding(definition::specs::Enums::number, definition::specs::Enums::values, definition::specs::Calls::refusal))]

ghost use Rattle.machine.specs.Spent.{budget_of};
ghost use Rattle.call_endings.specs.Answers.{Measured, Stacked};

use definition::{Accepted, Answer, Counts, Refusal, Refused};
use machine::budget::Budget;

// The answer for a text of n bytes, where there is room for `room` bytes. Refusal 12: the text
// exceeds them.
pub fn measured(budget: Budget, n: usize, room: usize) -> Answer
    ensures { Measured (budget_of budget) n room result }
{
    if room < n {
        return Err(Refused::at_start(Refusal::Output));
    }
    Ok(Accepted {
        counts: Counts::from(budget),
        length: n,
    })
}

// The answer for what a stopped run wrote. Refusal 12: the stack exceeds the slice.
pub fn stacked(budget: Budget, written: Option<usize>) -> Answer
    ensures { Stacked (budget_of budget) written result }
{
    let length = written.ok_or(Refused::at_start(Refusal::Output))?;
    Ok(Accepted {
        counts: Counts::from(budget),
        length,
    })
}
