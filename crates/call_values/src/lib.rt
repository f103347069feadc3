// An answer in numbers: the number of a refusal, and the six values of an answer.
#![tactic(auto, unfolding(definition::specs::Enums::number, definition::specs::Enums::values))]

// Two answers compared as demand 3 says.
pub mod agreement;

ghost use Rattle.std.specs.Prelude.{◌≡◌};
ghost use Rattle.definition.specs.Enums as Enums;
ghost use Rattle.call_values.specs.Six.{six};

use definition::{Answer, Refusal};

// Returns the number that document 01 gives a refusal.
// Kept: a function, since its contract says that the discriminant is that number.
pub fn number(refusal: Refusal) -> usize
    ensures { result ≡ Enums.number refusal }
{
    refusal as usize
}

// Returns the answer as six numbers.
pub fn numbers(a: Answer) -> [u64; 6]
    ensures { result ≡ six (Enums.values a) }
{
    match a {
        Ok(accepted) => {
            let counts = accepted.counts;
            [
                0,
                0,
                counts.steps as u64,
                counts.total as u64,
                counts.wraps as u64,
                accepted.length as u64,
            ]
        }
        Err(refused) => [
            number(refused.refusal) as u64,
            refused.place as u64,
            0,
            0,
            0,
            0,
        ],
    }
}
