// Steps, charged total and wraps with their limits, for the reading and the check.
ghost use Rattle.std.specs.Prelude.{◌≡◌, ◌*◌, ◌^◌, ◌≤◌, ◌<◌};
ghost use Rattle.definition.specs.Budget as Definition;
ghost use Rattle.machine.specs.Spent.{Spending, budget_of};

use definition::{Counts, Refusal};

// The number of turns of `run`, the sum of all charges, and the number of wraps.
#[derive(Clone, Copy)]
pub struct Budget {
    pub steps: usize,
    pub total: usize,
    pub wraps: usize,
}

#[tactic(auto, unfolding(definition::specs::Enums::number, definition::specs::Budget::fresh, definition::specs::Budget::step, definition::specs::Budget::charge, definition::specs::Budget::wrap))]
impl Budget {
    pub const MOST_STEPS: usize = 4096;

    pub const MOST_NODES: usize = 65536;

    pub const MOST_WRAPS: usize = 256;

    // The number of turns that a whole run may make: one more than the limit of steps. The last
    // turn is refused.
    pub const ALL_TURNS: usize = Budget::MOST_STEPS + 1;

    // Returns a budget whose counts are zero.
    pub fn new() -> Self
        ensures { budget_of result ≡ Definition.fresh }
    {
        Budget {
            steps: 0,
            total: 0,
            wraps: 0,
        }
    }

    // Counts one more turn of `run`.
    pub fn step(self) -> Result<Self, Refusal>
        ensures { Spending (Definition.step (budget_of self)) result }
    {
        if self.steps < Budget::MOST_STEPS {
            return Ok(Budget {
                steps: self.steps + 1,
                ..self
            });
        }
        Err(Refusal::Steps)
    }

    // Charges n nodes that are made or copied. The sum may not exceed the ceiling.
    pub fn charge(self, ceiling: usize, n: usize) -> Result<Self, Refusal>
        ensures { Spending (Definition.charge ceiling n (budget_of self)) result }
    {
        match self.total.checked_add(n) {
            Some(total) if total <= ceiling => Ok(Budget { total, ..self }),
            _ => Err(Refusal::Charge),
        }
    }

    // Charges that many copies of a node of a size.
    pub fn charge_copies(self, ceiling: usize, size: usize, copies: usize) -> Result<Self, Refusal>
        ensures { Spending (Definition.charge ceiling (size * copies) (budget_of self)) result }
    {
        match size.checked_mul(copies) {
            Some(n) => self.charge(ceiling, n),
            None => Err(Refusal::Charge),
        }
    }

    // Counts a type that is wrapped in another.
    //
    // Kept: its shape is that of `step`, but the count, the limit and the refusal differ, and a
    // function over the three would be no shorter.
    pub fn wrap(self) -> Result<Self, Refusal>
        ensures { Spending (Definition.wrap (budget_of self)) result }
    {
        if self.wraps < Budget::MOST_WRAPS {
            return Ok(Budget {
                wraps: self.wraps + 1,
                ..self
            });
        }
        Err(Refusal::Nesting)
    }
}

impl From<Budget> for Counts {
    fn from(budget: Budget) -> Counts
        ensures { result ≡ record { steps = budget.steps; total = budget.total; wraps = budget.wraps } }
    {
        Counts {
            steps: budget.steps,
            total: budget.total,
            wraps: budget.wraps,
        }
    }
}
