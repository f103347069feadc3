// What the machines of the reading and of the check share.
#![tactic(auto)]

// Steps, charged total and wraps, with their limits.
pub mod budget;
// Kinds by number, and the groups that operators ask for.
pub mod kinds;
// What a run accepts at its end, and what a stopped run writes.
pub mod runs;
