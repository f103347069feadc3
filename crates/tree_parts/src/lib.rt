// Records over trees that were taken.
#![tactic(auto)]

// The records of entities.
pub mod entity;
// Records of words.
pub mod record;
