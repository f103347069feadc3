// What the runs of reading and check share: what is accepted at the end of a run, and what a
// stopped run writes.
ghost use Rattle.std.specs.Prelude.{◌≡◌};
ghost use Rattle.machine.specs.RunEnds.{kinds_of};

use crate::kinds::{Kind, is_type};

// What a call accepts at its end: a symbol (all but a bare identifier), or a type.
#[derive(Clone, Copy, PartialEq, Eq)]
pub enum Final {
    Symbol,
    Type,
}

// Whether a node of that kind is accepted.
#[tactic(auto, unfolding(definition::specs::Calls::symbol_kind))]
pub fn takes(what: Final, kind: u32) -> bool
    ensures { result ≡ kinds_of what kind }
{
    match what {
        Final::Symbol => kind != Kind::Identifier as u32,
        Final::Type => is_type(kind),
    }
}
