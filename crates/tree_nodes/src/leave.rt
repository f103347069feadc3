// What operators make and push.
ghost use Rattle.std.specs.Prelude.{◌≡◌, ◌<◌};
ghost use Rattle.definition.specs.Base.{bytes};
ghost use Rattle.definition.specs.Enums as Enums;
ghost use Rattle.definition.specs.Node as Node;
ghost use Rattle.definition.specs.Node.{Module, Nominal};
ghost use Rattle.definition.specs.Perform as R;
ghost use Rattle.machine.specs.Kinds.{kind_of};
ghost use Rattle.tree_records.specs.Holds.{Inside};
ghost use Rattle.tree_records.specs.Trees.{Stays, Reads, numbers};
ghost use Rattle.tree_nodes.specs.Gives.{Left, Kept};
ghost use Rattle.tree_nodes.specs.Trees.{Makes, Wraps, Counts};

use crate::{FIXED, fixed_number, high, low};
use definition::{NominalKind, Param, Refusal};
use machine::kinds::Kind;
use operator_names::Name;
use tree_records::{Record, Trees};

// Counts one wrap. Refusal 8: there are too many.
pub fn wrap(trees: &mut Trees) -> Result<(), Refusal>
    ensures reads { Reads trees.old trees.new }
    ensures wraps { Wraps trees.old trees.new result }
    ensures counts { Counts trees.old.state trees.new.state result }
{
    trees.state.budget = trees.state.budget.wrap()?;
    Ok(())
}

// Makes a generic parameter, and returns its place.
pub fn generic_param(trees: &mut Trees, p: Param) -> usize
    requires { Inside trees.old.ws.now trees.old.n trees.old.state 2 0 0 }
    ensures stays { Stays trees.old trees.new }
    ensures makes { Makes (λ _. R.generic_param (Enums.param p)) 2 trees.old trees.new result }
{
    trees.grow(Record {
        kind: Kind::GenericParam,
        size: 1,
        a: low(p.depth),
        b: high(p.depth),
        c: low(p.index),
        d: high(p.index),
        ..Record::ZERO
    })
}

// The number that represents the fixed name `Swift`.
const SWIFT: u32 = FIXED + Name::Swift as u32;

// Makes a type of the module Swift, and returns its place. Its name is the fixed name with that
// number.
pub fn standard_nominal(trees: &mut Trees, kind: NominalKind, name: usize) -> usize
    requires { Inside trees.old.ws.now trees.old.n trees.old.state 4 0 0 }
    ensures stays { Stays trees.old trees.new }
    ensures makes { Makes (λ fixed. Nominal (Enums.nominal_kind kind) (Module (bytes "Swift")) (bytes (fixed name))) 4 trees.old trees.new result }
{
    let module = trees.grow(Record {
        kind: Kind::Module,
        size: 1,
        a: SWIFT,
        ..Record::ZERO
    });
    trees.grow(Record {
        kind: Kind::from(kind),
        size: 2,
        a: fixed_number(name),
        b: module as u32,
        ..Record::ZERO
    })
}

// Makes a new record and pushes it.
pub fn push_new(trees: &mut Trees, made: Record)
    requires { Inside trees.old.ws.now trees.old.n trees.old.state 5 1 0 }
    ensures stays { Stays trees.old trees.new }
    ensures left { Left trees.old.ws.now trees.new.ws.now trees.old.n trees.old.state trees.new.state (numbers made) }
{
    let place = trees.grow(made);
    trees.push(place);
}

// Makes a new record, pushes it and remembers it.
pub fn push_kept(trees: &mut Trees, made: Record)
    requires { Inside trees.old.ws.now trees.old.n trees.old.state 5 1 1 }
    ensures stays { Stays trees.old trees.new }
    ensures kept { Kept trees.old.ws.now trees.new.ws.now trees.old.n trees.old.state trees.new.state (numbers made) }
{
    let place = trees.grow(made);
    trees.remember(place);
    trees.push(place);
}
