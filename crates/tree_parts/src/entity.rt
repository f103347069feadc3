// The records of entities: over one tree, or with a context and a type.
ghost use Rattle.std.specs.Prelude.{◌≡◌, [], ◌∷◌, ◌+◌};
ghost use Rattle.machine.specs.Kinds.{kind_of};
ghost use Rattle.tree_records.specs.Lies.{at};
ghost use Rattle.tree_records.specs.Holds.{Inside, Grew};
ghost use Rattle.tree_records.specs.Trees.{Stays, numbers};
ghost use Rattle.tree_nodes.specs.Gives.{Under, Left};
ghost use Rattle.tree_nodes.specs.Trees.{step_of};
ghost use Rattle.tree_parts.specs.Leaves.{Entity, LeavesVariable};

use definition::{Accessor, Refusal};
use machine::kinds::Kind;
use tree_nodes::fixed_number;
use tree_nodes::leave::push_new;
use tree_records::{Record, Trees};

// Pushes a node of a kind over the tree at a place, with one more number.
pub fn push_over(trees: &mut Trees, kind: Kind, a: u32, place: usize)
    requires { Under trees.old.ws.now trees.old.n trees.old.state place }
    ensures stays { Stays trees.old trees.new }
    ensures left { Left trees.old.ws.now trees.new.ws.now trees.old.n trees.old.state trees.new.state (kind_of kind ∷ (at trees.old.ws.now place 1 + 1) ∷ 0 ∷ a ∷ place ∷ 0 ∷ 0 ∷ 0 ∷ []) }
{
    let size = trees.field(place, Record::SIZE) + 1;
    push_new(
        trees,
        Record {
            kind,
            size,
            a,
            b: place as u32,
            ..Record::ZERO
        },
    );
}

// Makes the record of an entity in the context at the place `home`, of the type at the place `ty`,
// and returns its place. The kind and the other numbers are given.
fn entity(trees: &mut Trees, made: Record, home: usize, ty: usize) -> usize
    requires entity { Entity trees.old.ws.now trees.old.n trees.old.state home ty }
    requires inside { Inside trees.old.ws.now trees.old.n trees.old.state 2 0 0 }
    ensures stays { Stays trees.old trees.new }
    ensures grew { Grew trees.old.ws.now trees.new.ws.now trees.old.n trees.old.state trees.new.state (kind_of made.kind ∷ (at trees.old.ws.now home 1 + at trees.old.ws.now ty 1 + 1) ∷ made.count ∷ made.a ∷ home ∷ ty ∷ made.d ∷ made.e ∷ []) }
    ensures place { result ≡ trees.old.state.top }
{
    let size = trees.field(home, Record::SIZE) + trees.field(ty, Record::SIZE) + 1;
    trees.grow(Record {
        size,
        b: home as u32,
        c: ty as u32,
        ..made
    })
}

// Makes the same record and pushes it.
pub fn push_entity(trees: &mut Trees, made: Record, home: usize, ty: usize)
    requires entity { Entity trees.old.ws.now trees.old.n trees.old.state home ty }
    requires inside { Inside trees.old.ws.now trees.old.n trees.old.state 5 1 0 }
    ensures stays { Stays trees.old trees.new }
    ensures left { Left trees.old.ws.now trees.new.ws.now trees.old.n trees.old.state trees.new.state (kind_of made.kind ∷ (at trees.old.ws.now home 1 + at trees.old.ws.now ty 1 + 1) ∷ made.count ∷ made.a ∷ home ∷ ty ∷ made.d ∷ made.e ∷ []) }
{
    let place = entity(trees, made, home, ty);
    trees.push(place);
}

// Pushes a variable or its accessor. An invalid letter is refused.
pub fn leave_variable(
    trees: &mut Trees,
    name: u32,
    home: usize,
    ty: usize,
    accessor: Accessor,
) -> Result<(), Refusal>
    requires entity { Entity trees.old.ws.now trees.old.n trees.old.state home ty }
    requires inside { Inside trees.old.ws.now trees.old.n trees.old.state 7 1 0 }
    ensures stays { Stays trees.old trees.new }
    ensures leaves { LeavesVariable accessor trees.old.ws.now trees.new.ws.now trees.old.n trees.old.state name home ty (step_of result trees.new.state) }
{
    let variable = Record {
        kind: Kind::Variable,
        a: name,
        ..Record::ZERO
    };
    match accessor {
        Accessor::Itself => {
            push_entity(trees, variable, home, ty);
            Ok(())
        }
        Accessor::Named(k) => {
            let place = entity(trees, variable, home, ty);
            push_over(trees, Kind::Accessor, fixed_number(k), place);
            Ok(())
        }
        Accessor::Broken => Err(Refusal::Spelling),
    }
}
