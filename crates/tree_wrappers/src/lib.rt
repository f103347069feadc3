// Operators that put one node over the one on top.
#![tactic(auto)]

ghost use Rattle.std.specs.Prelude.{◌+◌, eqb};
ghost use Rattle.definition.specs.Kind as K;
ghost use Rattle.definition.specs.Node.{Node, InOut, Metatype, Static, VariableInitializer};
ghost use Rattle.definition.specs.Perform as R;
ghost use Rattle.machine.specs.Kinds.{kind_of};
ghost use Rattle.machine.specs.Wanted.{want_of};
ghost use Rattle.tree_records.specs.Trees.{Stays, Has};
ghost use Rattle.tree_nodes.specs.Gives.{full_spare, OneChild, over};
ghost use Rattle.tree_nodes.specs.Trees.{Operates};

use definition::Refusal;
use machine::kinds::{Kind, Want};
use tree_nodes::leave::{push_new, wrap};
use tree_nodes::take::pop_if;
use tree_records::{Record, Trees};

// Pushes a node of a kind over the node that is wanted on top.
pub fn one_child(trees: &mut Trees, want: Want, kind: Kind) -> Result<(), Refusal>
    requires { Has trees.old full_spare }
    ensures stays { Stays trees.old trees.new }
    ensures operates { (c : Node → Node) → OneChild (kind_of kind) c → Operates (over (want_of want) c) trees.old trees.new result }
{
    let place = pop_if(trees, want)?;
    let size = trees.field(place, Record::SIZE) + 1;
    push_new(
        trees,
        Record {
            kind,
            size,
            a: place as u32,
            ..Record::ZERO
        },
    );
    Ok(())
}

// Counts one wrap, and pushes a node of a kind over the type on top.
pub fn wrapped(trees: &mut Trees, kind: Kind) -> Result<(), Refusal>
    requires { Has trees.old full_spare }
    ensures stays { Stays trees.old trees.new }
    ensures operates { (c : Node → Node) → OneChild (kind_of kind) c → Operates (λ _. R.wrapped c) trees.old trees.new result }
{
    wrap(trees)?;
    one_child(trees, Want::Type, kind)
}

// `z`: `inout T`.
pub fn in_out(trees: &mut Trees) -> Result<(), Refusal>
    requires { Has trees.old full_spare }
    ensures stays { Stays trees.old trees.new }
    ensures operates { Operates (λ _. R.wrapped InOut) trees.old trees.new result }
{
    wrapped(trees, Kind::InOut)
}

// `m`, `XM`, `Xp`: a type's metatype.
pub fn metatype(trees: &mut Trees) -> Result<(), Refusal>
    requires { Has trees.old full_spare }
    ensures stays { Stays trees.old trees.new }
    ensures operates { Operates (λ _. R.wrapped Metatype) trees.old trees.new result }
{
    wrapped(trees, Kind::Metatype)
}

// `Z`: a static member.
pub fn static_member(trees: &mut Trees) -> Result<(), Refusal>
    requires { Has trees.old full_spare }
    ensures stays { Stays trees.old trees.new }
    ensures operates { Operates (over K.is_entity Static) trees.old trees.new result }
{
    one_child(trees, Want::Entity, Kind::Static)
}

// `fi`: the initial value of a variable.
pub fn variable_initializer(trees: &mut Trees) -> Result<(), Refusal>
    requires { Has trees.old full_spare }
    ensures stays { Stays trees.old trees.new }
    ensures operates { Operates (over (eqb K.variable) VariableInitializer) trees.old trees.new result }
{
    one_child(trees, Want::Kind(Kind::Variable), Kind::VariableInitializer)
}
