// Trees that are made of what is taken from the stack.
ghost use Rattle.std.specs.Prelude.{◌≡◌, ◌+◌, ◌*◌, ◌≤◌, eqb, length, if◌then◌else◌};
ghost use Rattle.definition.specs.Kind as K;
ghost use Rattle.definition.specs.Perform as R;
ghost use Rattle.tree_records.specs.Lies.{at};
ghost use Rattle.tree_records.specs.Trees.{Stays, Has};
ghost use Rattle.tree_nodes.specs.Gives as Gives;
ghost use Rattle.tree_nodes.specs.Gives.{spare};
ghost use Rattle.tree_nodes.specs.Trees.{Builds};

use crate::leave::wrap;
use crate::take::{context, function_params, pop_if, protocol, took};
use definition::Refusal;
use machine::kinds::{Kind, Want};
use tree_records::{Record, Trees};

// Returns the number of parameters of a function type whose parameters are at a place.
// Kept: `arity_of` of `tree_entities` has this shape with another kind and another number for the
// other kinds; one function of both would take the kind and that number, and say less by its name.
fn param_count(trees: &Trees, place: usize) -> u32
    requires { 8 * place + 8 ≤ length trees.now.ws.now }
    ensures { result ≡ (if eqb (at trees.now.ws.now place 0) K.tuple then at trees.now.ws.now place 2 else 1) }
{
    if trees.field(place, Record::KIND) == Kind::Tuple as u32 {
        return trees.field(place, Record::COUNT);
    }
    1
}

// Takes the parameters and the result of a function type, after its effects.
// Kept: no comparison; it is the definition's step between the effects and the node.
fn between(trees: &mut Trees, throws: bool, is_async: bool) -> Result<usize, Refusal>
    requires { Has trees.old (spare 0 0 1 0) }
    ensures stays { Stays trees.old trees.new }
    ensures builds { Builds (Gives.between throws is_async) 1 0 trees.old trees.new result }
{
    let params = function_params(trees)?;
    let output = function_params(trees)?;
    let size = trees.field(params, Record::SIZE) + trees.field(output, Record::SIZE) + 1;
    let count = param_count(trees, params);
    Ok(trees.grow(Record {
        kind: Kind::FunctionType,
        size,
        count,
        a: params as u32,
        b: output as u32,
        c: u32::from(throws),
        d: u32::from(is_async),
        ..Record::ZERO
    }))
}

// Takes a function type: counts one wrap, then its effects, its parameters and its result.
pub fn function_type(trees: &mut Trees) -> Result<usize, Refusal>
    requires { Has trees.old (spare 0 0 1 0) }
    ensures stays { Stays trees.old trees.new }
    ensures builds { Builds R.function_type 1 0 trees.old trees.new result }
{
    wrap(trees)?;
    let throws = took(trees, Kind::Throws);
    let is_async = took(trees, Kind::Async);
    between(trees, throws, is_async)
}

// Takes a conformance: its home, its protocol and its type.
pub fn conformance(trees: &mut Trees) -> Result<usize, Refusal>
    requires { Has trees.old (spare 0 0 1 0) }
    ensures stays { Stays trees.old trees.new }
    ensures builds { Builds R.conformance 1 4 trees.old trees.new result }
{
    let home = context(trees)?;
    let to = protocol(trees)?;
    let ty = pop_if(trees, Want::Type)?;
    let size = trees.field(ty, Record::SIZE) + trees.field(to, Record::SIZE);
    let size = size + trees.field(home, Record::SIZE) + 1;
    Ok(trees.grow(Record {
        kind: Kind::Conformance,
        size,
        a: ty as u32,
        b: to as u32,
        c: home as u32,
        ..Record::ZERO
    }))
}
