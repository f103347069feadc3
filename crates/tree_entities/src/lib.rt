// The effects of the entity operators on the records: the functions of the Rust under their names.
#![tactic(auto)]

// A function's labels.
pub mod labels;

ghost use Rattle.std.specs.Prelude.{◌+◌};
ghost use Rattle.definition.specs.Base.{bytes};
ghost use Rattle.definition.specs.Kind as K;
ghost use Rattle.definition.specs.Node.{Deinitializer, ValueWitness};
ghost use Rattle.definition.specs.Perform as R;
ghost use Rattle.tree_records.specs.Trees.{Stays, Reads, Has};
ghost use Rattle.tree_nodes.specs.Gives.{nothing_spare, full_spare};
ghost use Rattle.tree_nodes.specs.Trees.{Operates};
ghost use Rattle.tree_parts.specs.Leaves.{letter};
ghost use Rattle.tree_entities.specs.Entities.{one_over, GivesSigned, Signing, TakesUnder, TakesType, variable_type, signed_type};

use crate::labels::labels;
use definition::{Accessor, Refusal};
use machine::kinds::{Kind, Want};
use tree_nodes::build::function_type;
use tree_nodes::fixed_number;
use tree_nodes::leave::wrap;
use tree_nodes::take::{context, pop_if, pop_name, took, try_pop};
use tree_parts::entity::{leave_variable, push_entity, push_over};
use tree_records::{Record, Trees};

// `fD`, `fd`: a deinitializer.
pub fn deinitializer(trees: &mut Trees, deallocating: bool) -> Result<(), Refusal>
    requires { Has trees.old full_spare }
    ensures stays { Stays trees.old trees.new }
    ensures operates { Operates (one_over R.context (λ _. Deinitializer deallocating)) trees.old trees.new result }
{
    let home = context(trees)?;
    push_over(trees, Kind::Deinitializer, u32::from(deallocating), home);
    Ok(())
}

// `w`: a value witness of the type on top. Its name is a fixed name.
pub fn value_witness(trees: &mut Trees, name: usize) -> Result<(), Refusal>
    requires { Has trees.old full_spare }
    ensures stays { Stays trees.old trees.new }
    ensures operates { Operates (one_over (R.pop_if K.is_type) (λ fixed. ValueWitness (bytes (fixed name)))) trees.old trees.new result }
{
    let ty = pop_if(trees, Want::Type)?;
    push_over(trees, Kind::ValueWitness, fixed_number(name), ty);
    Ok(())
}

// SIGNATURES

// Takes the signature on top, if there is one.
fn try_signature(trees: &mut Trees) -> Option<usize>
    requires { Has trees.old nothing_spare }
    ensures reads { Reads trees.old trees.new }
    ensures gives { GivesSigned trees.old.ws.now trees.old.n trees.old.state (record { signature = result; next = trees.new.state }) }
{
    try_pop(trees, Want::Kind(Kind::GenericSignature))
}

// Puts the type at a place under a signature, if there is one, and counts one wrap.
pub fn under_signature(
    trees: &mut Trees,
    signature: Option<usize>,
    ty: usize,
) -> Result<usize, Refusal>
    requires { Signing trees.old.ws.now trees.old.n trees.old.state signature ty }
    ensures stays { Stays trees.old trees.new }
    ensures takes { TakesUnder trees.old.ws.now trees.new.ws.now trees.old.n trees.old.state trees.new.state signature ty result }
{
    match signature {
        None => Ok(ty),
        Some(place) => {
            wrap(trees)?;
            let size = trees.field(place, Record::SIZE) + trees.field(ty, Record::SIZE) + 1;
            Ok(trees.grow(Record {
                kind: Kind::GenericType,
                size,
                a: place as u32,
                b: ty as u32,
                ..Record::ZERO
            }))
        }
    }
}

// Builds the type of a variable, under the signature below it.
fn variable_type(trees: &mut Trees) -> Result<usize, Refusal>
    requires { Has trees.old full_spare }
    ensures stays { Stays trees.old trees.new }
    ensures takes { TakesType variable_type 1 3 trees.old.ws.now trees.new.ws.now trees.old.n trees.old.state trees.new.state result }
{
    let ty = pop_if(trees, Want::Type)?;
    let signature = try_signature(trees);
    under_signature(trees, signature, ty)
}

// Builds the type of an initializer, under the signature above it.
fn initializer_type(trees: &mut Trees) -> Result<usize, Refusal>
    requires { Has trees.old full_spare }
    ensures stays { Stays trees.old trees.new }
    ensures takes { TakesType (signed_type (R.pop_if K.is_type)) 1 3 trees.old.ws.now trees.new.ws.now trees.old.n trees.old.state trees.new.state result }
{
    let signature = try_signature(trees);
    let ty = pop_if(trees, Want::Type)?;
    under_signature(trees, signature, ty)
}

// Builds the type of a function, under the signature above it.
fn plain_type(trees: &mut Trees) -> Result<usize, Refusal>
    requires { Has trees.old full_spare }
    ensures stays { Stays trees.old trees.new }
    ensures takes { TakesType (signed_type R.function_type) 2 0 trees.old.ws.now trees.new.ws.now trees.old.n trees.old.state trees.new.state result }
{
    let signature = try_signature(trees);
    let ty = function_type(trees)?;
    under_signature(trees, signature, ty)
}

// ENTITIES

// `v`: a variable, or its accessor.
pub fn variable(trees: &mut Trees, accessor: Accessor) -> Result<(), Refusal>
    requires { Has trees.old full_spare }
    ensures stays { Stays trees.old trees.new }
    ensures operates { Operates (λ fixed. R.variable (letter fixed accessor)) trees.old trees.new result }
{
    let ty = variable_type(trees)?;
    let _marked = took(trees, Kind::EmptyList);
    let name = pop_name(trees)?;
    let home = context(trees)?;
    leave_variable(trees, name, home, ty, accessor)
}

// `fC`, `fc`: an initializer.
pub fn initializer(trees: &mut Trees, allocating: bool) -> Result<(), Refusal>
    requires { Has trees.old full_spare }
    ensures stays { Stays trees.old trees.new }
    ensures operates { Operates (λ _. R.initializer allocating) trees.old trees.new result }
{
    let ty = initializer_type(trees)?;
    let labelled = labels(trees, ty)?;
    let home = context(trees)?;
    let made = Record {
        kind: Kind::Initializer,
        a: u32::from(allocating),
        d: labelled.first,
        e: labelled.number,
        ..Record::ZERO
    };
    push_entity(trees, made, home, ty);
    Ok(())
}

// `F`: a function.
pub fn plain_function(trees: &mut Trees) -> Result<(), Refusal>
    requires { Has trees.old full_spare }
    ensures stays { Stays trees.old trees.new }
    ensures operates { Operates (λ _. R.plain_function) trees.old trees.new result }
{
    let ty = plain_type(trees)?;
    let labelled = labels(trees, ty)?;
    let name = pop_name(trees)?;
    let home = context(trees)?;
    let made = Record {
        kind: Kind::Function,
        a: name,
        d: labelled.first,
        e: labelled.number,
        ..Record::ZERO
    };
    push_entity(trees, made, home, ty);
    Ok(())
}
