// The requirements of a generic signature.
#![tactic(auto)]

ghost use Rattle.std.specs.Prelude.{[], ◌∷◌, ◌+◌};
ghost use Rattle.definition.specs.Enums as E;
ghost use Rattle.definition.specs.declared.Constraint.TheVariants as Constraint;
ghost use Rattle.definition.specs.Perform as R;
ghost use Rattle.machine.specs.Kinds.{kind_of};
ghost use Rattle.tree_records.specs.Lies.{at};
ghost use Rattle.tree_records.specs.Holds.{Inside};
ghost use Rattle.tree_records.specs.Trees.{Stays, Has};
ghost use Rattle.tree_nodes.specs.Gives.{spare, full_spare, Left};
ghost use Rattle.tree_nodes.specs.Trees.{Operates, step_of};
ghost use Rattle.tree_parts.specs.Leaves.{Entity};
ghost use Rattle.tree_requirements.specs.Required.{TakesSubject, MakesMember, Constraining, Constrains, required};

use definition::{Constraint, NominalKind, Param, Refusal, Subject};
use machine::kinds::{Kind, Want};
use operator_names::Name;
use tree_nodes::leave::{generic_param, push_new, standard_nominal};
use tree_nodes::take::{assoc_type_name, pop_if, protocol};
use tree_records::{Record, Trees};

// Makes a member type of a generic parameter, and returns its place.
fn member(trees: &mut Trees, p: Param, name: u32) -> usize
    requires { Has trees.old (spare 4 0 0 0) }
    ensures stays { Stays trees.old trees.new }
    ensures makes { MakesMember p name trees.old.ws.now trees.new.ws.now trees.old.n trees.old.state (record { place = result; next = trees.new.state }) }
{
    let base = generic_param(trees, p);
    trees.grow(Record {
        kind: Kind::DependentMember,
        size: 2,
        a: name,
        b: base as u32,
        ..Record::ZERO
    })
}

// Takes what a requirement constrains.
fn subject(trees: &mut Trees, on: Subject) -> Result<usize, Refusal>
    requires { Has trees.old full_spare }
    ensures stays { Stays trees.old trees.new }
    ensures takes { TakesSubject (R.subject (E.subject on)) trees.old trees.new result }
{
    match on {
        Subject::OfParam(p) => Ok(generic_param(trees, p)),
        Subject::OfStack => pop_if(trees, Want::Type),
        Subject::OfMember(p) => {
            let name = assoc_type_name(trees)?;
            Ok(member(trees, p, name))
        }
    }
}

// Pushes a requirement over the trees at two places.
fn push_pair(trees: &mut Trees, kind: Kind, p: usize, q: usize)
    requires entity { Entity trees.old.ws.now trees.old.n trees.old.state p q }
    requires inside { Inside trees.old.ws.now trees.old.n trees.old.state 5 1 0 }
    ensures stays { Stays trees.old trees.new }
    ensures left { Left trees.old.ws.now trees.new.ws.now trees.old.n trees.old.state trees.new.state (kind_of kind ∷ (at trees.old.ws.now p 1 + at trees.old.ws.now q 1 + 1) ∷ 0 ∷ p ∷ q ∷ 0 ∷ 0 ∷ 0 ∷ []) }
{
    let size = trees.field(p, Record::SIZE) + trees.field(q, Record::SIZE) + 1;
    push_new(
        trees,
        Record {
            kind,
            size,
            a: p as u32,
            b: q as u32,
            ..Record::ZERO
        },
    );
}

// Pushes a layout requirement, which says AnyObject. An invalid letter is refused.
fn layout(trees: &mut Trees, p: usize, reads: bool) -> Result<(), Refusal>
    requires { Constraining trees.old.ws.now trees.old.n trees.old.state p }
    ensures stays { Stays trees.old trees.new }
    ensures constrains { Constrains (Constraint.Layout reads) trees.old.ws.now trees.new.ws.now trees.old.n trees.old.state p (step_of result trees.new.state) }
{
    if !reads {
        return Err(Refusal::Spelling);
    }
    let q = standard_nominal(trees, NominalKind::Protocol, Name::AnyObject as usize);
    push_pair(trees, Kind::ConformanceRequirement, p, q);
    Ok(())
}

// Applies the constraint to the subject at a place.
fn constrain(trees: &mut Trees, p: usize, constraint: Constraint) -> Result<(), Refusal>
    requires { Constraining trees.old.ws.now trees.old.n trees.old.state p }
    ensures stays { Stays trees.old trees.new }
    ensures constrains { Constrains constraint trees.old.ws.now trees.new.ws.now trees.old.n trees.old.state p (step_of result trees.new.state) }
{
    match constraint {
        Constraint::Conforms => {
            let q = protocol(trees)?;
            push_pair(trees, Kind::ConformanceRequirement, p, q);
            Ok(())
        }
        Constraint::Superclass => {
            let q = pop_if(trees, Want::Type)?;
            push_pair(trees, Kind::ConformanceRequirement, p, q);
            Ok(())
        }
        Constraint::SameType => {
            let q = pop_if(trees, Want::Type)?;
            push_pair(trees, Kind::SameTypeRequirement, p, q);
            Ok(())
        }
        Constraint::Layout(reads) => layout(trees, p, reads),
    }
}

// `R`: a requirement of a generic signature.
pub fn requirement(trees: &mut Trees, on: Subject, constraint: Constraint) -> Result<(), Refusal>
    requires { Has trees.old full_spare }
    ensures stays { Stays trees.old trees.new }
    ensures operates { Operates (required on constraint) trees.old trees.new result }
{
    let p = subject(trees, on)?;
    constrain(trees, p, constraint)
}
