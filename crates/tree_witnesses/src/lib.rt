// The effects of the operators of records and witnesses on the records: the functions of the Rust
// under their names.
#![tactic(auto)]

ghost use Rattle.std.specs.Prelude.{◌+◌};
ghost use Rattle.definition.specs.Base.{bytes};
ghost use Rattle.definition.specs.Enums as Enums;
ghost use Rattle.definition.specs.Operators as Op;
ghost use Rattle.definition.specs.Perform as R;
ghost use Rattle.tree_records.specs.Trees.{Stays, Has};
ghost use Rattle.tree_nodes.specs.Gives.{full_spare};
ghost use Rattle.tree_nodes.specs.Trees.{Operates};
ghost use Rattle.tree_witnesses.specs.Witnesses.{record_over};

use definition::{About, Refusal};
use machine::kinds::{Kind, Want};
use operator_names::Name;
use tree_nodes::build::conformance;
use tree_nodes::leave::push_new;
use tree_nodes::take::{pop_if, pop_name, protocol, took};
use tree_nodes::{fixed_number, high, low};
use tree_parts::record::{FIXED, LAZY, NUMBERED, about, push_record, qualifier};
use tree_records::{Record, Trees};

// The number of the words of an associated type, the fixed name 133.
const ASSOCIATED_TYPE: u32 = tree_nodes::FIXED + Name::AssociatedTypeDescriptor as u32;

// A record of fixed words.
pub fn record_of(trees: &mut Trees, what: About, name: usize) -> Result<(), Refusal>
    requires { Has trees.old full_spare }
    ensures stays { Stays trees.old trees.new }
    ensures operates { Operates (record_over (Enums.about what) (λ fixed. bytes (fixed name))) trees.old trees.new result }
{
    let place = about(trees, what)?;
    push_record(trees, FIXED, place, fixed_number(name), 0);
    Ok(())
}

// `TY`: a record of words that have a number in them.
pub fn suspend_resume(trees: &mut Trees, i: usize) -> Result<(), Refusal>
    requires { Has trees.old full_spare }
    ensures stays { Stays trees.old trees.new }
    ensures operates { Operates (record_over Op.an_entity (λ _. Op.suspend_resume_text i)) trees.old trees.new result }
{
    let place = about(trees, About::Entity)?;
    push_record(trees, NUMBERED, place, low(i), high(i));
    Ok(())
}

// `Wl`, `WL`: a lazy witness of a type and its conformance.
pub fn lazy_witness(trees: &mut Trees, name: usize) -> Result<(), Refusal>
    requires { Has trees.old full_spare }
    ensures stays { Stays trees.old trees.new }
    ensures operates { Operates (λ fixed. R.lazy_witness (bytes (fixed name))) trees.old trees.new result }
{
    let whole = conformance(trees)?;
    let ty = pop_if(trees, Want::Type)?;
    push_new(
        trees,
        Record {
            kind: Kind::Record,
            size: 2,
            a: LAZY,
            b: fixed_number(name),
            c: ty as u32,
            d: whole as u32,
            ..Record::ZERO
        },
    );
    Ok(())
}

// `TW`: the witness of an entity in a conformance.
pub fn protocol_witness(trees: &mut Trees) -> Result<(), Refusal>
    requires { Has trees.old full_spare }
    ensures stays { Stays trees.old trees.new }
    ensures operates { Operates (λ _. R.protocol_witness) trees.old trees.new result }
{
    let entity = pop_if(trees, Want::Entity)?;
    let whole = conformance(trees)?;
    let size = trees.field(entity, Record::SIZE) + trees.field(whole, Record::SIZE) + 1;
    push_new(
        trees,
        Record {
            kind: Kind::ProtocolWitness,
            size,
            a: entity as u32,
            b: whole as u32,
            ..Record::ZERO
        },
    );
    Ok(())
}

// `Tl`: the descriptor of a protocol's associated type.
pub fn associated_type(trees: &mut Trees) -> Result<(), Refusal>
    requires { Has trees.old full_spare }
    ensures stays { Stays trees.old trees.new }
    ensures operates { Operates (λ _. R.associated_type) trees.old trees.new result }
{
    let base = protocol(trees)?;
    let name = pop_name(trees)?;
    let size = trees.field(base, Record::SIZE) + 1;
    let member = trees.grow(Record {
        kind: Kind::DependentMember,
        size,
        a: name,
        b: base as u32,
        ..Record::ZERO
    });
    push_record(trees, FIXED, member, ASSOCIATED_TYPE, 0);
    Ok(())
}

// `Tn`: the descriptor of an associated conformance.
pub fn associated_conformance(trees: &mut Trees) -> Result<(), Refusal>
    requires { Has trees.old full_spare }
    ensures stays { Stays trees.old trees.new }
    ensures operates { Operates (λ _. R.associated_conformance) trees.old trees.new result }
{
    let required = protocol(trees)?;
    let _marked = took(trees, Kind::FirstElementMarker);
    let by = qualifier(trees);
    let name = pop_name(trees)?;
    let place = pop_if(trees, Want::Type)?;
    push_new(
        trees,
        Record {
            kind: Kind::Record,
            size: 2,
            a: by.form,
            b: name,
            c: place as u32,
            d: by.cell,
            e: required as u32,
            ..Record::ZERO
        },
    );
    Ok(())
}
