// The effects of the operators that make types on the records: the functions of the Rust under
// their names.
#![tactic(auto)]

// Lists in cells.
pub mod cells;

ghost use Rattle.std.specs.Prelude.{◌+◌};
ghost use Rattle.definition.specs.Enums as E;
ghost use Rattle.definition.specs.Node.{Node, Nodes};
ghost use Rattle.definition.specs.Perform as R;
ghost use Rattle.machine.specs.Kinds.{kind_of};
ghost use Rattle.tree_records.specs.Trees.{Stays, Has};
ghost use Rattle.tree_nodes.specs.Gives.{nothing_spare, full_spare};
ghost use Rattle.tree_nodes.specs.Trees.{Operates};
ghost use Rattle.tree_types.specs.Cells.{Gathering};
ghost use Rattle.tree_types.specs.TypeLists.{Rounds, Collects, loop_of, ListNode, delimited, applied};

use crate::cells::{Chain, label, push_list};
use definition::{NominalKind, Param, Refusal};
use machine::kinds::{Kind, Want};
use tree_nodes::leave::{generic_param, push_kept, push_new, wrap};
use tree_nodes::take::{assoc_type_name, context, pop_if, pop_name, protocol, took, try_pop};
use tree_nodes::{high, low};
use tree_records::{Record, Trees};

// The lists: the elements of a tuple, the arguments of a generic type, the requirements of a
// signature, the members of a protocol list.
#[derive(Clone, Copy)]
pub enum Lists {
    Elements,
    Arguments,
    Requirements,
    Members,
}

// `C`, `V`, `O`, `P`, `a`: a type declared in a context. It is remembered.
pub fn nominal(trees: &mut Trees, kind: NominalKind) -> Result<(), Refusal>
    requires { Has trees.old full_spare }
    ensures stays { Stays trees.old trees.new }
    ensures operates { Operates (λ _. R.nominal (E.nominal_kind kind)) trees.old trees.new result }
{
    let name = pop_name(trees)?;
    let home = context(trees)?;
    let size = trees.field(home, Record::SIZE) + 1;
    push_kept(
        trees,
        Record {
            kind: Kind::from(kind),
            size,
            a: name,
            b: home as u32,
            ..Record::ZERO
        },
    );
    Ok(())
}

// Takes one element of a tuple, from its marker down to its type. Whether it is the first element,
// which is the last to be taken.
fn element(trees: &mut Trees, list: &mut Chain) -> Result<bool, Refusal>
    requires { Gathering trees.old.ws.now trees.old.n trees.old.state nothing_spare list.old }
    ensures stays { Stays trees.old trees.new }
    ensures rounds { Rounds R.elements trees.old.ws.now trees.new.ws.now trees.old.n trees.old.state trees.new.state list.old list.new result }
{
    let first = took(trees, Kind::FirstElementMarker);
    let _variadic = took(trees, Kind::VariadicMarker);
    let named = label(trees);
    let place = pop_if(trees, Want::Type)?;
    list.put(trees, named, place);
    Ok(first)
}

// Takes one argument of a generic type, the marker between two levels, or the beginning of the
// list. Whether it is the beginning.
fn argument(trees: &mut Trees, list: &mut Chain) -> Result<bool, Refusal>
    requires { Gathering trees.old.ws.now trees.old.n trees.old.state nothing_spare list.old }
    ensures stays { Stays trees.old trees.new }
    ensures rounds { Rounds R.arguments trees.old.ws.now trees.new.ws.now trees.old.n trees.old.state trees.new.state list.old list.new result }
{
    match try_pop(trees, Want::Type) {
        Some(place) => {
            list.put(trees, Record::NO_LABEL, place);
            Ok(false)
        }
        None => {
            if took(trees, Kind::EmptyList) {
                return Ok(true);
            }
            let _marker = pop_if(trees, Want::Kind(Kind::FirstElementMarker))?;
            Ok(false)
        }
    }
}

// Takes one requirement, or finds the end of them.
fn one_requirement(trees: &mut Trees, list: &mut Chain) -> Result<bool, Refusal>
    requires { Gathering trees.old.ws.now trees.old.n trees.old.state nothing_spare list.old }
    ensures stays { Stays trees.old trees.new }
    ensures rounds { Rounds R.requirements trees.old.ws.now trees.new.ws.now trees.old.n trees.old.state trees.new.state list.old list.new result }
{
    match try_pop(trees, Want::Requirement) {
        Some(place) => {
            list.put(trees, Record::NO_LABEL, place);
            Ok(false)
        }
        None => Ok(true),
    }
}

// Takes one member of a protocol list, from its marker down to its protocol. Whether it is the
// first member, which is the last to be taken.
fn member(trees: &mut Trees, list: &mut Chain) -> Result<bool, Refusal>
    requires { Gathering trees.old.ws.now trees.old.n trees.old.state nothing_spare list.old }
    ensures stays { Stays trees.old trees.new }
    ensures rounds { Rounds R.members trees.old.ws.now trees.new.ws.now trees.old.n trees.old.state trees.new.state list.old list.new result }
{
    let first = took(trees, Kind::FirstElementMarker);
    let place = protocol(trees)?;
    list.put(trees, Record::NO_LABEL, place);
    Ok(first)
}

// Performs one round of a list. Whether it is the last.
// Kept: a match on the list in the place of a closure; four lines, and no contract of a closure.
fn one_round(trees: &mut Trees, list: &mut Chain, of: Lists) -> Result<bool, Refusal>
    requires { Gathering trees.old.ws.now trees.old.n trees.old.state nothing_spare list.old }
    ensures stays { Stays trees.old trees.new }
    ensures rounds { Rounds (loop_of of) trees.old.ws.now trees.new.ws.now trees.old.n trees.old.state trees.new.state list.old list.new result }
{
    match of {
        Lists::Elements => element(trees, list),
        Lists::Arguments => argument(trees, list),
        Lists::Requirements => one_requirement(trees, list),
        Lists::Members => member(trees, list),
    }
}

// Takes a list, from its last node on. Each node is put in front.
fn collect(trees: &mut Trees, of: Lists) -> Result<Chain, Refusal>
    requires { Has trees.old nothing_spare }
    ensures stays { Stays trees.old trees.new }
    ensures collects { Collects (loop_of of) trees.old.ws.now trees.new.ws.now trees.old.n trees.old.state trees.new.state result }
{
    let mut list = Chain::EMPTY;
    // Kept: how far a list goes is known only from what is taken of it.
    'rounds: loop {
        let last = one_round(trees, &mut list, of)?;
        if last {
            return Ok(list);
        }
    }
}

// Pushes a node of a kind over a list. The empty list represents no nodes.
fn over_list(trees: &mut Trees, of: Lists, kind: Kind) -> Result<(), Refusal>
    requires { Has trees.old full_spare }
    ensures stays { Stays trees.old trees.new }
    ensures operates { (c : Nodes → Node) → ListNode (kind_of kind) c → Operates (delimited (loop_of of) c) trees.old trees.new result }
{
    if took(trees, Kind::EmptyList) {
        push_list(trees, Chain::EMPTY, kind);
        return Ok(());
    }
    let list = collect(trees, of)?;
    push_list(trees, list, kind);
    Ok(())
}

// `t`: a tuple.
// Kept: `protocol_list` differs from it in two names only. Each is an operator under its own name,
// of two lines; what they share is `over_list`.
pub fn tuple(trees: &mut Trees) -> Result<(), Refusal>
    requires { Has trees.old full_spare }
    ensures stays { Stays trees.old trees.new }
    ensures operates { Operates (λ _. R.tuple) trees.old trees.new result }
{
    wrap(trees)?;
    over_list(trees, Lists::Elements, Kind::Tuple)
}

// `p`: a list of protocols.
pub fn protocol_list(trees: &mut Trees) -> Result<(), Refusal>
    requires { Has trees.old full_spare }
    ensures stays { Stays trees.old trees.new }
    ensures operates { Operates (λ _. R.protocol_list) trees.old trees.new result }
{
    wrap(trees)?;
    over_list(trees, Lists::Members, Kind::ProtocolList)
}

// Takes the arguments of a generic type, and the type that has them. The result is remembered.
fn apply(trees: &mut Trees) -> Result<(), Refusal>
    requires { Has trees.old full_spare }
    ensures stays { Stays trees.old trees.new }
    ensures operates { Operates applied trees.old trees.new result }
{
    let list = collect(trees, Lists::Arguments)?;
    let base = pop_if(trees, Want::Type)?;
    let size = list.sum + trees.field(base, Record::SIZE) + 1;
    push_kept(
        trees,
        Record {
            kind: Kind::BoundGeneric,
            size,
            a: base as u32,
            b: list.count,
            c: list.first,
            ..Record::ZERO
        },
    );
    Ok(())
}

// `G`: a generic type with its arguments.
pub fn bound_generic(trees: &mut Trees) -> Result<(), Refusal>
    requires { Has trees.old full_spare }
    ensures stays { Stays trees.old trees.new }
    ensures operates { Operates (λ _. R.bound_generic) trees.old trees.new result }
{
    wrap(trees)?;
    apply(trees)
}

// `l`, `r`: a generic signature with `params` parameters.
pub fn generic_signature(trees: &mut Trees, params: usize) -> Result<(), Refusal>
    requires { Has trees.old full_spare }
    ensures stays { Stays trees.old trees.new }
    ensures operates { Operates (λ _. R.generic_signature params) trees.old trees.new result }
{
    let list = collect(trees, Lists::Requirements)?;
    push_new(
        trees,
        Record {
            kind: Kind::GenericSignature,
            size: list.sum + 1,
            a: low(params),
            b: high(params),
            c: list.count,
            d: list.first,
            ..Record::ZERO
        },
    );
    Ok(())
}

// `Q`: a member type of a generic parameter. It is remembered.
pub fn archetype(trees: &mut Trees, param: Param) -> Result<(), Refusal>
    requires { Has trees.old full_spare }
    ensures stays { Stays trees.old trees.new }
    ensures operates { Operates (λ _. R.archetype (E.param param)) trees.old trees.new result }
{
    let name = assoc_type_name(trees)?;
    let base = generic_param(trees, param);
    push_kept(
        trees,
        Record {
            kind: Kind::DependentMember,
            size: 2,
            a: name,
            b: base as u32,
            ..Record::ZERO
        },
    );
    Ok(())
}
