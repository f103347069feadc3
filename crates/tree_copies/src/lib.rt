// Leaves, and copies of a node, each charged its size: `S`, `Sg` and the letters of `A`.
#![tactic(auto)]

ghost use Rattle.std.specs.Prelude.{◌≡◌, List, [], ◌∷◌, ℕ, ◌+◌, ◌*◌, ◌^◌, ◌≤◌, ◌<◌};
ghost use Rattle.definition.specs.Enums as Enums;
ghost use Rattle.definition.specs.Perform as R;
ghost use Rattle.definition.specs.Machine.{push};
ghost use Rattle.machine.specs.Kinds.{kind_of};
ghost use Rattle.tree_records.specs.Lies.{at};
ghost use Rattle.tree_records.specs.Holds.{Inside, Grew};
ghost use Rattle.tree_records.specs.Trees.{Stays, Has};
ghost use Rattle.tree_nodes.specs.Gives.{spare, nothing_spare, full_spare};
ghost use Rattle.tree_nodes.specs.Trees.{Makes, Operates, step_of};
ghost use Rattle.tree_copies.specs.Copies.{Pushes, Copied, Recalled, ReadyTree, Optioned};

use definition::{Leaf, NominalKind, Refusal};
use machine::kinds::{Kind, Want};
use operator_names::Name;
use tree_nodes::fixed_number;
use tree_nodes::leave::{generic_param, standard_nominal, wrap};
use tree_nodes::take::pop_if;
use tree_records::{Record, SEEN, Trees};

// Makes a node of one record without a child, and returns its place. It has one number, or none.
fn lone(trees: &mut Trees, kind: Kind, a: u32) -> usize
    requires { Inside trees.old.ws.now trees.old.n trees.old.state 2 0 0 }
    ensures stays { Stays trees.old trees.new }
    ensures grew { Grew trees.old.ws.now trees.new.ws.now trees.old.n trees.old.state trees.new.state (kind_of kind ∷ 1 ∷ 0 ∷ a ∷ 0 ∷ 0 ∷ 0 ∷ 0 ∷ []) }
    ensures place { result ≡ trees.old.state.top }
{
    trees.grow(Record {
        kind,
        size: 1,
        a,
        ..Record::ZERO
    })
}

// Makes the node of a leaf, and returns its place.
pub fn leaf(trees: &mut Trees, l: Leaf) -> usize
    requires { Inside trees.old.ws.now trees.old.n trees.old.state 4 0 0 }
    ensures stays { Stays trees.old trees.new }
    ensures makes { Makes (λ fixed. R.leaf_node (Enums.leaf fixed l)) 4 trees.old trees.new result }
{
    match l {
        Leaf::Module(name) => lone(trees, Kind::Module, fixed_number(name)),
        Leaf::StandardNominal(kind, name) => standard_nominal(trees, kind, name),
        Leaf::GenericParam(p) => generic_param(trees, p),
        Leaf::EmptyList => lone(trees, Kind::EmptyList, 0),
        Leaf::FirstElementMarker => lone(trees, Kind::FirstElementMarker, 0),
        Leaf::VariadicMarker => lone(trees, Kind::VariadicMarker, 0),
        Leaf::Throws => lone(trees, Kind::Throws, 0),
        Leaf::Async => lone(trees, Kind::Async, 0),
    }
}

// Pushes a leaf.
pub fn push_leaf(trees: &mut Trees, l: Leaf)
    requires { Has trees.old full_spare }
    ensures stays { Stays trees.old trees.new }
    ensures operates { Operates (λ fixed. push (R.leaf_node (Enums.leaf fixed l))) trees.old trees.new (Ok tt) }
{
    let place = leaf(trees, l);
    trees.push(place);
}

// Pushes a place that many times.
// Kept: `check_entries` has `push_copies` and `push_charged`, and `check_perform` has `recall`, on
// entries. These push places of records; what both share is `Budget::charge_copies`.
fn push_copies(trees: &mut Trees, times: usize, place: usize)
    requires inside { Inside trees.old.ws.now trees.old.n trees.old.state (3 * times) times 0 }
    requires place_bound { place < 2 ^ 32 }
    ensures stays { Stays trees.old trees.new }
    ensures pushes { Pushes trees.old.ws.now trees.new.ws.now trees.old.n trees.old.state trees.new.state place times }
{
    for _i in 0..times {
        trees.push(place);
    }
}

// Pushes that many copies of the tree at a place, each charged its size.
pub fn copied(trees: &mut Trees, times: usize, place: usize) -> Result<(), Refusal>
    requires ready { Has trees.old nothing_spare }
    requires place_lt_top { (place < trees.old.state.top) × (1 ≤ at trees.old.ws.now place 1) }
    ensures stays { Stays trees.old trees.new }
    ensures copied { Copied trees.old.ws.now trees.new.ws.now trees.old.n trees.old.state times place (step_of result trees.new.state) }
{
    let size = trees.field(place, Record::SIZE) as usize;
    trees.state.budget = trees.state.budget.charge_copies(trees.n, size, times)?;
    push_copies(trees, times, place);
    Ok(())
}

// `S`: pushes that many copies of a leaf.
pub fn standard(trees: &mut Trees, repeat: usize, l: Leaf) -> Result<(), Refusal>
    requires { Has trees.old full_spare }
    ensures stays { Stays trees.old trees.new }
    ensures operates { Operates (λ fixed. R.copied trees.old.n repeat (R.leaf_node (Enums.leaf fixed l))) trees.old trees.new result }
{
    let place = leaf(trees, l);
    copied(trees, repeat, place)
}

// A letter of `A`: pushes that many copies of a remembered node, which is given by its index.
pub fn recall(trees: &mut Trees, times: usize, index: usize) -> Result<(), Refusal>
    requires { Has trees.old nothing_spare }
    ensures stays { Stays trees.old trees.new }
    ensures recalled { Recalled trees.old.ws.now trees.new.ws.now trees.old.n trees.old.state times index (step_of result trees.new.state) }
{
    if trees.state.seen <= index {
        return Err(Refusal::Spelling);
    }
    let place = trees.ws[SEEN * trees.n + index] as usize;
    copied(trees, times, place)
}

// Makes `Optional` of the type at a place, remembers it, and pushes that many copies of it.
fn optional_of(trees: &mut Trees, repeat: usize, place: usize) -> Result<(), Refusal>
    requires ready_tree { ReadyTree trees.old.ws.now trees.old.n trees.old.state (spare 8 0 0 1) place }
    requires place_lt_top { (place < trees.old.state.top) × (at trees.old.ws.now place 1 ≤ 262144) }
    ensures stays { Stays trees.old trees.new }
    ensures optioned { Optioned trees.old.ws.now trees.new.ws.now trees.old.n trees.old.state repeat place (step_of result trees.new.state) }
{
    let base = standard_nominal(trees, NominalKind::Enum, Name::Optional as usize);
    let cell = trees.grow(Record {
        a: Record::NO_LABEL,
        b: place as u32,
        ..Record::ZERO
    });
    let size = trees.field(place, Record::SIZE) + 3;
    let whole = trees.grow(Record {
        kind: Kind::BoundGeneric,
        size,
        a: base as u32,
        b: 1,
        c: cell as u32,
        ..Record::ZERO
    });
    trees.remember(whole);
    copied(trees, repeat, whole)
}

// `Sg`: counts one wrap, and pushes that many copies of `Optional` of the type on top.
pub fn optional(trees: &mut Trees, repeat: usize) -> Result<(), Refusal>
    requires { Has trees.old full_spare }
    ensures stays { Stays trees.old trees.new }
    ensures operates { Operates (λ _. R.optional trees.old.n repeat) trees.old trees.new result }
{
    wrap(trees)?;
    let place = pop_if(trees, Want::Type)?;
    optional_of(trees, repeat, place)
}
