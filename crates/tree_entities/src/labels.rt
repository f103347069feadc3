// The labels of a function. Its type determines how many there are.
ghost use Rattle.std.specs.Prelude.{◌≡◌, ◌+◌, ◌*◌, ◌≤◌, ◌<◌, length};
ghost use Rattle.definition.specs.Node.{Node};
ghost use Rattle.definition.specs.Perform as R;
ghost use Rattle.tree_records.specs.Lies.{Lies};
ghost use Rattle.tree_records.specs.Holds.{Names, Named};
ghost use Rattle.tree_records.specs.Trees.{Stays, Has};
ghost use Rattle.tree_nodes.specs.Gives.{nothing_spare};
ghost use Rattle.tree_entities.specs.LabelsOf.{Treed, TakesCell, TakesLabels, some_labels};

use definition::Refusal;
use machine::kinds::Kind;
use tree_nodes::take::took;
use tree_records::{Record, Trees};

// The labels of a function, as its record has them: the cell of the first, and their number plus 1.
// Both are 0 if the function has no labels of its own.
#[derive(Clone, Copy)]
pub struct Labelled {
    pub first: u32,
    pub number: u32,
}

// The number of parameters of the function type at a place; 0 for any other type.
fn arity_of(trees: &Trees, place: usize) -> u32
    requires { 8 * place + 8 ≤ length trees.now.ws.now }
    ensures { (nm : Names) (x : Node) → Lies (Named nm) x trees.now.ws.now place → result ≡ R.arity_of x }
{
    if trees.field(place, Record::KIND) == Kind::FunctionType as u32 {
        return trees.field(place, Record::COUNT);
    }
    0
}

// The number of labels that the type at a place requires, also if it is under a signature.
fn arity(trees: &Trees, ty: usize) -> u32
    requires ty_in_bounds { 8 * ty + 8 ≤ length trees.now.ws.now }
    requires treed { Treed trees.now.ws.now ty (ty + 1) }
    ensures { (nm : Names) (x : Node) → Lies (Named nm) x trees.now.ws.now ty → result ≡ R.arity x }
{
    if trees.field(ty, Record::KIND) == Kind::GenericType as u32 {
        return arity_of(trees, trees.child(ty, Record::B));
    }
    arity_of(trees, ty)
}

// Takes one entry of the labels, and puts it in a cell before the cell `next`.
fn label(trees: &mut Trees, next: u32) -> Result<usize, Refusal>
    requires { Has trees.old nothing_spare }
    ensures stays { Stays trees.old trees.new }
    ensures takes { TakesCell trees.old.ws.now trees.new.ws.now trees.old.n trees.old.state trees.new.state next result }
{
    let place = trees.pop()?;
    let kind = trees.field(place, Record::KIND);
    if kind == Kind::Identifier as u32 {
        let name = trees.field(place, Record::A);
        return Ok(trees.grow(Record {
            a: name,
            c: next,
            ..Record::ZERO
        }));
    }
    if kind != Kind::FirstElementMarker as u32 {
        return Err(Refusal::Stack);
    }
    Ok(trees.grow(Record {
        a: Record::NO_LABEL,
        c: next,
        ..Record::ZERO
    }))
}

// Takes `many` entries, and puts each in front.
fn labels_from(trees: &mut Trees, many: u32) -> Result<Labelled, Refusal>
    requires { Has trees.old nothing_spare }
    ensures stays { Stays trees.old trees.new }
    ensures takes { (nm : Names) → TakesLabels nm (some_labels many) trees.old.ws.now trees.new.ws.now trees.old.n trees.old.state trees.new.state result }
{
    let mut first = 0;
    for _i in 0..many {
        first = label(trees, first)? as u32;
    }
    Ok(Labelled {
        first,
        number: many + 1,
    })
}

// Takes the labels of the function whose type is at a place.
pub fn labels(trees: &mut Trees, ty: usize) -> Result<Labelled, Refusal>
    requires ready { Has trees.old nothing_spare }
    requires treed { Treed trees.old.ws.now ty trees.old.state.top }
    ensures stays { Stays trees.old trees.new }
    ensures takes { (nm : Names) (x : Node) → Lies (Named nm) x trees.old.ws.now ty → TakesLabels nm (R.labels x) trees.old.ws.now trees.new.ws.now trees.old.n trees.old.state trees.new.state result }
{
    if took(trees, Kind::EmptyList) {
        return Ok(Labelled {
            first: 0,
            number: 1,
        });
    }
    let many = arity(trees, ty);
    if many == 0 {
        return Ok(Labelled {
            first: 0,
            number: 0,
        });
    }
    labels_from(trees, many)
}
