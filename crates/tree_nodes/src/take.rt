// What operators take from the stack.
ghost use Rattle.std.specs.Prelude.{◌+◌, ◌*◌, ◌≡◌, ◌≤◌, ◌<◌, length};
ghost use Rattle.definition.specs.Perform as R;
ghost use Rattle.machine.specs.Kinds.{kind_of};
ghost use Rattle.machine.specs.Wanted.{want_of};
ghost use Rattle.tree_records.specs.Lies.{at};
ghost use Rattle.tree_records.specs.Trees.{Stays, Reads, Has};
ghost use Rattle.tree_nodes.specs.Gives.{nothing_spare};
ghost use Rattle.tree_nodes.specs.Trees.{Takes, Tries, Tried, Marks, TakesName};

use definition::Refusal;
use machine::kinds::{Kind, Want, is_context, wanted};
use tree_records::{Record, Trees};

// Takes the top, if its kind is wanted. Otherwise nothing is taken.
pub fn try_pop(trees: &mut Trees, want: Want) -> Option<usize>
    requires { Has trees.old nothing_spare }
    ensures reads { Reads trees.old trees.new }
    ensures tries { Tries (R.try (want_of want)) trees.old trees.new result }
{
    let place = trees.peek()?;
    if !wanted(want, trees.field(place, Record::KIND)) {
        return None;
    }
    trees.state.depth -= 1;
    Some(place)
}

// Takes the top, whose kind must be wanted.
pub fn pop_if(trees: &mut Trees, want: Want) -> Result<usize, Refusal>
    requires { Has trees.old nothing_spare }
    ensures reads { Reads trees.old trees.new }
    ensures takes { Takes (R.pop_if (want_of want)) 3 trees.old trees.new result }
    ensures tries { Tried (R.try (want_of want)) trees.old trees.new result }
{
    let place = trees.pop()?;
    if !wanted(want, trees.field(place, Record::KIND)) {
        return Err(Refusal::Stack);
    }
    Ok(place)
}

// Whether a node of that kind is on top. If so, it is removed.
pub fn took(trees: &mut Trees, kind: Kind) -> bool
    requires { Has trees.old nothing_spare }
    ensures reads { Reads trees.old trees.new }
    ensures marks { Marks (R.took (kind_of kind)) trees.old trees.new result }
{
    try_pop(trees, Want::Kind(kind)).is_some()
}

// Takes the name of the identifier on top.
pub fn pop_name(trees: &mut Trees) -> Result<u32, Refusal>
    requires { Has trees.old nothing_spare }
    ensures reads { Reads trees.old trees.new }
    ensures takes { TakesName R.pop_name trees.old trees.new result }
{
    let place = trees.pop()?;
    if trees.field(place, Record::KIND) != Kind::Identifier as u32 {
        return Err(Refusal::Stack);
    }
    Ok(trees.field(place, Record::A))
}

// Takes the name of a member type. A protocol on top is removed first.
pub fn assoc_type_name(trees: &mut Trees) -> Result<u32, Refusal>
    requires { Has trees.old nothing_spare }
    ensures reads { Reads trees.old trees.new }
    ensures takes { TakesName R.assoc_type_name trees.old trees.new result }
{
    let _ = try_pop(trees, Want::Protocol);
    pop_name(trees)
}

// Takes the context on top: a module (an identifier alone is one), a type or an entity.
pub fn context(trees: &mut Trees) -> Result<usize, Refusal>
    requires { Has trees.old nothing_spare }
    ensures stays { Stays trees.old trees.new }
    ensures takes { Takes R.context 1 trees.old trees.new result }
{
    let place = trees.pop()?;
    let kind = trees.field(place, Record::KIND);
    if kind == Kind::Identifier as u32 {
        let name = trees.field(place, Record::A);
        return Ok(trees.grow(Record {
            kind: Kind::Module,
            size: 1,
            a: name,
            ..Record::ZERO
        }));
    }
    if !is_context(kind) {
        return Err(Refusal::Stack);
    }
    Ok(place)
}

// Takes the protocol on top: a protocol itself, the only member of a list, or a name over a
// context.
pub fn protocol(trees: &mut Trees) -> Result<usize, Refusal>
    requires { Has trees.old nothing_spare }
    ensures stays { Stays trees.old trees.new }
    ensures takes { Takes R.protocol 2 trees.old trees.new result }
{
    let place = trees.pop()?;
    let kind = trees.field(place, Record::KIND);
    if kind == Kind::Protocol as u32 {
        return Ok(place);
    }
    if kind == Kind::ProtocolList as u32 {
        if trees.field(place, Record::COUNT) != 1 {
            return Err(Refusal::Stack);
        }
        let cell = trees.child(place, Record::A);
        return Ok(trees.child(cell, Record::B));
    }
    if kind != Kind::Identifier as u32 {
        return Err(Refusal::Stack);
    }
    let name = trees.field(place, Record::A);
    let home = context(trees)?;
    let size = trees.field(home, Record::SIZE) + 1;
    Ok(trees.grow(Record {
        kind: Kind::Protocol,
        size,
        a: name,
        b: home as u32,
        ..Record::ZERO
    }))
}

// Takes the parameters, or the result, of a function type. The empty list represents no elements.
pub fn function_params(trees: &mut Trees) -> Result<usize, Refusal>
    requires { Has trees.old nothing_spare }
    ensures stays { Stays trees.old trees.new }
    ensures takes { Takes R.function_params 1 trees.old trees.new result }
{
    match try_pop(trees, Want::Kind(Kind::EmptyList)) {
        Some(_) => Ok(trees.grow(Record {
            kind: Kind::Tuple,
            size: 1,
            ..Record::ZERO
        })),
        None => pop_if(trees, Want::Type),
    }
}
