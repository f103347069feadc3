// The lists on the stack of the shape check.
ghost use Rattle.std.specs.Prelude.{◌≡◌, ◌≤◌, ◌<◌, ℕ};
ghost use Rattle.definition.specs.Shape as C;
ghost use Rattle.definition.specs.Shape.{Check};
ghost use Rattle.check_entries.specs.Lies.{Held};
ghost use Rattle.check_entries.specs.EntriesTaken.{Moving};
ghost use Rattle.check_takes.specs.Taken.{taken_of};
ghost use Rattle.check_takes.specs.ListRounds.{one_label, all_of, Adds, Rounding, Gathering};

use crate::sums::Taken;
use check_entries::Entries;
use definition::Refusal;
use machine::kinds::{Kind, Want};
use std::ops::ControlFlow;

// Takes one label, or the marker for none.
fn label(entries: &mut Entries) -> Result<(), Refusal>
    requires { Held entries.old }
    ensures { Moving one_label entries.old entries.new result }
{
    let e = entries.pop()?;
    if e.kind != Kind::Identifier as u32 && e.kind != Kind::FirstElementMarker as u32 {
        return Err(Refusal::Stack);
    }
    Ok(())
}

// Takes that many labels.
pub fn labels(entries: &mut Entries, count: usize) -> Result<(), Refusal>
    requires { Held entries.old }
    ensures { Moving (C.labels_from count) entries.old entries.new result }
{
    for _ in 0..count {
        label(entries)?;
    }
    Ok(())
}

// A kind of list on the stack, by what one round takes: an entry, or nothing more.
pub trait List {
    // the definition's loop, given the bound of its rounds
    ghost from: { ℕ → C.Taken → Check C.Taken };

    // Takes what is next of the list. `Break`: it was the last.
    fn round(entries: &mut Entries, taken: Taken) -> Result<ControlFlow<Taken, Taken>, Refusal>
        requires { Adds entries.old taken }
        ensures { Rounding from entries.old taken entries.new result };
}

// Takes a whole list.
pub fn gather<L: List>(entries: &mut Entries, taken: Taken) -> Result<Taken, Refusal>
    requires { Adds entries.old taken }
    ensures { Gathering (all_of L.from (taken_of taken)) entries.old taken entries.new result }
{
    let mut sum = taken;
    // Kept: how far a list goes is known only from what is taken of it.
    loop {
        match L::round(entries, sum)? {
            ControlFlow::Break(all) => {
                return Ok(all);
            }
            ControlFlow::Continue(more) => {
                sum = more;
            }
        }
    }
}

// Types with their markers and their labels.
pub struct Elements;

impl List for Elements {
    ghost from = { C.elements_from };

    fn round(entries: &mut Entries, taken: Taken) -> Result<ControlFlow<Taken, Taken>, Refusal> {
        let last = entries.took(Want::Kind(Kind::FirstElementMarker));
        entries.took(Want::Kind(Kind::VariadicMarker));
        entries.took(Want::Identifier);
        let sum = taken.add_counted(entries.pop_if(Want::Type)?);
        if last {
            return Ok(ControlFlow::Break(sum));
        }
        Ok(ControlFlow::Continue(sum))
    }
}

// Protocols.
pub struct Members;

impl List for Members {
    ghost from = { C.members_from };

    fn round(entries: &mut Entries, taken: Taken) -> Result<ControlFlow<Taken, Taken>, Refusal> {
        let last = entries.took(Want::Kind(Kind::FirstElementMarker));
        let sum = taken.add_counted(entries.protocol()?);
        if last {
            return Ok(ControlFlow::Break(sum));
        }
        Ok(ControlFlow::Continue(sum))
    }
}

// The arguments of a type, down to the empty list. A marker is between two lists of arguments.
pub struct Arguments;

impl List for Arguments {
    ghost from = { C.arguments_from };

    fn round(entries: &mut Entries, taken: Taken) -> Result<ControlFlow<Taken, Taken>, Refusal> {
        if let Some(e) = entries.try_take(Want::Type) {
            return Ok(ControlFlow::Continue(taken.add_counted(e)));
        }
        if entries.took(Want::Kind(Kind::EmptyList)) {
            return Ok(ControlFlow::Break(taken));
        }
        entries.pop_if(Want::Kind(Kind::FirstElementMarker))?;
        Ok(ControlFlow::Continue(taken))
    }
}

// The requirements of a signature, as many as there are.
pub struct Requirements;

impl List for Requirements {
    ghost from = { C.requirements_from };

    fn round(entries: &mut Entries, taken: Taken) -> Result<ControlFlow<Taken, Taken>, Refusal> {
        match entries.try_take(Want::Requirement) {
            Some(e) => Ok(ControlFlow::Continue(taken.add_counted(e))),
            None => Ok(ControlFlow::Break(taken)),
        }
    }
}
