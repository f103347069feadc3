// The entries of the shape check in a lent workspace. Entry i is stored in the three numbers from
// 3 * i on: kind, size and count. The entries of the stack begin at place 0, the remembered ones at
// the ceiling.
#![tactic(auto)]

// Entries written to the workspace.
pub mod stores;

ghost use Rattle.std.specs.Prelude.{◌≡◌, ◌+◌, ◌*◌, ◌≤◌, length};
ghost use Rattle.definition.specs.Machine as M;
ghost use Rattle.definition.specs.Shape as C;
ghost use Rattle.check_entries.specs.Lies.{entry_of, entry_at, Held, Fresh, Begun};
ghost use Rattle.machine.specs.Kinds.{kind_of};
ghost use Rattle.machine.specs.Wanted.{want_of};
ghost use Rattle.check_entries.specs.EntriesTaken.{Begins, Trying, Popping, looked, Marking, Moving, Naming};

use definition::Refusal;
use machine::budget::Budget;
use machine::kinds::{Kind, Want, is_context, wanted};

#[derive(Clone, Copy)]
pub struct Entry {
    // Kept: the number of a kind, since the workspace may hold any number, and a stopped run writes
    // it as it is.
    pub kind: u32,
    pub size: u32,
    pub count: u32,
}

impl Entry {
    // Returns an entry that counts nothing.
    pub fn new(kind: Kind, size: u32) -> Self
        ensures { result ≡ record { kind = kind_of kind; size = size; count = 0 } }
    {
        Entry {
            kind: kind as u32,
            size,
            count: 0,
        }
    }
}

// The counts, the numbers of entries on the stack and remembered, and the number of known words.
#[derive(Clone, Copy)]
pub struct State {
    pub budget: Budget,
    pub depth: usize,
    pub seen: usize,
    pub words: usize,
}

impl State {
    // Returns the state at the beginning of a run: nothing is on the stack or remembered.
    pub fn new() -> Self
        ensures { Fresh result }
    {
        State {
            budget: Budget::new(),
            depth: 0,
            seen: 0,
            words: 0,
        }
    }
}

// The machine of the check: its entries in the lent workspace, of which the first 8 * ceiling
// numbers are used.
//
// Kept: what holds of the entries (`Held`, and `Light`, `Roomy` and `Sound` of `check_perform`) is a
// clause of the functions and no ghost field, since it changes within an operator: a node is
// charged before it is pushed, and entries are taken one by one. `8 * ceiling ≤ length ws` stays a
// clause, too: as a ghost field, `new` would ask it of its callers.
#[derive(Drop)]
pub struct Entries<'a> {
    pub ws: &'a mut [u32],
    pub ceiling: usize,
    pub state: State,
}

// The takes of a row, as in the definition.
#[derive(Clone, Copy)]
pub enum Take {
    Wraps,
    Node(Want),
    Name,
    Context,
    Protocol,
    Marker(Kind),
    Qualifier,
    Params,
    Result,
    LabelledType,
    Labels,
    Signature,
    UnderSignature,
    Elements,
    Members,
    Arguments,
    Requirements,
    // A letter that breaks a rule. It is refused late.
    Refuses,
    PrintedAhead,
}

impl<'a> Entries<'a> {
    // Returns the machine at the beginning of a run, whatever the workspace holds.
    pub fn new(ws: &'a mut [u32], ceiling: usize) -> Self
        ensures { Begun ws.entry ceiling result }
    {
        Entries {
            ws,
            ceiling,
            state: State::new(),
        }
    }

    // Begins a turn: counts a step, and charges 1.
    pub fn begin(&mut self) -> Result<(), Refusal>
        ensures { Begins self.old self.new result }
    {
        self.state.budget = self.state.budget.step()?.charge(self.ceiling, 1)?;
        Ok(())
    }

    // Returns the entry at a place.
    pub fn entry_at(&self, i: usize) -> Entry
        requires { 3 * i + 3 ≤ length self.now.ws.now }
        ensures { entry_of result ≡ entry_at self.now.ws.now i }
    {
        Entry {
            kind: self.ws[3 * i],
            size: self.ws[3 * i + 1],
            count: self.ws[3 * i + 2],
        }
    }

    // Takes the top entry, if its kind is wanted.
    pub fn try_take(&mut self, want: Want) -> Option<Entry>
        requires { Held self.old }
        ensures { Trying (C.try (want_of want)) self.old self.new result }
    {
        if self.state.depth == 0 {
            return None;
        }
        let top = self.state.depth - 1;
        let e = self.entry_at(top);
        if !wanted(want, e.kind) {
            return None;
        }
        self.state.depth = top;
        Some(e)
    }

    // Takes the top entry, whose kind must be wanted.
    pub fn pop_if(&mut self, want: Want) -> Result<Entry, Refusal>
        requires { Held self.old }
        ensures { Popping (C.pop_if (want_of want)) self.old self.new result }
    {
        self.try_take(want).ok_or(Refusal::Stack)
    }

    // Removes the top entry, if its kind is wanted.
    pub fn took(&mut self, want: Want) -> bool
        requires { Held self.old }
        ensures { Marking (looked (want_of want)) self.old self.new result }
    {
        self.try_take(want).is_some()
    }

    // Takes the top entry, of any kind.
    pub fn pop(&mut self) -> Result<Entry, Refusal>
        requires { Held self.old }
        ensures { Popping (M.pop C.kind_of) self.old self.new result }
    {
        self.pop_if(Want::Anything)
    }

    // Counts a wrap.
    pub fn wrap(&mut self) -> Result<(), Refusal>
        ensures { Moving M.wrap self.old self.new result }
    {
        self.state.budget = self.state.budget.wrap()?;
        Ok(())
    }

    // What can represent one entry

    // Takes an identifier, whose name is used elsewhere.
    pub fn pop_name(&mut self) -> Result<(), Refusal>
        requires { Held self.old }
        ensures { Moving C.pop_name self.old self.new result }
    {
        let e = self.pop()?;
        if e.kind != Kind::Identifier as u32 {
            return Err(Refusal::Stack);
        }
        Ok(())
    }

    // Takes a context.
    pub fn context(&mut self) -> Result<Entry, Refusal>
        requires { Held self.old }
        ensures { Popping C.context self.old self.new result }
    {
        let e = self.pop()?;
        if e.kind == Kind::Identifier as u32 {
            return Ok(Entry::new(Kind::Module, 1));
        }
        if !is_context(e.kind) {
            return Err(Refusal::Stack);
        }
        Ok(e)
    }

    // Takes the protocol that is named by an identifier and the context below it.
    fn named_protocol(&mut self) -> Result<Entry, Refusal>
        requires { Held self.old }
        ensures { Naming self.old self.new result }
    {
        let context = self.context()?;
        Ok(Entry::new(Kind::Protocol, 1 + context.size))
    }

    // Takes a protocol.
    pub fn protocol(&mut self) -> Result<Entry, Refusal>
        requires { Held self.old }
        ensures { Popping C.protocol self.old self.new result }
    {
        let e = self.pop()?;
        if e.kind == Kind::Protocol as u32 {
            return Ok(e);
        }
        if e.kind == Kind::Identifier as u32 {
            return self.named_protocol();
        }
        if e.kind != Kind::ProtocolList as u32 || e.count != 1 {
            return Err(Refusal::Stack);
        }
        Ok(Entry::new(Kind::Protocol, e.size - 1))
    }

    // Takes one side of a function type. The empty list represents the empty tuple.
    pub fn side(&mut self) -> Result<Entry, Refusal>
        requires { Held self.old }
        ensures { Popping C.side self.old self.new result }
    {
        if self.took(Want::Kind(Kind::EmptyList)) {
            return Ok(Entry::new(Kind::Tuple, 1));
        }
        self.pop_if(Want::Type)
    }
}
