// What an operator of the shape check has taken so far.
ghost use Rattle.std.specs.Prelude.{◌≡◌, true, if◌then◌else◌, eqb, ◌+◌, ◌^◌, ◌≤◌, ◌<◌};
ghost use Rattle.machine.specs.Kinds.{kind_of};
ghost use Rattle.definition.specs.Shape as C;
ghost use Rattle.check_entries.specs.Lies.{entry_of};
ghost use Rattle.check_takes.specs.Taken.{taken_of, Sets};

use check_entries::Entry;
use machine::kinds::Kind;

// The sum of the sizes, what was counted, and whether there was a signature.
//
// Kept: `signed` says nothing about the other two, so there is no case for it; and that the size is
// at most 2^20 is a clause and no ghost field, since the sum with one more entry may be larger.
#[derive(Clone, Copy)]
pub struct Taken {
    pub size: usize,
    pub count: usize,
    pub signed: bool,
}

impl Taken {
    // Nothing was taken.
    pub const NOTHING: Taken = Taken {
        size: 0,
        count: 0,
        signed: false,
    };

    // Adds one entry.
    pub fn add(self, e: Entry) -> Self
        requires { self.size ≤ 2 ^ 20 }
        ensures { taken_of result ≡ C.add (entry_of e) (taken_of self) }
    {
        Taken {
            size: e.size as usize + self.size,
            ..self
        }
    }

    // Adds one entry of a list, which is counted.
    pub fn add_counted(self, e: Entry) -> Self
        requires { (self.size ≤ 2 ^ 20) × (self.count < 2 ^ 32) }
        ensures { taken_of result ≡ C.add_counted (entry_of e) (taken_of self) }
    {
        Taken {
            count: self.count + 1,
            ..self.add(e)
        }
    }

    // Adds an entry. Its own count is the count if it is of that kind, and otherwise the count is
    // the given one.
    fn add_counted_as(self, e: Entry, kind: Kind, otherwise: usize) -> Self
        requires { (self.size ≤ 2 ^ 20) × (otherwise < 2 ^ 32) }
        ensures { Sets (C.taken (e.size + self.size) (if eqb e.kind (kind_of kind) then e.count else otherwise) self.signed) result }
    {
        let count = if e.kind == kind.code() {
            e.count as usize
        } else {
            otherwise
        };
        Taken {
            count,
            ..self.add(e)
        }
    }

    // Adds the parameters of a function type. The elements of a tuple are counted, anything else
    // counts as one.
    // Kept: this and `add_labelled` are two takes of the definition, each one call.
    #[tactic(auto, unfolding(definition::specs::Shape::add_params))]
    pub fn add_params(self, e: Entry) -> Self
        requires { self.size ≤ 2 ^ 20 }
        ensures { Sets (C.add_params (entry_of e) (taken_of self)) result }
    {
        self.add_counted_as(e, Kind::Tuple, 1)
    }

    // Adds a type. The parameters of a function type are counted.
    #[tactic(auto, unfolding(definition::specs::Shape::add_labelled))]
    pub fn add_labelled(self, e: Entry) -> Self
        requires { self.size ≤ 2 ^ 20 }
        ensures { Sets (C.add_labelled (entry_of e) (taken_of self)) result }
    {
        self.add_counted_as(e, Kind::FunctionType, 0)
    }

    // Adds a signature, under which the type has one more node.
    pub fn sign(self, e: Entry) -> Self
        requires { self.size ≤ 2 ^ 20 }
        ensures { taken_of result ≡ C.taken (1 + (e.size + self.size)) self.count true }
    {
        Taken {
            size: 1 + (e.size as usize + self.size),
            signed: true,
            ..self
        }
    }

    // What was taken is printed ahead, and its size no longer counts.
    pub fn printed_ahead(self) -> Self
        ensures { taken_of result ≡ C.taken 0 self.count self.signed }
    {
        Taken { size: 0, ..self }
    }
}
