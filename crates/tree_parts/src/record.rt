// The subject of a record of words, its record, and the qualifier of an associated conformance.
ghost use Rattle.std.specs.Prelude.{[], ◌∷◌, ◌+◌};
ghost use Rattle.definition.specs.Enums as Enums;
ghost use Rattle.definition.specs.Perform as R;
ghost use Rattle.tree_records.specs.Lies.{at};
ghost use Rattle.tree_records.specs.Trees.{Stays, Has};
ghost use Rattle.tree_nodes.specs.Gives.{spare, nothing_spare, Under, Left};
ghost use Rattle.tree_nodes.specs.Trees.{Builds};
ghost use Rattle.tree_parts.specs.Parts.{Qualifies};

use definition::{About, Refusal};
use machine::kinds::{Kind, Want};
use tree_nodes::build::conformance;
use tree_nodes::leave::push_new;
use tree_nodes::take::{context, pop_if, protocol, try_pop};
use tree_records::{Record, Trees};

// The forms of a record of words, by number: a fixed text, a lazy witness, an associated
// conformance without a qualifier, a text that has a number in it, and an associated conformance
// with a qualifier.
pub const FIXED: u32 = 0;

pub const LAZY: u32 = 1;

pub const PLAIN: u32 = 2;

pub const NUMBERED: u32 = 3;

pub const QUALIFIED: u32 = 4;

// The form of an associated conformance, with the cell of its qualifier.
#[derive(Clone, Copy)]
pub struct Qualified {
    pub form: u32,
    pub cell: u32,
}

// The subject of a record.
pub fn about(trees: &mut Trees, what: About) -> Result<usize, Refusal>
    requires { Has trees.old (spare 0 0 1 0) }
    ensures stays { Stays trees.old trees.new }
    ensures builds { Builds (R.about (Enums.about what)) 1 1 trees.old trees.new result }
{
    match what {
        About::Type => pop_if(trees, Want::Type),
        About::Entity => pop_if(trees, Want::Entity),
        About::Context => context(trees),
        About::Protocol => protocol(trees),
        About::Conformance => conformance(trees),
        About::Anything => pop_if(trees, Want::Anything),
    }
}

// Pushes a record of words over the tree at a place. The form says what the words c and d are.
pub fn push_record(trees: &mut Trees, form: u32, place: usize, c: u32, d: u32)
    requires { Under trees.old.ws.now trees.old.n trees.old.state place }
    ensures stays { Stays trees.old trees.new }
    ensures left { Left trees.old.ws.now trees.new.ws.now trees.old.n trees.old.state trees.new.state (26 ∷ (at trees.old.ws.now place 1 + 1) ∷ 0 ∷ form ∷ place ∷ c ∷ d ∷ 0 ∷ []) }
{
    let size = trees.field(place, Record::SIZE) + 1;
    push_new(
        trees,
        Record {
            kind: Kind::Record,
            size,
            a: form,
            b: place as u32,
            c,
            d,
            ..Record::ZERO
        },
    );
}

// Takes the protocol on top that qualifies an associated conformance, if there is one, and puts it
// in a cell of its own.
pub fn qualifier(trees: &mut Trees) -> Qualified
    requires { Has trees.old nothing_spare }
    ensures stays { Stays trees.old trees.new }
    ensures qualifies { Qualifies trees.old.ws.now trees.new.ws.now trees.old.n trees.old.state trees.new.state result }
{
    match try_pop(trees, Want::Protocol) {
        Some(place) => {
            let cell = trees.grow(Record {
                a: Record::NO_LABEL,
                b: place as u32,
                ..Record::ZERO
            });
            Qualified {
                form: QUALIFIED,
                cell: cell as u32,
            }
        }
        None => Qualified {
            form: PLAIN,
            cell: 0,
        },
    }
}
