// A list that is taken from the stack, cell by cell, and the node over it.
ghost use Rattle.std.specs.Prelude.{◌+◌, [], ◌∷◌};
ghost use Rattle.machine.specs.Kinds.{kind_of};
ghost use Rattle.tree_records.specs.Trees.{Stays, Reads, Has};
ghost use Rattle.tree_nodes.specs.Gives.{nothing_spare, full_spare, Left};
ghost use Rattle.tree_types.specs.Cells.{Gathering, CellFits, Adds, Labels};

use machine::kinds::{Kind, Want};
use tree_nodes::leave::push_new;
use tree_nodes::take::try_pop;
use tree_records::{Record, Trees};

// A list that was taken from the stack: the number of nodes, the sum of their sizes, and the place
// of the first cell.
#[derive(Clone, Copy)]
pub struct Chain {
    pub count: u32,
    pub sum: u32,
    pub first: u32,
}

impl Chain {
    pub const EMPTY: Chain = Chain {
        count: 0,
        sum: 0,
        first: 0,
    };

    // Adds a cell to the front: the tree at a place, with a label.
    pub fn put(&mut self, trees: &mut Trees, label: u32, place: usize)
        requires { CellFits trees.old.ws.now trees.old.n trees.old.state self.old place }
        ensures stays { Stays trees.old trees.new }
        ensures adds { Adds trees.old.ws.now trees.new.ws.now trees.old.n trees.old.state self.old label place (record { list = self.new; next = trees.new.state }) }
    {
        let size = trees.field(place, Record::SIZE);
        let cell = trees.grow(Record {
            a: label,
            b: place as u32,
            c: self.first,
            ..Record::ZERO
        });
        self.count += 1;
        self.sum += size;
        self.first = cell as u32;
    }
}

// Takes the label on top, if there is one, and returns its number; otherwise the number that says
// that a label is missing.
// Kept: `tree_entities` has a `label`, too, the entry of a list of labels, which may not be missing
// and becomes a cell.
pub fn label(trees: &mut Trees) -> u32
    requires { Has trees.old nothing_spare }
    ensures reads { Reads trees.old trees.new }
    ensures labels { Labels trees.old.ws.now trees.old.n trees.old.state (record { label = result; next = trees.new.state }) }
{
    match try_pop(trees, Want::Identifier) {
        Some(place) => trees.field(place, Record::A),
        None => Record::NO_LABEL,
    }
}

// Pushes a node over a list.
pub fn push_list(trees: &mut Trees, list: Chain, kind: Kind)
    requires { Gathering trees.old.ws.now trees.old.n trees.old.state full_spare list }
    ensures stays { Stays trees.old trees.new }
    ensures left { Left trees.old.ws.now trees.new.ws.now trees.old.n trees.old.state trees.new.state (kind_of kind ∷ (list.sum + 1) ∷ list.count ∷ list.first ∷ 0 ∷ 0 ∷ 0 ∷ 0 ∷ []) }
{
    push_new(
        trees,
        Record {
            kind,
            size: list.sum + 1,
            count: list.count,
            a: list.first,
            ..Record::ZERO
        },
    );
}
