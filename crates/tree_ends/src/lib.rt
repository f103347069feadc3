// What is left at the end of the reading's run: the one tree of a whole run, and the entries that a
// stopped run writes.
#![tactic(auto)]

ghost use Rattle.std.specs.Prelude.{map, reverse};
ghost use Rattle.definition.specs.Calls as Calls;
ghost use Rattle.definition.specs.Node.{entry_of};
ghost use Rattle.definition.specs.Perform as R;
ghost use Rattle.tree_records.specs.Holds.{Names, Holds};
ghost use Rattle.tree_records.specs.Trees.{Has};
ghost use Rattle.machine.specs.RunEnds.{Writing};
ghost use Rattle.tree_nodes.specs.Gives.{nothing_spare};
ghost use Rattle.tree_ends.specs.Ends.{Singles};

use machine::runs::{Final, takes};
use tree_records::{Record, STACK, Trees};

// Returns the place of the only tree that is left, if its kind is accepted.
pub fn single(trees: &Trees, what: Final) -> Option<usize>
    requires { Has trees.now nothing_spare }
    ensures { Singles trees.now.ws.now trees.now.n trees.now.state what result }
{
    if trees.state.depth != 1 {
        return None;
    }
    let place = trees.ws[STACK * trees.n] as usize;
    if !takes(what, trees.field(place, Record::KIND)) {
        return None;
    }
    Some(place)
}

// Writes the entries of the stack, three numbers each, in the order in which they were pushed: the
// kind, size and count of each tree.
pub fn write_stack(trees: &Trees, out: &mut [u32]) -> Option<usize>
    requires { Has trees.now nothing_spare }
    ensures { (nm : Names) (m : R.Demangler) → Holds nm trees.now.ws.now trees.now.n trees.now.state nothing_spare m → Writing (Calls.entry_numbers (map entry_of (reverse m.stack))) out.old out.new result }
{
    let numbers = 3 * trees.state.depth;
    if out.len() < numbers {
        return None;
    }
    for j in 0..trees.state.depth {
        let place = trees.ws[STACK * trees.n + j] as usize;
        out[3 * j] = trees.field(place, Record::KIND);
        out[3 * j + 1] = trees.field(place, Record::SIZE);
        out[3 * j + 2] = trees.field(place, Record::COUNT);
    }
    Some(numbers)
}
