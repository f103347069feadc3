// What is left at the end of the check's run: whether exactly one entry is left after a whole run,
// and the entries that a stopped run writes.
#![tactic(auto)]

ghost use Rattle.std.specs.Prelude.{◌≡◌, reverse, ◌*◌, ◌≤◌, length};
ghost use Rattle.definition.specs.Base.{is_some};
ghost use Rattle.definition.specs.Calls as Calls;
ghost use Rattle.definition.specs.Shape as C;
ghost use Rattle.check_entries.specs.Lies.{stack_of};
ghost use Rattle.machine.specs.RunEnds.{kinds_of, Writing};

use check_entries::Entries;
use machine::runs::{Final, takes};

// Whether exactly one entry is left, and its kind is accepted.
pub fn single(entries: &Entries, what: Final) -> bool
    requires { 3 * entries.now.state.depth ≤ length entries.now.ws.now }
    ensures { result ≡ is_some (Calls.single C.kind_of (kinds_of what) (stack_of entries.now.ws.now entries.now.state.depth)) }
{
    entries.state.depth == 1 && takes(what, entries.ws[0])
}

// Writes the entries of the stack, three numbers each, in the order in which they were pushed.
pub fn write_stack(entries: &Entries, out: &mut [u32]) -> Option<usize>
    requires { 3 * entries.now.state.depth ≤ length entries.now.ws.now }
    ensures { Writing (Calls.entry_numbers (reverse (stack_of entries.now.ws.now entries.now.state.depth))) out.old out.new result }
{
    let n = 3 * entries.state.depth;
    if out.len() < n {
        return None;
    }
    // Kept: an index, since the library's copy would need a function of the C library (`memmove`),
    // and the archive needs none.
    for i in 0..n {
        out[i] = entries.ws[i];
    }
    Some(n)
}
