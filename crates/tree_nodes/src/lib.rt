// What operators take from the stack and push on it, on records.
// Kept: `pop_if`, `took`, `wrap` and others have the names of methods of `check_entries`. The
// reading and the check each have their own machine, records here and entries there, and the names
// are those of the Rust. `wrap` only hands the budget on, and what both share is `Budget`.
#![tactic(auto)]

// Trees that are made of what is taken from the stack.
pub mod build;
// What operators make and push.
pub mod leave;
// What operators take from the stack.
pub mod take;

ghost use Rattle.std.specs.Prelude.{◌≡◌};
ghost use Rattle.definition.specs.Base.{bytes};
ghost use Rattle.tree_records.specs.Holds.{Fixed, Names, Named};
ghost use Rattle.tree_nodes.specs.Gives.{low_half, high_half};

// Fixed names are represented by numbers from this one on.
pub const FIXED: u32 = 65536;

// How many fixed names there are.
const FIXED_NAMES: usize = operator_names::NAMES;

// A number that represents no name.
const NO_NAME: u32 = FIXED + FIXED_NAMES as u32;

// Returns the number that represents a fixed name. Past the last fixed name there is no name.
pub fn fixed_number(name: usize) -> u32
    ensures { (nm : Names) → Fixed nm.fixed → Named nm result (bytes (nm.fixed name)) }
{
    if name < FIXED_NAMES {
        return FIXED + name as u32;
    }
    NO_NAME
}

// The halves of a number of 64 bits.
// Kept: Rattle refuses a cast that may lose something, and the library has no method that gives a
// half, so each stays a function of one line.
pub fn low(x: usize) -> u32
    ensures { result ≡ low_half x }
{
    (x % 4294967296) as u32
}

pub fn high(x: usize) -> u32
    ensures { result ≡ high_half x }
{
    (x / 4294967296) as u32
}
