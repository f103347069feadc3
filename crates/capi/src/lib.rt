// The four calls of the reading, for C and Rust to link. Each has one more parameter, which
// receives the answer: the number of the refusal (0 if the text is accepted), its place, steps,
// charged total, wraps, and the length of what was written.
// Kept: four bodies of two lines, under the names that C links.
#![tactic(auto)]

ghost use Rattle.std.specs.Prelude.{length};
ghost use Rattle.definition.specs.Reading as Reading;
ghost use Rattle.call_endings.specs.Workspace.{Scratch};
ghost use Rattle.call_values.specs.Stored.{Told};

use call_values::numbers;
use swift_demangle::{demangle, demangle_stopped, demangle_type, demangle_type_stopped};

// Reads a symbol.
#[unsafe(no_mangle)]
pub extern "C" fn cepruvels_demangle(
    text: &[u8],
    ceiling: usize,
    workspace: &mut [u32],
    out: &mut [u8],
    answer: &mut [u64; 6],
)
    ensures { Told (Reading.demangle text.now ceiling (length workspace.old) (length out.old)) out.old out.new answer.new × Scratch 64 ceiling (Reading.demangle text.now ceiling (length workspace.old) (length out.old)).values.number workspace.old workspace.new }
{
    *answer = numbers(demangle(text, ceiling, workspace, out));
}

// Reads a type.
#[unsafe(no_mangle)]
pub extern "C" fn cepruvels_demangle_type(
    text: &[u8],
    ceiling: usize,
    workspace: &mut [u32],
    out: &mut [u8],
    answer: &mut [u64; 6],
)
    ensures { Told (Reading.demangle_type text.now ceiling (length workspace.old) (length out.old)) out.old out.new answer.new × Scratch 64 ceiling (Reading.demangle_type text.now ceiling (length workspace.old) (length out.old)).values.number workspace.old workspace.new }
{
    *answer = numbers(demangle_type(text, ceiling, workspace, out));
}

// Reads a symbol's first k operators.
#[unsafe(no_mangle)]
pub extern "C" fn cepruvels_demangle_stopped(
    text: &[u8],
    ceiling: usize,
    k: usize,
    workspace: &mut [u32],
    out: &mut [u32],
    answer: &mut [u64; 6],
)
    ensures { Told (Reading.demangle_stopped text.now ceiling k (length workspace.old) (length out.old)) out.old out.new answer.new × Scratch 64 ceiling (Reading.demangle_stopped text.now ceiling k (length workspace.old) (length out.old)).values.number workspace.old workspace.new }
{
    *answer = numbers(demangle_stopped(text, ceiling, k, workspace, out));
}

// Reads a type's first k operators.
#[unsafe(no_mangle)]
pub extern "C" fn cepruvels_demangle_type_stopped(
    text: &[u8],
    ceiling: usize,
    k: usize,
    workspace: &mut [u32],
    out: &mut [u32],
    answer: &mut [u64; 6],
)
    ensures { Told (Reading.demangle_type_stopped text.now ceiling k (length workspace.old) (length out.old)) out.old out.new answer.new × Scratch 64 ceiling (Reading.demangle_type_stopped text.now ceiling k (length workspace.old) (length out.old)).values.number workspace.old workspace.new }
{
    *answer = numbers(demangle_type_stopped(text, ceiling, k, workspace, out));
}
