// The four calls of the shape check, for C and Rust to link. Each has one more parameter, which
// receives the answer: the number of the refusal (0 if the text is accepted), its place, steps,
// charged total, wraps, and the length of what was written.
// Kept: four bodies of two lines, under the names that C links.
#![tactic(auto)]

ghost use Rattle.std.specs.Prelude.{◌≡◌, length};
ghost use Rattle.definition.specs.Check as Check;
ghost use Rattle.call_endings.specs.Workspace.{Scratch};
ghost use Rattle.call_values.specs.Six.{six};
ghost use Rattle.call_values.specs.Stored.{Told};

use call_values::numbers;
use swift_shape::{shape, shape_stopped, shape_type, shape_type_stopped};

// Checks the shape of a symbol.
#[unsafe(no_mangle)]
pub extern "C" fn cepruvels_shape(
    text: &[u8],
    ceiling: usize,
    workspace: &mut [u32],
    answer: &mut [u64; 6],
)
    ensures { (answer.new ≡ six (Check.shape text.now ceiling (length workspace.old)).values) × Scratch 8 ceiling (Check.shape text.now ceiling (length workspace.old)).values.number workspace.old workspace.new }
{
    *answer = numbers(shape(text, ceiling, workspace));
}

// Checks the shape of a type.
#[unsafe(no_mangle)]
pub extern "C" fn cepruvels_shape_type(
    text: &[u8],
    ceiling: usize,
    workspace: &mut [u32],
    answer: &mut [u64; 6],
)
    ensures { (answer.new ≡ six (Check.shape_type text.now ceiling (length workspace.old)).values) × Scratch 8 ceiling (Check.shape_type text.now ceiling (length workspace.old)).values.number workspace.old workspace.new }
{
    *answer = numbers(shape_type(text, ceiling, workspace));
}

// Checks a symbol's first k operators.
#[unsafe(no_mangle)]
pub extern "C" fn cepruvels_shape_stopped(
    text: &[u8],
    ceiling: usize,
    k: usize,
    workspace: &mut [u32],
    out: &mut [u32],
    answer: &mut [u64; 6],
)
    ensures { Told (Check.shape_stopped text.now ceiling k (length workspace.old) (length out.old)) out.old out.new answer.new × Scratch 8 ceiling (Check.shape_stopped text.now ceiling k (length workspace.old) (length out.old)).values.number workspace.old workspace.new }
{
    *answer = numbers(shape_stopped(text, ceiling, k, workspace, out));
}

// Checks a type's first k operators.
#[unsafe(no_mangle)]
pub extern "C" fn cepruvels_shape_type_stopped(
    text: &[u8],
    ceiling: usize,
    k: usize,
    workspace: &mut [u32],
    out: &mut [u32],
    answer: &mut [u64; 6],
)
    ensures { Told (Check.shape_type_stopped text.now ceiling k (length workspace.old) (length out.old)) out.old out.new answer.new × Scratch 8 ceiling (Check.shape_type_stopped text.now ceiling k (length workspace.old) (length out.old)).values.number workspace.old workspace.new }
{
    *answer = numbers(shape_type_stopped(text, ceiling, k, workspace, out));
}
