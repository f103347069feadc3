// Judging alike in code. Lends its slices to the reading and to the check, for a symbol and for a
// type, whole and stopped, and returns whether they agree.
#![tactic(auto)]

ghost use Rattle.std.specs.Prelude.{◌≡◌, length};
ghost use Rattle.definition.specs.Calls.{reading_needs, check_needs};
ghost use Rattle.definition.specs.Enums.{values};
ghost use Rattle.call_endings.specs.Answers.{Answers};
ghost use Rattle.call_endings.specs.Workspace.{Scratch};
ghost use Rattle.swift_demangle.specs.Calls.{read_whole, read_stopped};
ghost use Rattle.swift_shape.specs.Calls.{check_whole, check_stopped};
ghost use Rattle.call_alike.specs.Exits.{read_text, Whole, Stopped, Judges, slices};

use call_values::agreement::{stopped_agrees, whole_agrees};
use definition::Answer;
use machine::runs::Final;
use swift_demangle::{demangle, demangle_stopped, demangle_type, demangle_type_stopped};
use swift_shape::{shape, shape_stopped, shape_type, shape_type_stopped};

// Kept: the four functions below choose between the calls that users and C have, which are made
// here by their own names; a fact about a call that is chosen in its caller is lost where the arms
// join.

// Reads a symbol or a type.
#[tactic(auto, unfolding(definition::specs::Reading::demangle, definition::specs::Reading::demangle_type, definition::specs::Reading::read, definition::specs::Reading::read_type))]
fn read(text: &[u8], what: Final, ceiling: usize, workspace: &mut [u32], out: &mut [u8]) -> Answer
    ensures { Answers (read_whole what text.now ceiling (length workspace.old) (length out.old)) out.old out.new result × Scratch reading_needs ceiling (values result).number workspace.old workspace.new }
{
    match what {
        Final::Symbol => demangle(text, ceiling, workspace, out),
        Final::Type => demangle_type(text, ceiling, workspace, out),
    }
}

// Checks the shape of a symbol or of a type.
#[tactic(auto, unfolding(definition::specs::Check::shape, definition::specs::Check::shape_type))]
fn check(text: &[u8], what: Final, ceiling: usize, workspace: &mut [u32]) -> Answer
    ensures { (values result ≡ (check_whole what text.now ceiling (length workspace.old)).values) × Scratch check_needs ceiling (values result).number workspace.old workspace.new }
{
    match what {
        Final::Symbol => shape(text, ceiling, workspace),
        Final::Type => shape_type(text, ceiling, workspace),
    }
}

// Reads the first k operators of a symbol or of a type.
#[tactic(auto, unfolding(definition::specs::Reading::demangle_stopped, definition::specs::Reading::demangle_type_stopped, definition::specs::Reading::read_stopped, definition::specs::Reading::read_type_stopped))]
fn read_stopped(
    text: &[u8],
    what: Final,
    ceiling: usize,
    k: usize,
    workspace: &mut [u32],
    out: &mut [u32],
) -> Answer
    ensures { Answers (read_stopped what text.now ceiling k (length workspace.old) (length out.old)) out.old out.new result × Scratch reading_needs ceiling (values result).number workspace.old workspace.new }
{
    match what {
        Final::Symbol => demangle_stopped(text, ceiling, k, workspace, out),
        Final::Type => demangle_type_stopped(text, ceiling, k, workspace, out),
    }
}

// Checks the shape of the first k operators of a symbol or of a type.
#[tactic(auto, unfolding(definition::specs::Check::shape_stopped, definition::specs::Check::shape_type_stopped))]
fn check_stopped(
    text: &[u8],
    what: Final,
    ceiling: usize,
    k: usize,
    workspace: &mut [u32],
    out: &mut [u32],
) -> Answer
    ensures { Answers (check_stopped what text.now ceiling k (length workspace.old) (length out.old)) out.old out.new result × Scratch check_needs ceiling (values result).number workspace.old workspace.new }
{
    match what {
        Final::Symbol => shape_stopped(text, ceiling, k, workspace, out),
        Final::Type => shape_type_stopped(text, ceiling, k, workspace, out),
    }
}

// The whole calls for a symbol or for a type: whether they agree, and what they leave in the
// slices.
fn whole(
    text: &[u8],
    what: Final,
    ceiling: usize,
    reading_workspace: &mut [u32],
    check_workspace: &mut [u32],
    out: &mut [u8],
) -> bool
    ensures { Whole ceiling (read_text what text.now ceiling (length reading_workspace.old)).written (read_whole what text.now ceiling (length reading_workspace.old) (length out.old)) (check_whole what text.now ceiling (length check_workspace.old)) reading_workspace.old reading_workspace.new check_workspace.old check_workspace.new out.old out.new result }
{
    whole_agrees(
        read(text, what, ceiling, reading_workspace, out),
        check(text, what, ceiling, check_workspace),
    )
}

// The same for the stopped calls.
fn stopped(
    text: &[u8],
    what: Final,
    ceiling: usize,
    k: usize,
    reading_workspace: &mut [u32],
    check_workspace: &mut [u32],
    reading_stack: &mut [u32],
    check_stack: &mut [u32],
) -> bool
    ensures { Stopped ceiling (read_stopped what text.now ceiling k (length reading_workspace.old) (length reading_stack.old)) (check_stopped what text.now ceiling k (length check_workspace.old) (length check_stack.old)) reading_workspace.old reading_workspace.new check_workspace.old check_workspace.new reading_stack.old reading_stack.new check_stack.old check_stack.new result }
{
    let reading = read_stopped(text, what, ceiling, k, reading_workspace, reading_stack);
    let check = check_stopped(text, what, ceiling, k, check_workspace, check_stack);
    stopped_agrees(reading, check, reading_stack, check_stack)
}

// Returns whether reading and check judge a text alike, as demand 3 says. With large enough
// workspaces and stacks of equal length, the answer is true. All eight calls are made, whatever the
// first of them return.
pub fn judged_alike(
    text: &[u8],
    ceiling: usize,
    k: usize,
    reading_workspace: &mut [u32],
    check_workspace: &mut [u32],
    out: &mut [u8],
    reading_stack: &mut [u32],
    check_stack: &mut [u32],
) -> bool
    ensures { Judges text.now ceiling k (slices reading_workspace.old check_workspace.old out.old reading_stack.old check_stack.old) (slices reading_workspace.new check_workspace.new out.new reading_stack.new check_stack.new) result }
{
    let symbols_agree = whole(
        text,
        Final::Symbol,
        ceiling,
        reading_workspace,
        check_workspace,
        out,
    );
    let types_agree = whole(
        text,
        Final::Type,
        ceiling,
        reading_workspace,
        check_workspace,
        out,
    );
    let stopped_symbols_agree = stopped(
        text,
        Final::Symbol,
        ceiling,
        k,
        reading_workspace,
        check_workspace,
        reading_stack,
        check_stack,
    );
    let stopped_types_agree = stopped(
        text,
        Final::Type,
        ceiling,
        k,
        reading_workspace,
        check_workspace,
        reading_stack,
        check_stack,
    );
    symbols_agree & types_agree & stopped_symbols_agree & stopped_types_agree
}
