// The calls of the shape check for users: a symbol or a type, whole or stopped after k operators.
// They have no `requires`: every text, ceiling, k and slice is answered as the definition answers
// it.
#![tactic(auto)]

// The check of a part of a text.
pub mod body;

ghost use Rattle.std.specs.Prelude.{◌≡◌, ◌*◌, ◌≤◌, length};
ghost use Rattle.definition.specs.Calls as Calls;
ghost use Rattle.definition.specs.Check as Check;
ghost use Rattle.definition.specs.Enums as Enums;
ghost use Rattle.machine.specs.Beyond.{Beyond};
ghost use Rattle.machine.specs.RunEnds.{kinds_of};
ghost use Rattle.call_admission.specs.Admits.{parts};
ghost use Rattle.call_endings.specs.Answers.{Answers};
ghost use Rattle.call_endings.specs.Workspace.{Scratch};
ghost use Rattle.swift_shape.specs.Calls.{check_whole, check_stopped};

use call_admission::admit;
use call_admission::admitted::Admitted;
use call_endings::stacked;
use check_ends::{single, write_stack};
use check_entries::Entries;
use check_run::run;
use definition::{Accepted, Answer, Counts, Refusal};
use machine::budget::Budget;
use machine::runs::Final;

// How many numbers of workspace each node needs.
const NEED: usize = 8;

// Checks all of the body.
fn check_admitted(admitted: Admitted, what: Final, workspace: &mut [u32]) -> Answer
    requires { 8 * admitted.ceiling ≤ length workspace.old }
    ensures { (Enums.values result ≡ (Check.whole admitted.entry.ceiling (kinds_of what) (parts admitted.entry)).values) × Beyond 8 admitted.entry.ceiling workspace.old workspace.new }
{
    let mut entries = Entries::new(workspace, admitted.ceiling);
    if let Err(refused) = run(admitted.body, Budget::ALL_TURNS, &mut entries) {
        return Err(admitted.in_text(refused));
    }
    if !single(&entries, what) {
        return Err(admitted.at_end(Refusal::Leftover));
    }
    Ok(Accepted {
        counts: Counts::from(entries.state.budget),
        length: 0,
    })
}

// Checks the first k operators of the body, and writes the entries of the stack.
fn check_stopped_admitted(
    admitted: Admitted,
    k: usize,
    workspace: &mut [u32],
    out: &mut [u32],
) -> Answer
    requires { 8 * admitted.ceiling ≤ length workspace.old }
    ensures { Answers (Calls.within (length out.old) (Check.stopped_after admitted.entry.ceiling k (parts admitted.entry))) out.old out.new result × Beyond 8 admitted.entry.ceiling workspace.old workspace.new }
{
    let mut entries = Entries::new(workspace, admitted.ceiling);
    if let Err(refused) = run(admitted.body, k, &mut entries) {
        return Err(admitted.in_text(refused));
    }
    let written = write_stack(&entries, out);
    stacked(entries.state.budget, written)
}

// Checks the shape of a symbol or of a type.
pub fn check(text: &[u8], what: Final, ceiling: usize, workspace: &mut [u32]) -> Answer
    ensures { (Enums.values result ≡ (check_whole what text.now ceiling (length workspace.old)).values) × Scratch 8 ceiling (Enums.values result).number workspace.old workspace.new }
{
    let admitted = admit(text, what, ceiling, NEED, workspace.len())?;
    check_admitted(admitted, what, workspace)
}

// Checks the shape of the first k operators of a symbol or of a type, and writes the entries of the
// stack to the front of out, three numbers each, the bottom first.
pub fn check_stopped(
    text: &[u8],
    what: Final,
    ceiling: usize,
    k: usize,
    workspace: &mut [u32],
    out: &mut [u32],
) -> Answer
    ensures { Answers (check_stopped what text.now ceiling k (length workspace.old) (length out.old)) out.old out.new result × Scratch 8 ceiling (Enums.values result).number workspace.old workspace.new }
{
    let admitted = admit(text, what, ceiling, NEED, workspace.len())?;
    check_stopped_admitted(admitted, k, workspace, out)
}

// Kept: the four functions below are the Rust module's own, with its names and its parameters. Each
// is one call of one of the two above, which users may call in their place.

// Checks the shape of a symbol.
#[tactic(auto, unfolding(definition::specs::Check::shape))]
pub fn shape(text: &[u8], ceiling: usize, workspace: &mut [u32]) -> Answer
    ensures { (Enums.values result ≡ (Check.shape text.now ceiling (length workspace.old)).values) × Scratch 8 ceiling (Enums.values result).number workspace.old workspace.new }
{
    check(text, Final::Symbol, ceiling, workspace)
}

// Checks the shape of a type.
#[tactic(auto, unfolding(definition::specs::Check::shape_type))]
pub fn shape_type(text: &[u8], ceiling: usize, workspace: &mut [u32]) -> Answer
    ensures { (Enums.values result ≡ (Check.shape_type text.now ceiling (length workspace.old)).values) × Scratch 8 ceiling (Enums.values result).number workspace.old workspace.new }
{
    check(text, Final::Type, ceiling, workspace)
}

// Checks the shape of the first k operators of a symbol.
#[tactic(auto, unfolding(definition::specs::Check::shape_stopped))]
pub fn shape_stopped(
    text: &[u8],
    ceiling: usize,
    k: usize,
    workspace: &mut [u32],
    out: &mut [u32],
) -> Answer
    ensures { Answers (Check.shape_stopped text.now ceiling k (length workspace.old) (length out.old)) out.old out.new result × Scratch 8 ceiling (Enums.values result).number workspace.old workspace.new }
{
    check_stopped(text, Final::Symbol, ceiling, k, workspace, out)
}

// Checks the shape of the first k operators of a type.
#[tactic(auto, unfolding(definition::specs::Check::shape_type_stopped))]
pub fn shape_type_stopped(
    text: &[u8],
    ceiling: usize,
    k: usize,
    workspace: &mut [u32],
    out: &mut [u32],
) -> Answer
    ensures { Answers (Check.shape_type_stopped text.now ceiling k (length workspace.old) (length out.old)) out.old out.new result × Scratch 8 ceiling (Enums.values result).number workspace.old workspace.new }
{
    check_stopped(text, Final::Type, ceiling, k, workspace, out)
}
