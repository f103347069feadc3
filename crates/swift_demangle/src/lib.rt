// The calls of the reading for users: a symbol or a type, whole or stopped after k operators. They
// have no `requires`: every text, ceiling, k and slice is answered as the definition answers it.
#![tactic(auto)]

// The reading of a part of a text.
pub mod body;

ghost use Rattle.std.specs.Prelude.{◌*◌, ◌≤◌, length};
ghost use Rattle.definition.specs.Calls as Calls;
ghost use Rattle.definition.specs.Reading as Reading;
ghost use Rattle.definition.specs.Enums as Enums;
ghost use Rattle.machine.specs.Beyond.{Beyond};
ghost use Rattle.machine.specs.RunEnds.{kinds_of};
ghost use Rattle.call_admission.specs.Admits.{parts};
ghost use Rattle.call_endings.specs.Answers.{Answers};
ghost use Rattle.call_endings.specs.Workspace.{Scratch};
ghost use Rattle.swift_demangle.specs.Body.{Held, Finishes};
ghost use Rattle.swift_demangle.specs.Calls.{read_whole, read_stopped};

use call_admission::admit;
use call_admission::admitted::Admitted;
use call_endings::{measured, stacked};
use definition::{Answer, Refusal};
use machine::budget::Budget;
use machine::runs::Final;
use print_names::Source;
use print_tree::render;
use text_words::Words;
use tree_ends::{single, write_stack};
use tree_records::Trees;
use tree_run::run;

// How many numbers of workspace each node needs.
const NEED: usize = 64;

// Writes the text of the only tree that is left, with the suffix. Refusal 11: there is not exactly
// one tree, or its kind is not accepted.
fn finish(trees: &Trees, words: &Words, what: Final, admitted: Admitted, out: &mut [u8]) -> Answer
    requires { Held admitted.body.now words.now trees.now.ws.now trees.now.n trees.now.state }
    ensures { Finishes what (parts admitted.entry) words.now trees.now.ws.now trees.now.n trees.now.state out.old out.new result }
{
    let Some(place) = single(trees, what) else {
        return Err(admitted.at_end(Refusal::Leftover));
    };
    let from = Source {
        text: admitted.body,
        words,
        ws: trees.ws,
    };
    let room = out.len();
    let n = render(out, &from, place, admitted.suffix);
    measured(trees.state.budget, n, room)
}

// Reads all of the body, and writes its text to the front of out.
fn read_admitted(admitted: Admitted, what: Final, workspace: &mut [u32], out: &mut [u8]) -> Answer
    requires { 64 * admitted.ceiling ≤ length workspace.old }
    ensures { Answers (Calls.within (length out.old) (Reading.whole admitted.entry.ceiling (kinds_of what) (parts admitted.entry))) out.old out.new result × Beyond 64 admitted.entry.ceiling workspace.old workspace.new }
{
    let mut trees = Trees::new(workspace, admitted.ceiling);
    let mut words = Words::new();
    if let Err(refused) = run(admitted.body, Budget::ALL_TURNS, &mut trees, &mut words) {
        return Err(admitted.in_text(refused));
    }
    finish(&trees, &words, what, admitted, out)
}

// Reads the first k operators of the body, and writes the entries of the stack.
fn read_stopped_admitted(
    admitted: Admitted,
    k: usize,
    workspace: &mut [u32],
    out: &mut [u32],
) -> Answer
    requires { 64 * admitted.ceiling ≤ length workspace.old }
    ensures { Answers (Calls.within (length out.old) (Reading.stopped_after admitted.entry.ceiling k (parts admitted.entry))) out.old out.new result × Beyond 64 admitted.entry.ceiling workspace.old workspace.new }
{
    let mut trees = Trees::new(workspace, admitted.ceiling);
    if let Err(refused) = run(admitted.body, k, &mut trees, &mut Words::new()) {
        return Err(admitted.in_text(refused));
    }
    let written = write_stack(&trees, out);
    stacked(trees.state.budget, written)
}

// Reads a symbol or a type, and writes its text to the front of out.
pub fn read(
    text: &[u8],
    what: Final,
    ceiling: usize,
    workspace: &mut [u32],
    out: &mut [u8],
) -> Answer
    ensures { Answers (read_whole what text.now ceiling (length workspace.old) (length out.old)) out.old out.new result × Scratch 64 ceiling (Enums.values result).number workspace.old workspace.new }
{
    let admitted = admit(text, what, ceiling, NEED, workspace.len())?;
    read_admitted(admitted, what, workspace, out)
}

// Reads the first k operators of a symbol or of a type, and writes the entries of the stack to the
// front of out, three numbers each, the bottom first.
pub fn read_stopped(
    text: &[u8],
    what: Final,
    ceiling: usize,
    k: usize,
    workspace: &mut [u32],
    out: &mut [u32],
) -> Answer
    ensures { Answers (read_stopped what text.now ceiling k (length workspace.old) (length out.old)) out.old out.new result × Scratch 64 ceiling (Enums.values result).number workspace.old workspace.new }
{
    let admitted = admit(text, what, ceiling, NEED, workspace.len())?;
    read_stopped_admitted(admitted, k, workspace, out)
}

// Kept: the four functions below are the Rust module's own, with its names and its parameters. Each
// is one call of one of the two above, which users may call in their place.

// Reads a symbol.
#[tactic(auto, unfolding(definition::specs::Reading::demangle, definition::specs::Reading::read))]
pub fn demangle(text: &[u8], ceiling: usize, workspace: &mut [u32], out: &mut [u8]) -> Answer
    ensures { Answers (Reading.demangle text.now ceiling (length workspace.old) (length out.old)) out.old out.new result × Scratch 64 ceiling (Enums.values result).number workspace.old workspace.new }
{
    read(text, Final::Symbol, ceiling, workspace, out)
}

// Reads a type.
#[tactic(auto, unfolding(definition::specs::Reading::demangle_type, definition::specs::Reading::read_type))]
pub fn demangle_type(text: &[u8], ceiling: usize, workspace: &mut [u32], out: &mut [u8]) -> Answer
    ensures { Answers (Reading.demangle_type text.now ceiling (length workspace.old) (length out.old)) out.old out.new result × Scratch 64 ceiling (Enums.values result).number workspace.old workspace.new }
{
    read(text, Final::Type, ceiling, workspace, out)
}

// Reads the first k operators of a symbol.
#[tactic(auto, unfolding(definition::specs::Reading::demangle_stopped, definition::specs::Reading::read_stopped))]
pub fn demangle_stopped(
    text: &[u8],
    ceiling: usize,
    k: usize,
    workspace: &mut [u32],
    out: &mut [u32],
) -> Answer
    ensures { Answers (Reading.demangle_stopped text.now ceiling k (length workspace.old) (length out.old)) out.old out.new result × Scratch 64 ceiling (Enums.values result).number workspace.old workspace.new }
{
    read_stopped(text, Final::Symbol, ceiling, k, workspace, out)
}

// Reads the first k operators of a type.
#[tactic(auto, unfolding(definition::specs::Reading::demangle_type_stopped, definition::specs::Reading::read_type_stopped))]
pub fn demangle_type_stopped(
    text: &[u8],
    ceiling: usize,
    k: usize,
    workspace: &mut [u32],
    out: &mut [u32],
) -> Answer
    ensures { Answers (Reading.demangle_type_stopped text.now ceiling k (length workspace.old) (length out.old)) out.old out.new result × Scratch 64 ceiling (Enums.values result).number workspace.old workspace.new }
{
    read_stopped(text, Final::Type, ceiling, k, workspace, out)
}
