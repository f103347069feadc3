// The reading's run, one turn after another: whole, or stopped after k operators.
#![tactic(auto)]

// One operator by its letters.
pub mod perform;

ghost use Rattle.std.specs.Prelude.{◌≡◌, [], ◌∷◌, true, ◌*◌, ◌≤◌, ◌<◌, length};
ghost use Rattle.definition.specs.Text as Text;
ghost use Rattle.tree_records.specs.Holds.{Inside};
ghost use Rattle.tree_records.specs.Trees.{Stays};
ghost use Rattle.tree_nodes.specs.Gives.{Kept};
ghost use Rattle.tree_run.specs.Beginnings.{Begins};
ghost use Rattle.tree_run.specs.Meant.{meant};
ghost use Rattle.tree_run.specs.Laws.{laws_met};
ghost use Rattle.tree_run.specs.Runs.{Ending};

use definition::{Operator, Refusal, Refused};
use machine::kinds::Kind;
use run::Machine;
use text_cursor::Reader;
use text_words::Words;
use text_words::waiting::{Waiting, note_waiting};
use tree_nodes::leave::push_kept;
use tree_records::{Record, State, Trees};

// The reading's machine, as a run has it: the trees, and the words that names are spelled with.
#[derive(Drop)]
pub struct Reading<'b, 'a> {
    pub trees: &'b mut Trees<'a>,
    pub words: Words,
}

// Begins a turn: counts a step, and charges 1. Nothing else of the trees changes.
fn begin_turn(trees: &mut Trees) -> Result<(), Refusal>
    ensures { Begins trees.old trees.new result }
{
    trees.state.budget = trees.state.budget.step()?.charge(trees.n, 1)?;
    Ok(())
}

// Makes a node of the identifier that begins at a place of the text, pushes it and remembers it.
fn push_name(trees: &mut Trees, at: usize)
    requires { Inside trees.old.ws.now trees.old.n trees.old.state 5 1 1 × (at < 65536) }
    ensures stays { Stays trees.old trees.new }
    ensures kept { Kept trees.old.ws.now trees.new.ws.now trees.old.n trees.old.state trees.new.state (0 ∷ 1 ∷ 0 ∷ at ∷ 0 ∷ 0 ∷ 0 ∷ 0 ∷ []) }
{
    push_kept(
        trees,
        Record {
            kind: Kind::Identifier,
            size: 1,
            a: at as u32,
            ..Record::ZERO
        },
    );
}

impl Machine for Reading<'_, '_> {
    ghost meaning = { meant };

    ghost laws = { laws_met };

    fn begin(&mut self) -> Result<(), Refusal> {
        begin_turn(self.trees)
    }

    fn note(&mut self, text: &[u8], waiting: &Waiting) {
        note_waiting(text, waiting, &mut self.words);
    }

    fn identifier(&mut self, text: &mut Reader) -> Result<(), Refusal> {
        let at = text.at;
        text_identifiers::identifier(text, &mut self.words)?;
        push_name(self.trees, at);
        Ok(())
    }

    fn literal(&mut self, text: &mut Reader) -> Result<usize, Refusal> {
        let at = text.at;
        let bytes = text_identifiers::literal(text, false)?;
        push_name(self.trees, at);
        Ok(bytes.from)
    }

    fn recall(&mut self, times: usize, index: usize) -> Result<(), Refusal> {
        tree_copies::recall(self.trees, times, index)
    }

    fn perform(&mut self, op: Operator) -> Result<(), Refusal> {
        crate::perform::perform(self.trees, op)
    }
}

// Performs k turns, or fewer if the body ends. It starts anew, whatever the trees and the words are;
// the words after it are those that names are spelled with. The place of a refusal is where the
// refused operator begins in the body.
pub fn run(body: &[u8], k: usize, trees: &mut Trees, words: &mut Words) -> Result<(), Refused>
    requires { (64 * trees.old.n ≤ length trees.old.ws.now) × (trees.old.n ≤ 65536) × (length body.now ≤ 65535) × (Text.well_formed body.now ≡ true) }
    ensures { Ending k body.now trees.old trees.new words.new result }
{
    trees.state = State::new();
    let mut reading = Reading {
        trees,
        words: Words::new(),
    };
    let ended = run::run(body, k, &mut reading);
    *words = reading.words;
    ended
}
