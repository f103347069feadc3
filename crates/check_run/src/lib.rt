// The shape check's run, one turn after another: whole, or stopped after k operators.
#![tactic(auto)]

ghost use Rattle.std.specs.Prelude.{◌≡◌, true, ◌*◌, ◌≤◌, length};
ghost use Rattle.definition.specs.Text as Text;
ghost use Rattle.check_run.specs.Meant.{meant};
ghost use Rattle.check_run.specs.Runs.{Ending};
ghost use Rattle.check_run.specs.Laws.{laws_met};

use check_entries::{Entries, State};
use definition::{Operator, Refusal, Refused};
use run::Machine;
use text_cursor::Reader;
use text_words::waiting::{Waiting, note_waiting};

// The check's machine, as a run has it: names are one entry each, and words are counted.
#[derive(Drop)]
pub struct Check<'b, 'a> {
    pub entries: &'b mut Entries<'a>,
}

impl Machine for Check<'_, '_> {
    ghost meaning = { meant };

    ghost laws = { laws_met };

    fn begin(&mut self) -> Result<(), Refusal> {
        self.entries.begin()
    }

    fn note(&mut self, text: &[u8], waiting: &Waiting) {
        note_waiting(text, waiting, &mut self.entries.state.words);
    }

    fn identifier(&mut self, text: &mut Reader) -> Result<(), Refusal> {
        let mut words = self.entries.state.words;
        text_identifiers::identifier_count(text, &mut words)?;
        check_perform::name(self.entries, words);
        Ok(())
    }

    fn literal(&mut self, text: &mut Reader) -> Result<usize, Refusal> {
        let bytes = text_identifiers::literal(text, false)?;
        let words = self.entries.state.words;
        check_perform::name(self.entries, words);
        Ok(bytes.from)
    }

    fn recall(&mut self, times: usize, index: usize) -> Result<(), Refusal> {
        check_perform::recall(self.entries, times, index)
    }

    fn perform(&mut self, op: Operator) -> Result<(), Refusal> {
        check_perform::perform(self.entries, op)
    }
}

// Performs k turns, or fewer if the body ends. It starts anew, whatever the entries are. The count
// of words in the final state says nothing. The place of a refusal is where the refused operator
// begins in the body.
pub fn run(body: &[u8], k: usize, entries: &mut Entries) -> Result<(), Refused>
    requires { (8 * entries.old.ceiling ≤ length entries.old.ws.now) × (entries.old.ceiling ≤ 65536) × (length body.now ≤ 65535) × (Text.well_formed body.now ≡ true) }
    ensures { Ending k body.now entries.old entries.new result }
{
    entries.state = State::new();
    run::run(body, k, &mut Check { entries })
}
