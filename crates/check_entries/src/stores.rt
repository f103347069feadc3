// Entries that are written to the workspace of the shape check: on the stack, remembered, and as
// copies.
ghost use Rattle.std.specs.Prelude.{◌+◌, ◌*◌, ◌≤◌, ◌<◌, length};
ghost use Rattle.check_entries.specs.Lies.{entry_of};
ghost use Rattle.definition.specs.Machine as M;
ghost use Rattle.definition.specs.Shape as C;
ghost use Rattle.check_entries.specs.Stores.{Storing, Performing, Did, Remembered};

use crate::{Entries, Entry};
use definition::Refusal;

impl Entries<'_> {
    fn store(&mut self, i: usize, e: Entry)
        requires { 3 * i + 3 ≤ length self.old.ws.now }
        ensures { Storing self.old self.new i e }
    {
        self.ws[3 * i] = e.kind;
        self.ws[3 * i + 1] = e.size;
        self.ws[3 * i + 2] = e.count;
    }

    // Pushes an entry.
    pub fn push(&mut self, e: Entry)
        requires { (8 * self.old.ceiling ≤ length self.old.ws.now) × (self.old.state.depth < self.old.ceiling) }
        ensures { Did (M.push (entry_of e)) self.old self.new }
    {
        self.store(self.state.depth, e);
        self.state.depth += 1;
    }

    // Remembers an entry.
    pub fn remember(&mut self, e: Entry)
        requires { (8 * self.old.ceiling ≤ length self.old.ws.now) × (self.old.state.seen < self.old.ceiling) × (self.old.state.depth ≤ self.old.ceiling) }
        ensures { Remembered (M.remember (entry_of e)) self.old self.new }
    {
        self.store(self.ceiling + self.state.seen, e);
        self.state.seen += 1;
    }

    // Pushes an entry that many times.
    fn push_copies(&mut self, times: usize, e: Entry)
        requires { (8 * self.old.ceiling ≤ length self.old.ws.now) × (self.old.state.depth + times ≤ self.old.ceiling) }
        ensures { Did (M.push_copies times (entry_of e)) self.old self.new }
    {
        for _ in 0..times {
            self.push(e);
        }
    }

    // Pushes that many copies of an entry, each charged its size.
    pub fn push_charged(&mut self, times: usize, e: Entry) -> Result<(), Refusal>
        requires { (8 * self.old.ceiling ≤ length self.old.ws.now) × (self.old.state.depth ≤ self.old.state.budget.total) × (1 ≤ e.size) }
        ensures { Performing (C.copied self.old.ceiling times (entry_of e)) self.old self.new result }
    {
        self.state.budget = self
            .state
            .budget
            .charge_copies(self.ceiling, e.size as usize, times)?;
        self.push_copies(times, e);
        Ok(())
    }
}
