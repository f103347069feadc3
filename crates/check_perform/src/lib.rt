// The shape check's only interpreter, and what a row leaves.
#![tactic(auto)]

ghost use Rattle.std.specs.Prelude.{◌+◌, ◌≤◌, ◌<◌, ◌^◌, map};
ghost use Rattle.check_entries.specs.Lies.{entry_of};
ghost use Rattle.check_entries.specs.Means.{take_of};
ghost use Rattle.check_entries.specs.Stores.{Performing, Did};
ghost use Rattle.check_rows.specs.Table.{leaves_of, maybe};
ghost use Rattle.check_takes.specs.Taken.{taken_of};
ghost use Rattle.definition.specs.Check as Ch;
ghost use Rattle.definition.specs.Shape as C;
ghost use Rattle.check_perform.specs.Performs.{Light, ShortTakes, RowTaking, Owns, LeftBy, put, recall_copies, Puts, Roomy, Sound, Performs};

use check_entries::{Entries, Entry, Take};
use check_rows::{Row, row_of};
use check_takes::sums::Taken;
use check_takes::take_one;
use definition::{Operator, Refusal};
use machine::kinds::Kind;

// The interpreter

// Performs all takes of a row, and returns what was taken.
fn take_row(entries: &mut Entries, takes: &[Take]) -> Result<Taken, Refusal>
    requires room { Light entries.old }
    requires short { ShortTakes (map take_of takes.now) }
    ensures { RowTaking (map take_of takes.now) entries.old entries.new result }
{
    let mut taken = Taken::NOTHING;
    for take in takes {
        taken = take_one(entries, taken, *take)?;
    }
    Ok(taken)
}

// What is written

// Pushes an entry, either once and not charged, or that many copies of it.
fn put_on(entries: &mut Entries, copies: Option<usize>, e: Entry) -> Result<(), Refusal>
    requires { Puts entries.old × (1 ≤ e.size) }
    ensures { Performing (put entries.old.ceiling (maybe copies) (entry_of e)) entries.old entries.new result }
{
    match copies {
        None => {
            entries.push(e);
            Ok(())
        }
        Some(times) => entries.push_charged(times, e),
    }
}

// Returns the entry that a row leaves.
fn left_by(row: &Row, taken: Taken) -> Entry
    requires { Owns row.now × (taken.size ≤ 2 ^ 21) × (taken.count < 2 ^ 32) }
    ensures { LeftBy row.now taken result }
{
    Entry {
        kind: row.kind as u32,
        size: row.own + taken.size as u32,
        count: if row.counted { taken.count as u32 } else { 0 },
    }
}

// Pushes what a row leaves.
fn leave(entries: &mut Entries, row: &Row, taken: Taken) -> Result<(), Refusal>
    requires { Roomy entries.old × Owns row.now × (taken.size ≤ 2 ^ 21) × (taken.count < 2 ^ 32) }
    ensures { Performing (C.leave entries.old.ceiling (leaves_of row.now) (taken_of taken)) entries.old entries.new result }
{
    let e = left_by(row, taken);
    if row.remembered {
        entries.remember(e);
    }
    put_on(entries, row.copies, e)
}

// Performs one operator of the check, other than `A`.
pub fn perform(entries: &mut Entries, op: Operator) -> Result<(), Refusal>
    requires { Sound 1 entries.old }
    ensures { Performs op entries.old entries.new result }
{
    let row = row_of(op);
    let taken = take_row(entries, row.takes)?;
    leave(entries, &row, taken)
}

// A name: it is remembered and pushed. `words` is then the number of known words.
pub fn name(entries: &mut Entries, words: usize)
    requires { Sound 1 entries.old }
    ensures { Did (Ch.name entries.old.ceiling words) entries.old entries.new }
{
    let e = Entry::new(Kind::Identifier, 1);
    entries.state.words = words;
    entries.remember(e);
    entries.push(e);
}

// A letter of `A`: pushes that many copies of a remembered entry, which is given by its index.
pub fn recall(entries: &mut Entries, times: usize, index: usize) -> Result<(), Refusal>
    requires { Sound 0 entries.old }
    ensures { Performing (recall_copies entries.old.ceiling times index) entries.old entries.new result }
{
    if entries.state.seen <= index {
        return Err(Refusal::Spelling);
    }
    let place = entries.ceiling + index;
    let e = entries.entry_at(place);
    entries.push_charged(times, e)
}
