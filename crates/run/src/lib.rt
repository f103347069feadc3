// The run that reading and check share, one turn after another: whole, or stopped after k
// operators. It works on a machine, which is a type parameter.
#![tactic(auto)]

ghost use Rattle.std.specs.Prelude.{◌≡◌, true, false, ◌≤◌, ◌<◌, length, get_or};
ghost use Rattle.definition.specs.Base.{is, digit};
ghost use Rattle.definition.specs.Enums as Enums;
ghost use Rattle.definition.specs.Text as Text;
ghost use Rattle.operator_names.specs.Fixed.{fixed};
ghost use Rattle.text_cursor.specs.Reads.{rest};
ghost use Rattle.text_words.specs.Waits.{Waits};
ghost use Rattle.run.specs.Meaning.{Meaning, Knowing, ReadyAtName, begun, recalled, Steps, Notes, Naming, PlainNaming, Laws};
ghost use Rattle.run.specs.Turns.{chained, turn_at, Letters, Turning, NameTurning, Stepping, Starts, Ending};

use definition::{Operator, Refusal, Refused};
use operator_letters::other_operator;
use operator_substitutions::substitution;
use text_cursor::Reader;
use text_words::waiting::{Waiting, wait};

// A machine that operators are performed on.
//
// Kept: the reading and the check each have these methods, and others of the same name or shape
// below them (`push_copies`, `wrap`, `single`, `write_stack`). One makes records of 8 numbers that
// are children of others, the other keeps 3 numbers of an entry in place. `wrap` and `begin` only
// hand the budget on, and what they share is `Budget`.
pub trait Machine {
    // what it is in the definition
    ghost meaning: { Meaning Self };

    // Begins a turn: counts a step, and charges 1.
    fn begin(&mut self) -> Result<(), Refusal>
        ensures { Steps meaning (begun meaning (meaning.ceiling self.old)) 0 1 self.old self.new result };

    // Notes the words of the literals that wait.
    fn note(&mut self, text: &[u8], waiting: &Waiting)
        requires { (length text.now ≤ 65535) × Waits text.now waiting.now }
        ensures { Notes meaning text.now waiting.now self.old self.new };

    // Reads an identifier, notes its words, and performs it as a name.
    fn identifier(&mut self, text: &mut Reader) -> Result<(), Refusal>
        requires { ReadyAtName meaning 1 text.old self.old × (length text.old.text.now ≤ 65535) × Knowing meaning text.old.text.now self.old }
        ensures { Naming meaning (meaning.one (meaning.ceiling self.old) (rest text.old)) 1 text.old text.new self.old self.new result };

    // Reads an identifier of one literal, whose words are not noted, and performs it as a name.
    // Returns where the literal begins; it ends at the reader's new place.
    fn literal(&mut self, text: &mut Reader) -> Result<usize, Refusal>
        requires { ReadyAtName meaning 1 text.old self.old × meaning.begins_at text.old.at × (is "0" (get_or text.old.text.now text.old.at 0) ≡ false) }
        ensures { PlainNaming meaning (meaning.one (meaning.ceiling self.old) (rest text.old)) 1 text.old text.new self.old self.new result };

    // Pushes that many copies of what is remembered at an index.
    fn recall(&mut self, times: usize, index: usize) -> Result<(), Refusal>
        requires { meaning.ready 0 self.old }
        ensures { Steps meaning (recalled meaning (meaning.ceiling self.old) times index) 0 0 self.old self.new result };

    // Performs an operator that is no name and not `A`.
    fn perform(&mut self, op: Operator) -> Result<(), Refusal>
        requires { meaning.ready 1 self.old }
        ensures { Steps meaning (meaning.performs (meaning.ceiling self.old) (Enums.operator fixed op)) 1 0 self.old self.new result };

    ghost laws: { Laws meaning };
}

// Performs the next item after `A`: pushes that many copies of what is remembered at its index.
// Returns whether it was the last.
fn item<M: Machine>(text: &mut Reader, machine: &mut M) -> Result<bool, Refusal>
    requires { M.meaning.ready 0 machine.old }
    ensures { Letters M.meaning text.old text.new machine.old machine.new result }
{
    let copies = substitution(text)?;
    machine.recall(copies.times, copies.index)?;
    Ok(copies.last)
}

// Performs `A`, from the place after it: its items one by one.
fn substitutions<M: Machine>(text: &mut Reader, machine: &mut M) -> Result<(), Refusal>
    requires { M.meaning.ready 0 machine.old }
    ensures { Turning M.meaning (chained M.meaning (M.meaning.ceiling machine.old) (rest text.old)) 0 text.old text.new machine.old machine.new result }
{
    // Kept: an item says itself whether it was the last, and is read and performed in one.
    loop {
        if item(text, machine)? {
            return Ok(());
        }
    }
}

// Reads and performs the operator at the reader's place, where the byte is not a digit.
fn operated<M: Machine>(text: &mut Reader, machine: &mut M) -> Result<(), Refusal>
    requires { M.meaning.ready 1 machine.old × (text.old.at < length text.old.text.now) × (digit (get_or text.old.text.now text.old.at 0) ≡ false) }
    ensures { Turning M.meaning (M.meaning.one (M.meaning.ceiling machine.old) (rest text.old)) 1 text.old text.new machine.old machine.new result }
{
    if text.next_if(b'A') {
        return substitutions(text, machine);
    }
    let op = other_operator(text)?;
    machine.perform(op)
}

// Performs one turn where the byte at the reader's place is not a digit.
pub fn turn<M: Machine>(text: &mut Reader, machine: &mut M) -> Result<(), Refusal>
    requires { M.meaning.ready 0 machine.old × (text.old.at < length text.old.text.now) × (digit (get_or text.old.text.now text.old.at 0) ≡ false) }
    ensures { Turning M.meaning (turn_at M.meaning text.old machine.old) 0 text.old text.new machine.old machine.new result }
{
    machine.begin()?;
    operated(text, machine)
}

// Performs one turn where the byte at the reader's place is a digit: a name, before which the words
// of the literals that wait are noted.
pub fn name_turn<M: Machine>(
    text: &mut Reader,
    waiting: &mut Waiting,
    machine: &mut M,
) -> Result<(), Refusal>
    requires { ReadyAtName M.meaning 0 text.old machine.old × (length text.old.text.now ≤ 65535) × Knowing M.meaning text.old.text.now machine.old × Waits text.old.text.now waiting.old }
    ensures { NameTurning M.meaning text.old text.new waiting.old waiting.new machine.old machine.new result }
{
    machine.begin()?;
    machine.note(text.text, waiting);
    *waiting = Waiting::new();
    machine.identifier(text)
}

// Performs one turn where the byte at the reader's place is a digit other than `0`: a name of one
// literal, whose words are not noted. Returns where the literal begins.
pub fn plain_turn<M: Machine>(text: &mut Reader, machine: &mut M) -> Result<usize, Refusal>
    requires { ReadyAtName M.meaning 0 text.old machine.old × M.meaning.begins_at text.old.at × (is "0" (get_or text.old.text.now text.old.at 0) ≡ false) }
    ensures { PlainNaming M.meaning (turn_at M.meaning text.old machine.old) 0 text.old text.new machine.old machine.new result }
{
    machine.begin()?;
    machine.literal(text)
}

// Performs one turn, and keeps the literal that it reads for later. The words of literals are noted
// only before an identifier that begins with `0`, or when 16 literals are waiting.
pub fn step<M: Machine>(
    text: &mut Reader,
    waiting: &mut Waiting,
    machine: &mut M,
) -> Result<(), Refusal>
    requires { M.meaning.ready 0 machine.old × (text.old.at < length text.old.text.now) × (length text.old.text.now ≤ 65535) × (Text.well_formed text.old.text.now ≡ true) × Knowing M.meaning text.old.text.now machine.old × Waits text.old.text.now waiting.old }
    ensures { Stepping M.meaning text.old text.new waiting.old waiting.new machine.old machine.new result }
{
    let b = text.text[text.at];
    if !b.is_ascii_digit() {
        return turn(text, machine);
    }
    if b == b'0' || waiting.len() == 16 {
        return name_turn(text, waiting, machine);
    }
    let from = plain_turn(text, machine)?;
    wait(waiting, from, text.at);
    Ok(())
}

// Performs k turns, or fewer if the body ends. The place of a refusal is where the refused operator
// begins in the body.
pub fn run<M: Machine>(body: &[u8], k: usize, machine: &mut M) -> Result<(), Refused>
    requires { Starts M.meaning body.now machine.old × (length body.now ≤ 65535) × (Text.well_formed body.now ≡ true) }
    ensures { Ending M.meaning k body.now machine.old machine.new result }
{
    let mut text = Reader { text: body, at: 0 };
    let mut waiting = Waiting::new();
    for _ in 0..k {
        let place = text.at;
        if body.len() <= place {
            return Ok(());
        }
        if let Err(refusal) = step(&mut text, &mut waiting, machine) {
            return Err(Refused { refusal, place });
        }
    }
    Ok(())
}
