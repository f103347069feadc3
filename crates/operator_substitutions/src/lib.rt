// `A`: substitutions.
#![tactic(auto, unfolding(definition::specs::Text::opened, definition::specs::Enums::number, crate::specs::Chain::chain_from, crate::specs::Chain::item))]

ghost use Rattle.std.specs.Prelude.{◌≡◌, false, ℕ, ◌<◌};
ghost use Rattle.std.proofs.Math.Option.{Option};
ghost use Rattle.definition.specs.Base.{digit};
ghost use Rattle.definition.specs.Text as Text;
ghost use Rattle.text_cursor.specs.Reads.{rest};
ghost use Rattle.operator_substitutions.specs.Chain.{Same, times_of, past_of, chain_after, chain, Copied};

use definition::Refusal;
use text_cursor::Reader;

// The index of `_` without a count: that of the node after those which have a letter.
const PAST_LETTERS: usize = 26;

// An item after `A`: copies of a remembered node.
//
// Kept: a flag beside two numbers, since each item has all three: it is performed, and then the flag
// says whether another follows.
#[derive(Clone, Copy)]
pub struct Copies {
    pub times: usize,
    pub index: usize,
    // Whether no item follows.
    pub last: bool,
}

// Reads the letter of an item, after its repeat count. `times` is the number of copies, `past` the
// index of `_`.
fn item_letter(text: &mut Reader, times: usize, past: usize) -> Result<Copies, Refusal>
    requires { Text.peek digit (rest text.old) ≡ false }
    ensures { (repeat : Option ℕ) → times ≡ times_of repeat → Same past (past_of repeat) → 0 < times → Copied (chain_after repeat) text.old text.new result }
{
    let (times, index, last) = match text.next()? {
        b if b.is_ascii_lowercase() => (times, usize::from(b - b'a'), false),
        b if b.is_ascii_uppercase() => (times, usize::from(b - b'A'), true),
        b'_' => (1, past, true),
        _ => return Err(Refusal::Spelling),
    };
    Ok(Copies { times, index, last })
}

// Reads the next item after `A`. An index past 2^64 is past every node, so the largest index
// represents it.
pub fn substitution(text: &mut Reader) -> Result<Copies, Refusal>
    ensures { Copied chain text.old text.new result }
{
    if !text.peek_is_digit() {
        return item_letter(text, 1, PAST_LETTERS);
    }
    let n = text.natural()?;
    item_letter(text, n.max(1), n.saturating_add(PAST_LETTERS + 1))
}
