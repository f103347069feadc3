// Identifiers, with what is known of the words as a table or as a count. The whole text is
// well-formed.
// Kept: that the whole text is well-formed, and has at most 65,535 bytes, stands in the contracts
// here. A reader for such texts would be a second `Reader` with each of its methods once more.
#![tactic(auto)]

ghost use Rattle.std.specs.Prelude.{◌≡◌, true, false, ℕ, List, ◌-◌, ◌≤◌, ◌<◌, length};
ghost use Rattle.definition.specs.Base.{Name};
ghost use Rattle.definition.specs.Text as Text;
ghost use Rattle.definition.specs.Words as W;
ghost use Rattle.definition.specs.Check as C;
ghost use Rattle.text_cursor.specs.Reads.{rest};
ghost use Rattle.text_words.specs.Table.{table, Fitting};
ghost use Rattle.text_identifiers.specs.Rounds.{closing, round, whole_slice, named, identifier_of};
ghost use Rattle.text_identifiers.specs.Identifiers.{NoZero, SpelledAs, Extends, Pieced, Finds, Identifies, Counted};

use definition::Refusal;
use text_cursor::{Reader, is_lower, is_upper};
use text_utf8::between_characters;
use text_words::{Known, Words, note};

// The result of word letters: whether the name is empty, and whether letters may follow.
// Kept: these are two answers, of which each occurs with each; an enum would have four cases.
#[derive(Clone, Copy)]
struct Letters {
    empty: bool,
    more: bool,
}

// The position of the bytes of a literal: text[from..to].
#[derive(Clone, Copy)]
pub struct Extent {
    pub from: usize,
    pub to: usize,
}

// The result of one round of an identifier: the closing `0`, with whether the name is empty; or a
// literal, with the letters before it.
#[derive(Clone, Copy)]
enum Piece {
    Closed(bool),
    Literal(Letters, Extent),
}

// Reads word letters: lower case letters, and a capital as the last. `first`: the name before them
// is empty.
fn word_letters(text: &mut Reader, known: usize, first: bool) -> Result<Letters, Refusal>
    ensures { SpelledAs (C.word_letters known first) text.old text.new result }
{
    let mut empty = first;
    // Kept: a byte that is no letter is not taken, so each turn looks first and then moves the place.
    while let Some(b) = text.peek() {
        if is_lower(b) {
            if known <= usize::from(b - b'a') {
                return Err(Refusal::Spelling);
            }
            text.at += 1;
            empty = false;
        } else if is_upper(b) {
            if known <= usize::from(b - b'A') {
                return Err(Refusal::Spelling);
            }
            text.at += 1;
            return Ok(Letters {
                empty: false,
                more: false,
            });
        } else {
            return Ok(Letters { empty, more: true });
        }
    }
    Ok(Letters { empty, more: true })
}

// Reads the next n bytes, if they exist and are well-formed.
fn bytes_of(text: &mut Reader, n: usize) -> Result<Extent, Refusal>
    requires { (0 < n) × (Text.well_formed text.old.text.now ≡ true) }
    ensures { Extends (whole_slice n) text.old text.new result }
{
    let from = text.at;
    let Some(_) = text.take(n) else {
        return Err(Refusal::Spelling);
    };
    if !between_characters(text.text, from, text.at) {
        return Err(Refusal::Spelling);
    }
    Ok(Extent { from, to: text.at })
}

// Reads a length and that many bytes.
pub fn literal(text: &mut Reader, punycoded: bool) -> Result<Extent, Refusal>
    requires { Text.well_formed text.old.text.now ≡ true }
    ensures { Extends (W.literal punycoded) text.old text.new result }
{
    let n = text.natural()?;
    if n == 0 {
        return Err(Refusal::Spelling);
    }
    if punycoded {
        text.next_if(b'_');
    }
    bytes_of(text, n)
}

// Reads the closing `0` or a literal.
fn close_or_take(text: &mut Reader, punycoded: bool, letters: Letters) -> Result<Piece, Refusal>
    requires { Text.well_formed text.old.text.now ≡ true }
    ensures { Pieced (closing punycoded letters.empty letters.more) text.old text.new result }
{
    if text.next_if(b'0') {
        return Ok(Piece::Closed(letters.empty));
    }
    let bytes = literal(text, punycoded)?;
    Ok(Piece::Literal(letters, bytes))
}

// Reads one round of an identifier, where `known` words are known.
fn round_of(
    text: &mut Reader,
    known: usize,
    subs: bool,
    punycoded: bool,
    empty: bool,
) -> Result<Piece, Refusal>
    requires { Text.well_formed text.old.text.now ≡ true }
    ensures { Pieced (round known subs punycoded empty) text.old text.new result }
{
    if !subs {
        return close_or_take(text, punycoded, Letters { empty, more: false });
    }
    let letters = word_letters(text, known, empty)?;
    close_or_take(text, punycoded, letters)
}

// Reads the rounds of an identifier, from the one at the place to the last. A punycode name has no
// words.
fn rounds_of<K: Known>(
    text: &mut Reader,
    known: &mut K,
    subs: bool,
    punycoded: bool,
) -> Result<(), Refusal>
    requires { (length text.old.text.now ≤ 65535) × (Text.well_formed text.old.text.now ≡ true) }
    ensures { (words : List Name) → K.stands text.old.text.now known.old words → (fuel : ℕ) → length text.old.text.now - text.old.at < fuel → Finds (K.stands text.old.text.now known.new) words (named length W.note_words fuel subs punycoded words true (rest text.old)) text.old text.new result }
{
    let mut more = subs;
    let mut empty = true;
    // Kept: each turn reads a round; no index is counted.
    loop {
        match round_of(text, known.count(), more, punycoded, empty)? {
            Piece::Closed(e) => {
                if e {
                    return Err(Refusal::Spelling);
                }
                return Ok(());
            }
            Piece::Literal(letters, bytes) => {
                if !punycoded {
                    note(text.text, bytes.from, bytes.to, known);
                }
                if !letters.more {
                    return Ok(());
                }
                more = true;
                empty = false;
            }
        }
    }
}

// Reads an identifier that does not begin with `0`: one literal.
fn plain<K: Known>(text: &mut Reader, known: &mut K) -> Result<(), Refusal>
    requires { (length text.old.text.now ≤ 65535) × NoZero text.old.text.now text.old.at × (Text.well_formed text.old.text.now ≡ true) }
    ensures { (words : List Name) → K.stands text.old.text.now known.old words → (fuel : ℕ) → length text.old.text.now - text.old.at < fuel → Finds (K.stands text.old.text.now known.new) words (named length W.note_words fuel false false words true (rest text.old)) text.old text.new result }
{
    let bytes = literal(text, false)?;
    note(text.text, bytes.from, bytes.to, known);
    Ok(())
}

// Reads an identifier. `00` before it marks punycode, `0` alone allows word letters.
fn read<K: Known>(text: &mut Reader, known: &mut K) -> Result<(), Refusal>
    requires { (length text.old.text.now ≤ 65535) × (Text.well_formed text.old.text.now ≡ true) }
    ensures { (words : List Name) → K.stands text.old.text.now known.old words → Finds (K.stands text.old.text.now known.new) words (identifier_of length W.note_words words (rest text.old)) text.old text.new result }
{
    if !text.next_if(b'0') {
        return plain(text, known);
    }
    let punycoded = text.next_if(b'0');
    rounds_of(text, known, !punycoded, punycoded)
}

// Reads an identifier, and notes its words.
pub fn identifier(text: &mut Reader, words: &mut Words) -> Result<(), Refusal>
    requires { (length text.old.text.now ≤ 65535) × Fitting text.old.text.now words.old × (Text.well_formed text.old.text.now ≡ true) }
    ensures { Identifies (W.identifier (table text.old.text.now words.old) (rest text.old)) text.old text.new words.old words.new result }
{
    read(text, words)
}

// Reads an identifier, and counts its words.
pub fn identifier_count(text: &mut Reader, count: &mut usize) -> Result<(), Refusal>
    requires { (length text.old.text.now ≤ 65535) × (Text.well_formed text.old.text.now ≡ true) }
    ensures { Counted (C.identifier count.old (rest text.old)) text.old text.new count.old count.new result }
{
    read(text, count)
}
