// The table of the words that later identifiers use again.
#![tactic(auto)]

// Parts of a text, kept in a row.
pub mod spans;
// Literals whose words are not noted yet.
pub mod waiting;

ghost use Rattle.std.specs.Prelude.{◌≡◌, ◌&&◌, leb, ltb, ◌+◌, ◌≤◌, ◌<◌, List, length, slice_set, MatchOption};
ghost use Rattle.definition.specs.Base.{Name};
ghost use Rattle.definition.specs.Text.{Text};
ghost use Rattle.definition.specs.Words as W;
ghost use Rattle.text_words.specs.Table.{part, span_at, spanned, spans_of, Lists, Turns};

use crate::spans::Span;
use text_cursor::{is_digit, is_upper};

const MOST_WORDS: usize = 26;

const SHORTEST_WORD: u16 = 2;

// The words, of which at most 26 are kept: where each starts in the text, and how long it is.
// Kept: there is no heap, so they are in arrays of fixed size.
#[derive(Clone, Copy)]
pub struct Words {
    starts: [u16; MOST_WORDS],
    lengths: [u16; MOST_WORDS],
    count: usize,
}

impl Words {
    pub fn new() -> Words
        ensures { result.count ≡ 0 }
    {
        Words {
            starts: [0; MOST_WORDS],
            lengths: [0; MOST_WORDS],
            count: 0,
        }
    }

    pub fn len(&self) -> usize
        ensures { result ≡ self.now.count }
    {
        self.count
    }

    // Appends a word.
    pub fn push(&mut self, word: Span)
        requires { self.old.count < W.most_words }
        ensures { (self.new.count ≡ self.old.count + 1) × (spans_of self.new ≡ slice_set (spans_of self.old) self.old.count word) }
    {
        self.starts[self.count] = word.start;
        self.lengths[self.count] = word.length;
        self.count += 1;
    }

    // Returns the word with number i.
    pub fn get(&self, i: usize) -> Option<Span>
        requires { self.now.count ≤ W.most_words }
        ensures { MatchOption result (self.now.count ≤ i) (λ s. (i < self.now.count) × (s ≡ span_at (spans_of self.now) i)) }
    {
        if self.count <= i {
            return None;
        }
        Some(Span {
            start: self.starts[i],
            length: self.lengths[i],
        })
    }
}

// What is known of the words of a text: the words, or their number.
pub trait Known {
    // These are the words.
    ghost stands: { Text → Self → List Name → Type 0 };

    // Returns how many words are known.
    fn count(&self) -> usize
        ensures { (text : Text) (words : List Name) → stands text self.now words → result ≡ length words };

    // Keeps a word, if it has 2 bytes or more and there is room.
    fn keep(&mut self, word: Span)
        ensures { (text : Text) (words : List Name) → word.start + word.length ≤ length text → stands text self.old words → stands text self.new (W.keep (spanned text word) words) };
}

// Whether one more word is kept.
fn is_kept(count: usize, word: Span) -> bool
    ensures { result ≡ (leb 2 word.length && ltb count 26) }
{
    SHORTEST_WORD <= word.length && count < MOST_WORDS
}

impl Known for Words {
    ghost stands = { Lists };

    fn count(&self) -> usize {
        self.len()
    }

    fn keep(&mut self, word: Span) {
        if is_kept(self.len(), word) {
            self.push(word);
        }
    }
}

impl Known for usize {
    ghost stands = { λ text n words. n ≡ length words };

    fn count(&self) -> usize {
        *self
    }

    fn keep(&mut self, word: Span) {
        if is_kept(*self, word) {
            *self += 1;
        }
    }
}

// Whether a word starts at b.
fn starts_word(b: u8) -> bool
    ensures { result ≡ W.starts b }
{
    !is_digit(b) && b != b'_'
}

// Where the next word begins, if the byte b at a place ends the open one, which begins at `start`:
// `_` ends it, a capital after another byte begins the next, and no word begins with a digit.
// Before b is the byte `previous`.
fn next_word(start: usize, at: usize, previous: u8, b: u8) -> Option<usize>
    requires { (start ≤ at) × (at < 65535) }
    ensures { Turns start at previous b result }
{
    if start == at {
        return if starts_word(b) { None } else { Some(at + 1) };
    }
    // neither a capital nor `_`: most bytes
    if b'_' < b {
        return None;
    }
    if b == b'_' {
        return Some(at + 1);
    }
    if !is_upper(previous) && is_upper(b) {
        return Some(at);
    }
    None
}

// Notes the words of text[from..to].
// Kept: the part goes by its ends, as a literal has them, and not as a `Span`, which the caller
// would have to make and this function to take apart.
pub fn note<K: Known>(text: &[u8], from: usize, to: usize, known: &mut K)
    requires { (from ≤ to) × (to ≤ length text.now) × (length text.now ≤ 65535) }
    ensures { (words : List Name) → K.stands text.now known.old words → K.stands text.now known.new (W.note_words (part text.now from to) words) }
{
    let mut start = from;
    let mut previous = 0;
    for at in from..to {
        let b = text[at];
        if let Some(next) = next_word(start, at, previous, b) {
            known.keep(Span::new(start, at));
            start = next;
        }
        previous = b;
    }
    known.keep(Span::new(start, to));
}
