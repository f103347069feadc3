// The segments of a name, one after another, using the table of words.
ghost use Rattle.text_words.specs.Table.{Fitting};
ghost use Rattle.text_spelling.specs.Measures.{MeasuredIs};

use text_cursor::{Reader, is_lower, is_upper};
use text_words::Words;

// Reads a length above 0 and returns its bytes. One `_` may follow the length of a punycode name.
pub fn measured<'a>(text: &mut Reader<'a>, punycoded: bool) -> Option<&'a [u8]>
    ensures { MeasuredIs punycoded text.old text.new result }
{
    let Ok(n) = text.natural() else {
        return None;
    };
    if n == 0 {
        return None;
    }
    if punycoded {
        text.next_if(b'_');
    }
    text.take(n)
}

// What is left of a name: the text from the next segment on, whether word letters may follow, and
// whether the name is punycode.
// Kept: this is an iterator's state; both flags say what may follow, beside no value of their own.
#[derive(Clone, Copy)]
pub struct Segments<'a> {
    text: Reader<'a>,
    words: &'a Words,
    more: bool,
    punycoded: bool,
    ghost fits: { Fitting text.text.now words.now },
}

impl<'a> Segments<'a> {
    ghost use Rattle.std.specs.Prelude.{◌≡◌};
    ghost use Rattle.std.proofs.Math.ListN.{get_elem?};
    ghost use Rattle.definition.specs.Text.{natural};
    ghost use Rattle.text_cursor.specs.Reads.{rest};
    ghost use Rattle.text_words.specs.Table.{table};
    ghost use Rattle.text_spelling.specs.Segments as P;
    ghost use Rattle.text_spelling.specs.SegmentsRead.{Begun, SegmentIs, WordIs, LetterIs, coming};

    // The segments of the name at p, which follow its leading `0` or `00`.
    pub fn new(text: &'a [u8], p: usize, words: &'a Words) -> Segments<'a>
        requires { Fitting text.now words.now }
        ensures { Begun text.now words.now p result }
    {
        let mut text = Reader { text, at: p };
        if !text.next_if(b'0') {
            return Segments {
                text,
                words,
                more: false,
                punycoded: false,
            };
        }
        let punycoded = text.next_if(b'0');
        Segments {
            text,
            words,
            more: !punycoded,
            punycoded,
        }
    }

    // The word with number i.
    fn word(&self, i: usize) -> Option<&'a [u8]>
        ensures { WordIs (get_elem? (table self.now.text.text.now self.now.words.now) i) self.now.text.text.now result }
    {
        let span = self.words.get(i)?;
        Some(&self.text.text[span.from()..span.to()])
    }

    // Reads a length and returns its bytes. If no word letters may follow, the name ends with these
    // bytes: no text is left.
    fn counted(&mut self) -> Option<&'a [u8]>
        ensures { SegmentIs (P.of_length self.old.more self.old.punycoded (natural (rest self.old.text))) self.old self.new result }
    {
        let mut text = self.text;
        let bytes = measured(&mut text, self.punycoded)?;
        if !self.more {
            text.at = text.text.len();
        }
        self.text = text;
        Some(bytes)
    }

    // Takes the letter of a word, and returns the word's number. After a capital no further letter
    // may follow.
    fn letter(&mut self) -> Option<usize>
        ensures { LetterIs self.old self.new result }
    {
        if !self.more {
            return None;
        }
        let mut text = self.text;
        let b = text.next_if_any()?;
        if is_lower(b) {
            self.text = text;
            return Some(usize::from(b - b'a'));
        }
        if is_upper(b) {
            self.text = text;
            self.more = false;
            return Some(usize::from(b - b'A'));
        }
        None
    }

    // Returns the next segment: a word for a letter, or the bytes after a length, unless a `0` ends
    // the name.
    pub fn next(&mut self) -> Option<&'a [u8]>
        ensures { SegmentIs (coming self.old) self.old self.new result }
    {
        if let Some(i) = self.letter() {
            return self.word(i);
        }
        if self.text.next_if(b'0') {
            return None;
        }
        self.counted()
    }
}
