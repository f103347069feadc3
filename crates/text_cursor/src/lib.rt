// A text that is read from a place on: bytes, numbers and indices.
#![tactic(auto, unfolding(definition::specs::Text::opened, definition::specs::Enums::number))]

// Bytes that are tested eight at a time.
pub mod scan;

ghost use Rattle.std.specs.Prelude.{◌≡◌, ℕ, ◌+◌, ◌≤◌, ◌<◌, eqb, length, drop};
ghost use Rattle.definition.specs.Base.{digit, lower, upper};
ghost use Rattle.definition.specs.Text as Text;
ghost use Rattle.text_cursor.specs.Reads.{rest, Peeks, ReadsNumber, ReadsParam, Takes, TakesByte, TakesDigit, TakesPart};

use definition::{Param, Refusal};

// Whether b is an ASCII digit.
pub fn is_digit(b: u8) -> bool
    ensures { result ≡ digit b }
{
    b.is_ascii_digit()
}

// Whether b is one of `a` to `z`.
pub fn is_lower(b: u8) -> bool
    ensures { result ≡ lower b }
{
    b.is_ascii_lowercase()
}

// Whether b is one of `A` to `Z`.
pub fn is_upper(b: u8) -> bool
    ensures { result ≡ upper b }
{
    b.is_ascii_uppercase()
}

// A text and a place in it.
#[derive(Clone, Copy)]
pub struct Reader<'a> {
    pub text: &'a [u8],
    pub at: usize,
}

impl<'a> Reader<'a> {
    // The byte at the place, if the text has not ended.
    pub fn peek(&self) -> Option<u8>
        ensures { Peeks self.now result }
    {
        self.text.get(self.at).copied()
    }

    // Whether the byte at the place is a digit.
    pub fn peek_is_digit(&self) -> bool
        ensures { result ≡ Text.peek digit (rest self.now) }
    {
        self.peek().is_some_and(|b| b.is_ascii_digit())
    }

    // Takes the byte at the place, if the text has not ended.
    pub fn next_if_any(&mut self) -> Option<u8>
        ensures { TakesByte self.old self.new result }
    {
        let b = self.peek()?;
        self.at += 1;
        Some(b)
    }

    // Reads the byte at the place.
    pub fn next(&mut self) -> Result<u8, Refusal>
        ensures { ReadsNumber Text.next self.old self.new result }
    {
        self.next_if_any().ok_or(Refusal::Spelling)
    }

    // Takes the byte at the place if it is b.
    pub fn next_if(&mut self, b: u8) -> bool
        ensures { Takes (Text.next_if (λ x. eqb x b)) self.old self.new result }
    {
        if self.peek() != Some(b) {
            return false;
        }
        self.at += 1;
        true
    }

    // Takes the next n bytes, if the text has so many.
    pub fn take(&mut self, n: usize) -> Option<&'a [u8]>
        ensures { TakesPart n self.old self.new result }
    {
        let end = self.at.checked_add(n)?;
        let bytes = self.text.get(self.at..end)?;
        self.at = end;
        Some(bytes)
    }

    // Takes the byte at the place if it is a digit, and returns its value.
    fn digit(&mut self) -> Option<usize>
        ensures { TakesDigit self.old self.new result }
    {
        let b = self.peek().filter(|b| b.is_ascii_digit())?;
        self.at += 1;
        Some(usize::from(b - b'0'))
    }

    // Reads one digit or more, with a value below 2^64.
    pub fn natural(&mut self) -> Result<usize, Refusal>
        ensures { ReadsNumber Text.natural self.old self.new result }
    {
        let mut value = self.digit().ok_or(Refusal::Spelling)?;
        // Kept: each turn takes a digit from the reader; no index is counted.
        while let Some(d) = self.digit() {
            let tens = value.checked_mul(10).ok_or(Refusal::Spelling)?;
            value = tens.checked_add(d).ok_or(Refusal::Spelling)?;
        }
        Ok(value)
    }

    // Reads an index. `_` is 0; n followed by `_` is n + 1.
    pub fn index(&mut self) -> Result<usize, Refusal>
        ensures { ReadsNumber Text.index self.old self.new result }
    {
        if self.next_if(b'_') {
            return Ok(0);
        }
        let n = self.natural()?;
        if !self.next_if(b'_') {
            return Err(Refusal::Spelling);
        }
        n.checked_add(1).ok_or(Refusal::Spelling)
    }

    // Reads an index, and returns it plus 1.
    pub fn index_plus_one(&mut self) -> Result<usize, Refusal>
        ensures { ReadsNumber Text.index_plus_one self.old self.new result }
    {
        self.index()?.checked_add(1).ok_or(Refusal::Spelling)
    }

    // Reads the depth and the index of a generic parameter, after `d`.
    pub fn depth_and_index(&mut self) -> Result<Param, Refusal>
        ensures { ReadsParam Text.depth_and_index self.old self.new result }
    {
        let depth = self.index_plus_one()?;
        let index = self.index()?;
        Ok(Param { depth, index })
    }

    // Reads a generic parameter. `z` is the first, `d` precedes a depth, an index alone is at depth
    // 0.
    pub fn generic_param_index(&mut self) -> Result<Param, Refusal>
        ensures { ReadsParam Text.generic_param_index self.old self.new result }
    {
        if self.next_if(b'd') {
            return self.depth_and_index();
        }
        if self.next_if(b'z') {
            return Ok(Param { depth: 0, index: 0 });
        }
        let index = self.index_plus_one()?;
        Ok(Param { depth: 0, index })
    }
}
