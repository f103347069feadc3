// The parts of a symbol: prefix, body and suffix.
#![tactic(auto)]

ghost use Rattle.std.specs.Prelude.{◌≡◌, ◌==◌, drop, position};
ghost use Rattle.definition.specs.Text as Text;
ghost use Rattle.text_symbols.specs.Symbol.{dot, BeforeDot, PrefixIs, SplitIs};

use text_cursor::scan::past;

// A symbol's body is text[start..end], its suffix text[end..].
#[derive(Clone, Copy)]
pub struct Parts {
    pub start: usize,
    pub end: usize,
}

// Returns the length of the first of the four prefixes that the text begins with.
pub fn prefix(text: &[u8]) -> Option<usize>
    ensures { PrefixIs (Text.prefix_of Text.prefixes text.now) result }
{
    if text.starts_with(b"_$s") {
        return Some(3);
    }
    if text.starts_with(b"$s") {
        return Some(2);
    }
    if text.starts_with(b"_$S") {
        return Some(3);
    }
    if text.starts_with(b"$S") {
        return Some(2);
    }
    None
}

// Returns the place of the first dot, if there is one.
fn first_dot(text: &[u8]) -> Option<usize>
    ensures { result ≡ position (λ b. b == dot) text.now }
{
    text.iter().position(|b| *b == b'.')
}

// Returns how many bytes are before the first dot.
fn before_dot(text: &[u8]) -> usize
    ensures { BeforeDot text.now result }
{
    let start = past(text, |b| b != b'.');
    match first_dot(&text[start..]) {
        Some(n) => start + n,
        None => text.len(),
    }
}

// Returns the parts of a symbol whose prefix ends at start.
fn split_at(text: &[u8], start: usize) -> Option<Parts>
    ensures { SplitIs (Text.split_at start (drop start text.now)) text.now result }
{
    if text.len() <= start {
        return None;
    }
    let end = start + before_dot(&text[start..]);
    Some(Parts { start, end })
}

// Returns the parts of a symbol: a prefix, at least one byte after it, and a body that ends before
// the first dot.
pub fn split(text: &[u8]) -> Option<Parts>
    ensures { SplitIs (Text.split text.now) text.now result }
{
    split_at(text, prefix(text)?)
}
