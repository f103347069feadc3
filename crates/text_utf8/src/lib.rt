// UTF-8.
#![tactic(auto, unfolding(definition::specs::Text::opened))]

ghost use Rattle.std.specs.Prelude.{◌≡◌, true, ◌-◌, ◌≤◌, ◌<◌, length, take, drop};
ghost use Rattle.definition.specs.Base as Base;
ghost use Rattle.definition.specs.Text as Text;
ghost use Rattle.text_cursor.specs.Reads.{rest};
ghost use Rattle.text_utf8.specs.Utf8.{row, RowIs, Skips, Placed};

use text_cursor::Reader;
use text_cursor::scan::past;

// A row of RFC 3629, section 4, without its first bytes: the second byte is between `low` and
// `high`, followed by `more` bytes of 80 to BF.
#[derive(Clone, Copy)]
struct Row {
    low: u8,
    high: u8,
    more: usize,
}

impl Row {
    fn new(low: u8, high: u8, more: usize) -> Row
        ensures { (result.low ≡ low) × (result.high ≡ high) × (result.more ≡ more) }
    {
        Row { low, high, more }
    }

    // Whether b is a second byte of the row.
    fn continues(self, b: u8) -> bool
        ensures { result ≡ Base.between self.low self.high b }
    {
        (self.low..=self.high).contains(&b)
    }
}

// Returns the row that b begins.
fn row_of(b: u8) -> Option<Row>
    ensures { RowIs b result }
{
    match b {
        0xC2..=0xDF => Some(Row::new(0x80, 0xBF, 0)),
        0xE0 => Some(Row::new(0xA0, 0xBF, 1)),
        0xE1..=0xEC => Some(Row::new(0x80, 0xBF, 1)),
        0xED => Some(Row::new(0x80, 0x9F, 1)),
        0xEE..=0xEF => Some(Row::new(0x80, 0xBF, 1)),
        0xF0 => Some(Row::new(0x90, 0xBF, 2)),
        0xF1..=0xF3 => Some(Row::new(0x80, 0xBF, 2)),
        0xF4 => Some(Row::new(0x80, 0x8F, 2)),
        _ => None,
    }
}

// Whether b is a byte of 80 to BF. The bytes of a character after its first are such, and its first
// is not.
fn is_tail(b: u8) -> bool
    ensures { result ≡ Base.between 0x80 0xBF b }
{
    (0x80..=0xBF).contains(&b)
}

// Takes n bytes of 80 to BF.
fn tails(text: &mut Reader, n: usize) -> Option<()>
    ensures { Skips (Text.tails n (rest text.old)) text.old text.new result }
{
    for _ in 0..n {
        if !is_tail(text.next_if_any()?) {
            return None;
        }
    }
    Some(())
}

// Takes the bytes that follow the first byte of a character, by its row.
fn second(text: &mut Reader, r: Row) -> Option<()>
    ensures { Skips (Text.second (row r) (rest text.old)) text.old text.new result }
{
    if !r.continues(text.next_if_any()?) {
        return None;
    }
    tails(text, r.more)
}

// Takes the bytes that follow the first byte b of a character.
fn character(text: &mut Reader, b: u8) -> Option<()>
    ensures { Skips (Text.character b (rest text.old)) text.old text.new result }
{
    if b.is_ascii() {
        return Some(());
    }
    second(text, row_of(b)?)
}

// The place of the first ill-formed sequence.
pub fn ill_formed(text: &[u8]) -> Option<usize>
    ensures { Placed (Text.ill_formed text.now) result }
{
    let mut at = past(text, |b| b < 0x80);
    // Kept: each turn takes a character and the ASCII after it, so an iterator over bytes does not
    // serve.
    while let Some(b) = text.get(at) {
        let mut reader = Reader { text, at: at + 1 };
        let Some(()) = character(&mut reader, *b) else {
            return Some(at);
        };
        at = reader.at + past(&text[reader.at..], |b| b < 0x80);
    }
    None
}

// Whether text[from..to] is well-formed, if the whole text is: it begins and ends between
// characters.
// Kept: the byte after the part decides, too, so the whole text is given, and the part by its ends.
pub fn between_characters(text: &[u8], from: usize, to: usize) -> bool
    requires { (from < to) × (to ≤ length text.now) × (Text.well_formed text.now ≡ true) }
    ensures { result ≡ Text.well_formed (take (to - from) (drop from text.now)) }
{
    if is_tail(text[from]) {
        return false;
    }
    if to < text.len() {
        return !is_tail(text[to]);
    }
    true
}
