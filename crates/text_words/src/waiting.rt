// The literals whose words are not noted yet. Most texts have no identifier that uses a word, and
// for them no word is noted.
ghost use Rattle.std.specs.Prelude.{◌≡◌, ◌+◌, ◌≤◌, ◌<◌, List, length};
ghost use Rattle.definition.specs.Base.{Name};
ghost use Rattle.definition.specs.Text.{Text};
ghost use Rattle.definition.specs.Words as W;
ghost use Rattle.text_words.specs.Waits.{noted_behind, Waits, More};

use crate::spans::{Span, Spans};
use crate::{Known, note};

// The literals in order, of which at most 16 wait.
pub type Waiting = Spans<16>;

// Appends the literal text[from..to].
// Kept: a literal goes by its ends where it is read, and as a `Span` where it is kept.
pub fn wait(q: &mut Waiting, from: usize, to: usize)
    requires { (q.old.count < 16) × (from ≤ to) × (to ≤ 65535) }
    ensures { (text : Text) → to ≤ length text → Waits text q.old → More text from to q.old q.new }
{
    q.push(Span::new(from, to));
}

// Notes the words of all literals that wait.
pub fn note_waiting<K: Known>(text: &[u8], q: &Waiting, known: &mut K)
    requires { (length text.now ≤ 65535) × Waits text.now q.now }
    ensures { (words : List Name) → K.stands text.now known.old words → K.stands text.now known.new (noted_behind W.note_words text.now q.now words) }
{
    for span in q.as_slice() {
        note(text, span.from(), span.to(), known);
    }
}
