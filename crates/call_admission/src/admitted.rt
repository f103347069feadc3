// What a call reads.
ghost use Rattle.std.specs.Prelude.{◌≡◌, true, ◌+◌, ◌≤◌, length};
ghost use Rattle.definition.specs.Text as Text;

use definition::{Refusal, Refused};

// A text that has passed the checks 1 to 5, in its parts, and the ceiling of its run: the body is
// read, and begins at `start`; the suffix is what follows it.
#[derive(Clone, Copy)]
pub struct Admitted<'a> {
    pub ceiling: usize,
    pub start: usize,
    pub body: &'a [u8],
    pub suffix: &'a [u8],
    pub ghost small: { ceiling ≤ 65536 },
    pub ghost short: { start + length body.now ≤ 65535 },
    pub ghost encoded: { Text.well_formed body.now ≡ true },
}

impl Admitted<'_> {
    // A refusal at a place of the body, with its place in the text.
    pub fn in_text(&self, refused: Refused) -> Refused
        requires { refused.place ≤ length self.now.body.now }
        ensures { result ≡ record { refusal = refused.refusal; place = self.now.start + refused.place } }
    {
        Refused {
            place: self.start + refused.place,
            ..refused
        }
    }

    // A refusal at the end of the body.
    pub fn at_end(&self, refusal: Refusal) -> Refused
        ensures { result ≡ record { refusal = refusal; place = self.now.start + length self.now.body.now } }
    {
        self.in_text(Refused {
            refusal,
            place: self.body.len(),
        })
    }
}
