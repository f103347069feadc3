// Appending bytes to a lent slice, limited by room (specs/Sink.antt); with an empty slice this only
// measures.
#![tactic(auto)]

// Copies of bytes.
pub mod copies;

ghost use Rattle.std.specs.Prelude.{◌≡◌, ◌+◌, ◌≤◌, ◌∷◌, [], length, ltb};
ghost use Rattle.text_output.specs.Sink.{Room};

use crate::copies::{WORD, copy, copy_words};

// A lent slice, the place of the next byte, and the room: how many bytes may be appended in all.
// Once something did not fit, the place is past the room, and nothing is appended any more.
#[derive(Drop)]
pub struct Sink<'a> {
    pub out: &'a mut [u8],
    pub at: usize,
    pub room: usize,
    ghost fits: { Room room out.now at },
}

impl<'a> Sink<'a> {
    ghost use Rattle.text_output.specs.Appends.{Appended};

    // Whether something did not fit.
    pub fn is_past(&self) -> bool
        ensures { result ≡ ltb self.now.room self.now.at }
    {
        self.room < self.at
    }

    // Appends bytes. If they do not end within the slice, none of them is read.
    pub fn put(&mut self, bytes: &[u8])
        ensures { Appended self.old self.new bytes.now }
    {
        if self.room < self.at {
            return;
        }
        if self.room - self.at < bytes.len() {
            self.at = self.room + 1;
            return;
        }
        let end = self.at + bytes.len();
        if end <= self.out.len() {
            if bytes.len() < WORD {
                copy(self.out, self.at, bytes);
            } else {
                copy_words(self.out, self.at, bytes, 0, bytes.len());
            }
        }
        self.at = end;
    }

    // Appends one byte.
    pub fn put_byte(&mut self, b: u8)
        ensures { Appended self.old self.new (b ∷ []) }
    {
        if self.room < self.at {
            return;
        }
        if self.at < self.out.len() {
            self.out[self.at] = b;
        }
        self.at += 1;
    }
}
