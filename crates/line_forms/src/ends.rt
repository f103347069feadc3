// Where a line of a text ends.
ghost use Rattle.std.specs.Prelude.{◌≡◌, ◌≤◌, ◌==◌, length, position};
ghost use Rattle.line_forms.specs.LineEnds.{Ends, newline};

// Returns the place of the first newline.
fn first_newline(text: &[u8]) -> Option<usize>
    ensures { result ≡ position (λ b. b == newline) text.now }
{
    text.iter().position(|b| *b == b'\n')
}

// Returns the end of the line that begins at `from`.
// Kept: a text and a place, and not the slice from it on: the callers go from line to line by places
// in the whole text.
pub fn line_end(text: &[u8], from: usize) -> usize
    requires { from ≤ length text.now }
    ensures { Ends text.now from result }
{
    match first_newline(&text[from..]) {
        Some(n) => from + n,
        None => text.len(),
    }
}
