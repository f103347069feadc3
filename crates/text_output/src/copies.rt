// Copies bytes into a lent slice, one by one or eight at a time. The library's copy of a slice of
// any length calls the C library (`memmove`), which the archives need not be linked with, and most
// texts are short.
ghost use Rattle.std.specs.Prelude.{◌≡◌, ◌+◌, ◌-◌, ◌≤◌, ◌++◌, length, take, drop};
ghost use Rattle.std.proofs.lemmas.List.Edits.{sets};
ghost use Rattle.text_output.specs.Copied.{copied};

// How many bytes are copied at a time.
pub const WORD: usize = 8;

// Copies bytes into out, starting at `at`.
pub fn copy(out: &mut [u8], at: usize, bytes: &[u8])
    requires { at + length bytes.now ≤ length out.old }
    ensures { out.new ≡ take at out.old ++ bytes.now ++ drop (at + length bytes.now) out.old }
{
    // Kept: an index, since the loop goes over two slices from two places.
    for i in 0..bytes.len() {
        out[at + i] = bytes[i];
    }
}

// Copies eight bytes of text, starting at `from`, into out, starting at `at`. The compiler makes one
// read and one store of them, since their number is known.
fn copy_word(out: &mut [u8], at: usize, text: &[u8], from: usize)
    requires { (at + 8 ≤ length out.old) × (from + 8 ≤ length text.now) }
    ensures { out.new ≡ sets out.old at (take 8 (drop from text.now)) }
{
    out[at..at + WORD].copy_from_slice(&text[from..from + WORD]);
}

// Copies text[from..to], of eight bytes or more, into out, starting at `at`, eight at a time. The
// last eight overlap those before them.
pub fn copy_words(out: &mut [u8], at: usize, text: &[u8], from: usize, to: usize)
    requires { (from + 8 ≤ to) × (to ≤ length text.now) × (at + (to - from) ≤ length out.old) }
    ensures { out.new ≡ copied out.old at text.now from to }
{
    let before_last = (to - from - 1) / WORD;
    for k in 0..before_last {
        copy_word(out, at + WORD * k, text, from + WORD * k);
    }
    copy_word(out, at + (to - from) - WORD, text, to - WORD);
}
