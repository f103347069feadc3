// Bytes that are tested eight at a time.
ghost use Rattle.std.specs.Prelude.{◌≡◌, true, ℕ, ◌≤◌, ◌<◌, length, get_or};

// Whether the test holds for each of eight bytes. It is made of all of them, whatever the others
// give, so the compiler combines the eight tests into one.
fn all_eight<F: Fn(u8) -> bool>(eight: &[u8; 8], holds: &F) -> bool
    requires { F.IsAlwaysCallable holds.now }
    ensures { result ≡ true → (i : ℕ) → i < 8 → F.post holds.now (get_or eight.now i 0) true }
{
    let [a, b, c, d, e, f, g, h] = *eight;
    holds(a) & holds(b) & holds(c) & holds(d) & holds(e) & holds(f) & holds(g) & holds(h)
}

// Returns a place up to which the test holds for each byte of a text. Eight bytes are tested at a
// time; fewer than eight are left in the end, and the last eight of the text include them and some
// that were already tested.
pub fn past<F: Fn(u8) -> bool>(text: &[u8], holds: F) -> usize
    requires { F.IsAlwaysCallable holds }
    ensures { (result ≤ length text.now) × ((i : ℕ) → i < result → F.post holds (get_or text.now i 0) true) }
{
    let mut at = 0;
    // Kept: eight bytes at once are tested faster than one by one, which `position` would do.
    while let Some((eight, _)) = text[at..].split_first_chunk::<8>() {
        if !all_eight(eight, &holds) {
            return at;
        }
        at += 8;
    }
    if let Some(eight) = text.last_chunk::<8>() {
        if all_eight(eight, &holds) {
            return text.len();
        }
    }
    at
}
