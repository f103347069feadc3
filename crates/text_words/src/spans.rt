// Parts of a text of at most 65,535 bytes, kept in a row.
ghost use Rattle.std.specs.Prelude.{◌≡◌, ◌+◌, ◌-◌, ◌≤◌, ◌<◌, slice_set, MatchOption, take};
ghost use Rattle.text_words.specs.Table.{span_at};

// Where a part starts, and how long it is.
#[derive(Clone, Copy)]
pub struct Span {
    pub start: u16,
    pub length: u16,
}

impl Span {
    // The part text[from..to].
    pub fn new(from: usize, to: usize) -> Span
        requires { (from ≤ to) × (to ≤ 65535) }
        ensures { (result.start ≡ from) × (result.length ≡ to - from) }
    {
        Span {
            start: from as u16,
            length: (to - from) as u16,
        }
    }

    // Where the part begins.
    pub fn from(self) -> usize
        ensures { result ≡ self.start }
    {
        usize::from(self.start)
    }

    // Where it ends.
    pub fn to(self) -> usize
        ensures { result ≡ self.start + self.length }
    {
        usize::from(self.start) + usize::from(self.length)
    }
}

// At most N parts, in order.
// Kept: there is no heap, so the parts are in an array of fixed size. The one N of this port is 16
// (`Waiting`).
#[derive(Clone, Copy)]
pub struct Spans<const N: usize> {
    spans: [Span; N],
    count: usize,
}

impl<const N: usize> Spans<N> {
    pub fn new() -> Spans<N>
        ensures { result.count ≡ 0 }
    {
        Spans {
            spans: [Span {
                start: 0,
                length: 0,
            }; N],
            count: 0,
        }
    }

    pub fn len(&self) -> usize
        ensures { result ≡ self.now.count }
    {
        self.count
    }

    // Appends a part.
    pub fn push(&mut self, span: Span)
        requires { self.old.count < N }
        ensures { (self.new.count ≡ self.old.count + 1) × (self.new.spans ≡ slice_set self.old.spans self.old.count span) }
    {
        self.spans[self.count] = span;
        self.count += 1;
    }

    // Returns the parts.
    pub fn as_slice(&self) -> &[Span]
        requires { self.now.count ≤ N }
        ensures { result.now ≡ take self.now.count self.now.spans }
    {
        &self.spans[..self.count]
    }

    // Returns the part with number i.
    pub fn get(&self, i: usize) -> Option<Span>
        requires { self.now.count ≤ N }
        ensures { MatchOption result (self.now.count ≤ i) (λ s. (i < self.now.count) × (s ≡ span_at self.now.spans i)) }
    {
        self.as_slice().get(i).copied()
    }
}

#[cfg(test)]
mod tests {
    use super::*;

    #[test]
    fn gets_a_part_and_none_past_the_last(rt: HostRuntime) {
        let mut parts = Spans::<3>::new();
        parts.push(Span::new(2, 5));
        parts.push(Span::new(7, 8));
        let first = parts.get(0).map(|s| (s.from(), s.to()));
        let second = parts.get(1).map(|s| (s.from(), s.to()));
        assert_eq!(rt; first, Some((2, 5)));
        assert_eq!(rt; second, Some((7, 8)));
        assert!(rt; parts.get(2).is_none(), "a third was never pushed");
    }
}
