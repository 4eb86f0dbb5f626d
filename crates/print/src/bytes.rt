// Bytes and numbers, written into a slice one behind the other; past its end nothing is written.
// Kept as it is: `write!` promises the bytes only where all have room, and here a short slice gets the first of them.
ghost use Rattle.std.specs.Prelude.{[], ◌∷◌};
ghost use Rattle.print.specs.Lines.{digits, decimal};
ghost use Rattle.print.specs.Steps.{Wrote};

// A slice, and how many of its bytes are written.
// Kept as it is: no equality is derived, since it holds a slice that is lent to be written, and nobody compares two.
// It is written out where it is made, three times: a slice, and nothing used.
#[derive(Debug, Drop)]
pub struct Output<'a> {
    pub bytes: &'a mut [u8],
    pub used: usize,
}

impl Output<'_> {
    // This and `push_all` are inlined, so that `used` can stay in a register where the Output is made: crate `posting` writes its sheet so.
    #[inline(always)]
    #[tactic(auto, unfolding(crate::specs::Steps::push, crate::specs::Steps::pushes))]
    pub fn push(&mut self, b: u8)
        ensures { Wrote self.old self.new (b ∷ []) }
    {
        if self.used < self.bytes.len() {
            self.bytes[self.used] = b;
            self.used += 1;
        }
    }

    #[inline(always)]
    #[tactic(auto, using(crate::proofs::Pushes::first_next), unfolding(crate::specs::Steps::pushes))]
    pub fn push_all(&mut self, text: &[u8])
        ensures { Wrote self.old self.new text.now }
    {
        for &b in text {
            self.push(b);
        }
    }

    // The digits of n, at most f of them.
    #[tactic(auto, using(crate::proofs::Pushes::digits_none, crate::proofs::Pushes::digits_one, crate::proofs::Pushes::digits_more))]
    fn put_digits(&mut self, f: u32, n: u64)
        ensures { Wrote self.old self.new (digits f n) }
    {
        if f == 0 {
            return;
        }
        if n < 10 {
            self.push(b'0' + n as u8);
            return;
        }
        self.put_digits(f - 1, n / 10);
        self.push(b'0' + (n % 10) as u8);
    }

    #[tactic(auto, unfolding(crate::specs::Lines::decimal))]
    pub fn put_number(&mut self, n: u64)
        ensures { Wrote self.old self.new (decimal n) }
    {
        self.put_digits(20, n);
    }
}
