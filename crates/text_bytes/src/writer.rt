// Bytes written one after another into lent bytes.
ghost use Rattle.std.specs.Prelude.{◌≡◌, ◌≤◌, [], ◌∷◌, option_map};
ghost use Rattle.text.specs.Number.{decimal_of};
ghost use Rattle.text.specs.Put.{last_place};

// What reaches past the end of the lent bytes is not written, but its place is counted, so that a text can be
// measured on no bytes at all.
#[derive(Drop)]
pub struct Writer<'a> {
    out: &'a mut [u8],
    at: usize,
    ghost countable: { at ≤ last_place },
}

impl<'a> Writer<'a> {
    ghost use Rattle.text_bytes.specs.Writer.{Begins, Writes, written_of};

    // At the front of the lent bytes.
    pub fn new(out: &'a mut [u8]) -> Writer<'a>
        ensures { Begins out.entry 0 result }
    {
        Writer { out, at: 0 }
    }

    // At any place, also past the end of the lent bytes.
    pub fn starting_at(out: &'a mut [u8], at: usize) -> Writer<'a>
        ensures { Begins out.entry at result }
    {
        Writer { out, at }
    }

    // The place after all that was put; the greatest place there is where it is further.
    pub fn at(&self) -> usize
        ensures { result ≡ self.now.at }
    {
        self.at
    }

    pub fn put_byte(&mut self, b: u8)
        ensures { Writes self.old self.new (b ∷ []) }
    {
        if self.at < self.out.len() {
            self.out[self.at] = b;
        }
        self.at = self.at.saturating_add(1);
    }

    pub fn put_bytes(&mut self, s: &[u8])
        ensures { Writes self.old self.new s.now }
    {
        for &b in s {
            self.put_byte(b);
        }
    }

    // No `write!`: by its type it may fail, which this cannot; and the contract names the digits.
    #[tactic(auto, using(text::proofs::Numerals::decimal_one))]
    pub fn put_decimal(&mut self, n: u32)
        ensures { Writes self.old self.new (decimal_of n) }
    {
        let digit = b'0' + (n % 10) as u8;
        if n < 10 {
            return self.put_byte(digit);
        }
        self.put_decimal(n / 10);
        self.put_byte(digit);
    }

    // All that was put, where the lent bytes had room for it.
    #[tactic(auto, unfolding(crate::specs::Writer::written_of))]
    pub fn written(&self) -> Option<&[u8]>
        ensures { option_map (λ s. s.now) result ≡ written_of self.now }
    {
        self.out.get(..self.at)
    }
}
