// Pieces of a text: up to a place or from it on, and up to a separator. Every place has an answer, which
// slicing has not.
ghost use Rattle.std.specs.Prelude.{◌≡◌, ◌==◌, take, drop, position};
ghost use Rattle.text.specs.Bytes.{same, part_at};

// Whether two texts are the same. For definitions that speak of `same`; `==` answers the same.
#[tactic(auto, using(text::proofs::Words::same_pointwise))]
pub fn same(a: &[u8], b: &[u8]) -> bool
    ensures { result ≡ same a.now b.now }
{
    a == b
}

// The first `end` bytes, or all where there are fewer.
pub fn until(s: &[u8], end: usize) -> &[u8]
    ensures { result.now ≡ take end s.now }
{
    &s[..end.min(s.len())]
}

// The bytes from a place on; none where the text ends before.
pub fn from(s: &[u8], at: usize) -> &[u8]
    ensures { result.now ≡ drop at s.now }
{
    &s[at.min(s.len())..]
}

// The place of the first d, if there is one.
pub(crate) fn position_of(s: &[u8], d: u8) -> Option<usize>
    ensures { result ≡ position (λ b. b == d) s.now }
{
    s.iter().position(|&b| b == d)
}

// The part from a place up to the next d or to the end; past the end, no byte.
#[tactic(auto, unfolding(text::specs::Bytes::part_at))]
pub fn part_at(s: &[u8], at: usize, d: u8) -> &[u8]
    ensures { result.now ≡ part_at d at s.now }
{
    let rest = from(s, at);
    let end = position_of(rest, d).unwrap_or(rest.len());
    until(rest, end)
}
