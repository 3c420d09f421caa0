// The words that engines fetch.
ghost use Rattle.std.specs.Prelude.{◌≡◌, ◌<◌, length, map};
ghost use Rattle.std.specs.Coded.{Coded-set};
ghost use Rattle.word.specs.Profile.{LP5523};
ghost use Rattle.word.specs.Decode.{decode_of, word_at};
ghost use Rattle.engine.specs.internal.Fetches.{decoded_if};
ghost use Rattle.engine.specs.internal.Operands.{Small};

use decoder::decode;
use word::{WORDS, Word};

// The program memory, and all its words if they are decoded ahead.
#[derive(Clone, Copy)]
pub(super) struct Program<'a> {
    pub memory: &'a [u16; WORDS],
    pub words: Option<[Word; WORDS]>,
    ghost whole: { length memory.now ≡ 96 },
    ghost decoded: { words ≡ decoded_if memory.now words } by { Coded-set words-code _ _ },
}

// A word, and the address of the memory that it was fetched from.
#[derive(Clone, Copy)]
pub(super) struct Fetched {
    pub at: usize,
    pub word: Word,
    ghost inside: { at < 96 },
    ghost small: { ∥ Small word ∥₁ },
}

// All words, decoded.
fn decoded(memory: &[u16; WORDS]) -> [Word; WORDS]
    ensures { result ≡ map (decode_of LP5523) memory.now }
{
    memory.map(|code| decode(code))
}

impl Program<'_> {
    pub(super) fn new(memory: &[u16; WORDS], ahead: bool) -> Program<'_>
        ensures { result.memory.now ≡ memory.now }
    {
        let words = if ahead { Some(decoded(memory)) } else { None };
        Program { memory, words }
    }

    fn word_at(&self, at: usize) -> Word
        requires { at < 96 }
        ensures { result ≡ word_at LP5523 self.now.memory.now at }
    {
        match &self.words {
            Some(words) => words[at],
            None => decode(self.memory[at]),
        }
    }

    // The word at an address of the memory.
    pub(super) fn fetched(&self, at: usize) -> Fetched
        requires { at < 96 }
        ensures at { result.at ≡ at }
        ensures word { result.word ≡ word_at LP5523 self.now.memory.now at }
    {
        Fetched {
            at,
            word: self.word_at(at),
        }
    }
}
