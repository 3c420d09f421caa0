// Words that are undefined.
ghost use Rattle.std.specs.Prelude.{◌≡◌};
ghost use Rattle.word.specs.Classes.{is_undefined};

use word::Word;

pub fn is_undefined(word: Word) -> bool
    ensures { result ≡ is_undefined word }
{
    matches!(word, Word::Undefined)
}
