// The values of a line, gathered as its pairs are read.
ghost use Rattle.std.specs.Prelude.{◌≡◌, ◌<◌};
ghost use Rattle.line_reader.specs.internal.Steps.{none_gathered, taken, with_value, all_of};

use grammar::{LineError, Values};
use text::ValueError;

// `outside` is a flag, since a malformed value later in the line has the lower number; the count stands
// beside an array, since there is no heap.
#[derive(Clone, Copy)]
pub(super) struct Gathered {
    // the first `count` are read; the others are 0
    pub values: Values,
    pub count: usize,
    // whether one was outside its field
    pub outside: bool,
}

impl Gathered {
    pub fn new() -> Self
        ensures { result ≡ none_gathered }
    {
        Gathered {
            values: [0; 7],
            count: 0,
            outside: false,
        }
    }

    // One value more. After a malformed one nothing else counts, its number being the lowest.
    #[tactic(auto, unfolding(crate::specs::internal::Steps::taken, crate::specs::internal::Steps::with_value))]
    pub fn take(&mut self, value: Result<u16, ValueError>) -> Result<(), LineError>
        requires { self.old.count < 7 }
        ensures answer { result ≡ taken value }
        ensures after { self.new ≡ with_value self.old value }
    {
        match value {
            Ok(n) => self.values[self.count] = n,
            Err(ValueError::Malformed) => return Err(LineError::Malformed),
            Err(ValueError::Outside) => self.outside = true,
        }
        self.count += 1;
        Ok(())
    }

    // The values of a line that has ended.
    #[tactic(auto, unfolding(crate::specs::internal::Steps::all_of))]
    pub fn finish(self) -> Result<Values, LineError>
        ensures { result ≡ all_of self }
    {
        if self.outside {
            return Err(LineError::OutsideField);
        }
        Ok(self.values)
    }
}
