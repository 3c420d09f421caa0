// Parts of a line that no form reads. A struct around the `Split` would require `IsAlwaysCallable` of each
// method too.
ghost use Rattle.std.specs.Prelude.{◌≡◌, List, ℕ};
ghost use Rattle.std.specs.Slice.Iter.{split_callee, split_steps};
ghost use Rattle.grammar.specs.Form.{at_end};
ghost use Rattle.line_reader.specs.internal.Steps.{Gives, ends, unknown_with};

use grammar::LineError;
use std::slice::Split;

// Where the line has to end.
pub(super) fn at_end<P: FnMut(&u8) -> bool>(parts: &mut Split<'_, u8, P>) -> Result<(), LineError>
    requires { P.IsAlwaysCallable (split_callee parts.old) }
    ensures { (ps : List (List ℕ)) → Gives (split_steps P.FnMut) parts.old ps → result ≡ ends (at_end ps) }
{
    if parts.next().is_some() {
        return Err(LineError::Malformed);
    }
    Ok(())
}

// Why a line is refused after an unknown keyword, for which `error` is given: of the rest only the shape of
// the pairs is judged.
pub(super) fn unknown_keyword<P: FnMut(&u8) -> bool>(
    parts: &mut Split<'_, u8, P>,
    error: LineError,
) -> LineError
    requires { P.IsAlwaysCallable (split_callee parts.old) }
    ensures { (ps : List (List ℕ)) → Gives (split_steps P.FnMut) parts.old ps → result ≡ unknown_with error ps }
{
    if parts.all(|part| text_bytes::is_pair(part)) {
        return error;
    }
    LineError::Malformed
}
