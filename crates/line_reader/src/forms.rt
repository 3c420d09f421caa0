// A line, read by the pairs of its form.
ghost use Rattle.std.specs.Prelude.{IsTrue, ◌≡◌, List, ℕ};
ghost use Rattle.std.specs.Slice.Iter.{split_callee, split_steps};
ghost use Rattle.grammar.specs.Form.{before, read_pair, read_form};
ghost use Rattle.grammar.specs.Entries.{is_short, pair_of, form_of, fits};
ghost use Rattle.grammar.specs.internal.Tables.{line_read_of};
ghost use Rattle.line_reader.specs.internal.Steps.{Gives, end_after};

use crate::gathering::Gathered;
use crate::shapes::{at_end, unknown_keyword};
use crate::values::read_value;
use grammar::{LineError, Pair, Values};
use std::slice::Split;
use text::ValueError;

// The value of a part that has to be this pair.
#[tactic(auto, unfolding(grammar::specs::Form::read_pair))]
fn read_pair(part: &[u8], pair: Pair) -> Result<u16, ValueError>
    requires { IsTrue (is_short pair.kind) }
    ensures { result ≡ read_pair (pair_of pair) part.now }
{
    read_value(pair.kind, text_bytes::value_of(part, pair.key))
}

// The end of a line whose last value is this one.
fn end_after<P: FnMut(&u8) -> bool>(
    parts: &mut Split<'_, u8, P>,
    value: Result<u16, ValueError>,
) -> Result<(), LineError>
    requires { P.IsAlwaysCallable (split_callee parts.old) }
    ensures { (ps : List (List ℕ)) → Gives (split_steps P.FnMut) parts.old ps → result ≡ end_after value ps }
{
    if let Err(ValueError::Outside) = value {
        return Err(unknown_keyword(parts, LineError::OutsideField));
    }
    at_end(parts)
}

// A line with this first value, its other parts read by the pairs of a form. The parts are a `Split`, since
// a bound on any iterator names their lifetime, which the borrow checker doesn't cover beside a `Pair`'s
// `'static`.
pub(super) fn read_form<P: FnMut(&u8) -> bool>(
    parts: &mut Split<'_, u8, P>,
    first: Result<u16, ValueError>,
    form: &[Pair],
) -> Result<Values, LineError>
    requires room { IsTrue (fits form.now) }
    requires can { P.IsAlwaysCallable (split_callee parts.old) }
    ensures { (ps : List (List ℕ)) → Gives (split_steps P.FnMut) parts.old ps → result ≡ line_read_of (before first (read_form (form_of form.now) ps)) }
{
    let mut gathered = Gathered::new();
    gathered.take(first)?;
    for &pair in form {
        let part = parts.next().ok_or(LineError::Malformed)?;
        let value = read_pair(part, pair);
        gathered.take(value)?;
        if pair.kind.stops(value) {
            end_after(parts, value)?;
            return gathered.finish();
        }
    }
    at_end(parts)?;
    gathered.finish()
}
