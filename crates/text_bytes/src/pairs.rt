// Keywords, and key=value pairs.
ghost use Rattle.std.specs.Prelude.{◌≡◌};
ghost use Rattle.text.specs.Bytes.{is_keyword, is_pair, value_of};

use crate::pieces::position_of;
use text::EQUALS_SIGN;

// Whether a value has a byte, and no equals sign.
pub fn is_keyword(v: &[u8]) -> bool
    ensures { result ≡ is_keyword v.now }
{
    !v.is_empty() && !v.contains(&EQUALS_SIGN)
}

// Whether a part is a key, an equals sign and a value.
pub fn is_pair(p: &[u8]) -> bool
    ensures { result ≡ is_pair p.now }
{
    let Some(sign) = position_of(p, EQUALS_SIGN) else {
        return false;
    };
    sign > 0 && is_keyword(&p[sign + 1..])
}

// The value's own part of the lent pair, after `key=`; no byte where the pair doesn't begin so.
// No Option: an empty value is refused like a missing one.
pub fn value_of<'a>(pair: &'a [u8], key: &[u8]) -> &'a [u8]
    ensures { result.now ≡ value_of key.now pair.now }
{
    match pair.strip_prefix(key).unwrap_or(&[]) {
        [EQUALS_SIGN, value @ ..] => value,
        _ => &[],
    }
}
