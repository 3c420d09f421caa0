// What the benchmark in bench/word measures, of the decoder and of the confirming one: decoding
// alone, where of each word only whether it is defined is looked at, and decoding with the word
// folded into one number, so that no part of the work can be left out.
#![tactic(auto)]

ghost use Rattle.std.specs.Prelude.{◌≡◌};
ghost use Rattle.word.specs.Profile.{LP5523};
ghost use Rattle.word.specs.Decode.{decode_of};
ghost use Rattle.op_lines.specs.Values.{word_values};
ghost use Rattle.word_bench.specs.Defined.{defined_in};
ghost use Rattle.word_bench.specs.Digest.{digest_of};

use decoder::is_undefined;
use grammar::Values;

fn digest(v: Values) -> u64
    ensures { result ≡ digest_of v }
{
    let [op, a, b, c, d, ..] = v.map(u64::from);
    (((op * 257 + a) * 257 + b) * 257 + c) * 257 + d
}

#[unsafe(no_mangle)]
pub extern "C" fn word_digest(code: u16) -> u64
    ensures { result ≡ digest_of (word_values LP5523 (decode_of LP5523 code)) }
{
    digest(op_codec::values_of(decoder::decode(code)))
}

#[unsafe(no_mangle)]
pub extern "C" fn confirmed_digest(code: u16) -> u64
    ensures { result ≡ digest_of (word_values LP5523 (decode_of LP5523 code)) }
{
    digest(op_codec::values_of(confirming_decoder::decode(code)))
}

// One chain for each decoder: a function that takes the decoder would have to say in its `requires`
// what that decodes, and be no shorter.
#[unsafe(no_mangle)]
pub extern "C" fn words_defined(codes: &[u16]) -> usize
    ensures { result ≡ defined_in codes.now }
{
    codes
        .iter()
        .filter(|&&code| !is_undefined(decoder::decode(code)))
        .count()
}

#[unsafe(no_mangle)]
pub extern "C" fn confirmed_defined(codes: &[u16]) -> usize
    ensures { result ≡ defined_in codes.now }
{
    codes
        .iter()
        .filter(|&&code| !is_undefined(confirming_decoder::decode(code)))
        .count()
}
