// Pairs, judged by those of a form.
use crate::sentences::templates;
use crate::texts::pieces::value_of;
use grammar::{ANSWERS, Kind, Pair, Range};
use text::{EQUALS_SIGN, ValueError};
use text_bytes::{part_at, read_decimal};

// The ranks of pairs. A line is refused for the first pair of the least rank.
#[derive(Clone, Copy, PartialEq, Eq, PartialOrd, Ord)]
pub(super) enum Rank {
    // the value can't be read
    Malformed,
    NotAllowed,
    Allowed,
    // a word that is allowed, but not the first one of its kind
    OtherWord,
}

// How a pair is judged: its rank, and the sentence about its value.
#[derive(Clone, Copy)]
pub(super) struct Judged {
    pub rank: Rank,
    pub template: &'static [u8],
}

const NO_VALUE: Judged = Judged {
    rank: Rank::Malformed,
    template: templates::NO_VALUE,
};

const NO_NUMBER: Judged = Judged {
    rank: Rank::Malformed,
    template: templates::NO_NUMBER,
};

const NO_WORD: Judged = Judged {
    rank: Rank::Malformed,
    template: templates::ALLOWED,
};

const OUTSIDE: Judged = Judged {
    rank: Rank::NotAllowed,
    template: templates::ALLOWED,
};

const FINE: Judged = Judged {
    rank: Rank::Allowed,
    template: templates::ALLOWED,
};

const NOT_FIRST: Judged = Judged {
    rank: Rank::OtherWord,
    template: templates::ALLOWED,
};

fn judge_number(v: &[u8], ranges: &[Range]) -> Judged {
    let n = match read_decimal(v, u32::from(u16::MAX)) {
        Ok(n) => n,
        Err(ValueError::Malformed) => return NO_NUMBER,
        Err(ValueError::Outside) => return OUTSIDE,
    };
    let allowed = u16::try_from(n).is_ok_and(|n| ranges.iter().any(|range| range.contains(n)));
    if allowed { FINE } else { OUTSIDE }
}

fn judge_word(v: &[u8], words: &[&[u8]]) -> Judged {
    if v.contains(&EQUALS_SIGN) {
        return NO_WORD;
    }
    match words.iter().position(|word| *word == v) {
        None => OUTSIDE,
        Some(0) => FINE,
        Some(_) => NOT_FIRST,
    }
}

// None if the part has another key.
pub(super) fn judge(part: &[u8], pair: Pair) -> Option<Judged> {
    if part_at(part, 0, EQUALS_SIGN) != pair.key {
        return None;
    }
    let v = value_of(part);
    Some(match pair.kind {
        _ if v.is_empty() => NO_VALUE,
        Kind::Number(ranges) => judge_number(v, ranges),
        Kind::Keyword(words) => judge_word(v, words),
        Kind::Decision => judge_word(v, ANSWERS),
    })
}
