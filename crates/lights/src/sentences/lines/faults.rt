// What is wrong with the pairs of a line.
use super::judging::{Judged, Rank, judge};
use crate::sentences::say::{Part, Say, say_with};
use grammar::{Kind, Pair};
use text::SPACE;

// A rank, and what is said of the pair.
#[derive(Clone, Copy)]
pub(super) struct Fault {
    pub rank: Rank,
    pub say: Say,
}

// What is wrong with the parts of a line after its first: `keys` where the keys of the form don't stand
// there, each in its place, and nothing else; `before` where nothing is worse than that. A decision
// that is neither yes nor no ends the judging; after one that is no, or can't be read, the line has to end.
pub(super) fn fault_of(line: &[u8], form: &[Pair], keys: Say, before: Fault) -> Say {
    let mut worst = before;
    let mut parts = line.split(|&b| b == SPACE).skip(1);
    for &pair in form {
        // a part that isn't there has no key
        let Some(Judged { rank, template }) = judge(parts.next().unwrap_or(b""), pair) else {
            return keys;
        };
        if rank < worst.rank {
            let say = say_with(template, &[Part::Name(pair.key), Part::Allowed(pair.kind)]);
            worst = Fault { rank, say };
        }
        if matches!(pair.kind, Kind::Decision) {
            match rank {
                Rank::NotAllowed => return worst.say,
                Rank::Allowed => {}
                _ => break,
            }
        }
    }
    if parts.next().is_some() {
        return keys;
    }
    worst.say
}
