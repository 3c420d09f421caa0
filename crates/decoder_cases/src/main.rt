// Decodes every code by both decoders, and counts the codes, those whose words differ, and those that
// are defined words.
#![tactic(auto)]

use decoder::is_undefined;
use std::io;

fn main(rt: HostRuntime) -> io::Result<()> {
    let codes = (0..=u16::MAX).count();
    let differing = (0..=u16::MAX)
        .filter(|&code| decoder::decode(code) != confirming_decoder::decode(code))
        .count();
    let defined = (0..=u16::MAX)
        .filter(|&code| !is_undefined(decoder::decode(code)))
        .count();
    println!(rt; "codes={codes} differing={differing} defined={defined}")
}
