// What is to be seen of the engines and of the chip.
use crate::numbers;
use crate::numbers::Numbers;
use machine::{Chip, Engine};
use std::io;

// One number of each engine, 1 to 3. Two lists with commas: a function for both would be no shorter.
fn print_engines<F: Fn(&Engine) -> io::Result<()>>(
    rt: &impl Print,
    m: &Chip,
    one: F,
) -> io::Result<()>
    requires { F.IsAlwaysCallable one }
{
    one(&m.engines[0])?;
    for e in &m.engines[1..] {
        print!(rt; ",")?;
        one(e)?;
    }
    Ok(())
}

// D1 to D9, then the GPO.
fn print_levels(rt: &impl Print, m: &Chip) -> io::Result<()> {
    print!(rt; "{}", m.outputs[0].level)?;
    for output in &m.outputs[1..] {
        print!(rt; ",{}", output.level)?;
    }
    Ok(())
}

// A view's name and what is seen; for a view with a place, the one at this place.
pub(super) fn show(rt: &impl Print, m: &Chip, name: &[u8], n: &Numbers) -> io::Result<()> {
    let at = numbers::at_most(rt, n.value(0), 95)? as usize;
    print!(rt; " ")?;
    rt.write_all(name)?;
    print!(rt; "=")?;
    match name {
        b"c" => print!(rt; "{}", m.c),
        b"d" => print!(rt; "{}", m.d),
        b"page" => print!(rt; "{}", m.page),
        b"enabled" => print!(rt; "{}", u8::from(m.enabled)),
        b"levels" => print_levels(rt, m),
        b"word" => print!(rt; "{:04X}", m.memory[at]),
        b"pc" => print_engines(rt, m, |e| print!(rt; "{}", e.pc.0)),
        b"start" => print_engines(rt, m, |e| print!(rt; "{}", e.start.0)),
        b"mode" => print_engines(rt, m, |e| print!(rt; "{:02b}", e.mode.bits())),
        b"setting" => print_engines(rt, m, |e| print!(rt; "{:02b}", e.exec.bits())),
        b"a" => print_engines(rt, m, |e| print!(rt; "{}", e.a)),
        b"b" => print_engines(rt, m, |e| print!(rt; "{}", e.b)),
        b"mask" => print_engines(rt, m, |e| print!(rt; "{:04X}", e.mask)),
        b"top" => print_engines(rt, m, |e| print!(rt; "{}", e.table.top.0)),
        b"bottom" => print_engines(rt, m, |e| print!(rt; "{}", e.table.bottom.0)),
        b"index" => print_engines(rt, m, |e| print!(rt; "{}", e.table.index.0)),
        b"pending" => print_engines(rt, m, |e| print!(rt; "{}", e.pending)),
        b"interrupt" => print_engines(rt, m, |e| print!(rt; "{}", u8::from(e.interrupt))),
        b"fault" => print_engines(rt, m, |e| print!(rt; "{}", u8::from(e.fault))),
        b"mid-word" => print_engines(rt, m, |e| {
            let progress = e.progress;
            print!(rt; "{}", u8::from(progress.is_mid_word()))
        }),
        b"count" => print_engines(rt, m, |e| print!(rt; "{}", e.loops[at])),
        _ => print!(rt; "unknown"),
    }
}
