// The table of the ops: their lines with the allowed values, the beats they take, and what they do.
use super::filling::fill;
use super::say::Part;
use grammar::{OP_COUNT, op_lines};
use text_bytes::Writer;

// What stands above the rows.
const HEAD: &[u8] = b"| op line | beats | effect |\n|---|---|---|\n";

// A row of Markdown for each op, in their order. Beside the grammar's table, not in it: only this program
// tells what ops do.
const ROWS: [&[u8]; OP_COUNT] = [
    b"| op=%% | 1 | goes to the engine's first word; its loop counts become 0 |\n",
    b"| op=%% | count times as wait, 0 as 1 | held outputs move by 1 after each, within 0 to 255; count=0 only with dir=down |\n",
    b"| op=%% | time, or 32 times that with prescale=1 | only waits |\n",
    b"| op=%% | 1 | held outputs become value |\n",
    b"| op=%% | as ramp | as ramp, with the variables' values at its start; a time of 0 counts as 1, above 31 as 31 |\n",
    b"| op=%% | 1 | held outputs become the variable |\n",
    b"| op=%% | 1 | as branch; the variable is read while the word's loop count is 0 |\n",
    b"| op=%% | 1 | passes over the next skip words if left and right differ |\n",
    b"| op=%% | 1 | passes over the next skip words if left is less than right |\n",
    b"| op=%% | 1 | passes over the next skip words if left is at least right |\n",
    b"| op=%% | 1 | passes over the next skip words if left and right are equal |\n",
    b"| op=%% | 1 | the variable becomes value |\n",
    b"| op=%% | 1 | adds value to the variable, modulo 256 |\n",
    b"| op=%% | 1 | subtracts value from the variable, modulo 256 |\n",
    b"| op=%% | 1 | the variable becomes left plus right, modulo 256 |\n",
    b"| op=%% | 1 | the variable becomes left minus right, modulo 256 |\n",
    b"| op=%% | 1 | top and index become address; maps that row |\n",
    b"| op=%% | 1 | bottom becomes address |\n",
    b"| op=%% | 1 | top and index become address |\n",
    b"| op=%% | 1 | index becomes address |\n",
    b"| op=%% | 1 | index becomes address; maps that row |\n",
    b"| op=%% | 1 | maps no output |\n",
    b"| op=%% | 1 | maps this output alone; 16 is the GPO |\n",
    b"| op=%% | 1 | index goes up by 1, but from bottom or the last word to top; maps that row |\n",
    b"| op=%% | 1 | index goes up by 1, but from bottom or the last word to top |\n",
    b"| op=%% | 1 | index goes down by 1, but from top or word 0 to bottom; maps that row |\n",
    b"| op=%% | 1 | index goes down by 1, but from top or word 0 to bottom |\n",
    b"| op=%% | 1 | jumps to step (counted from the engine's first word) loops times, then goes on; loops=0: always |\n",
    b"| op=%% | 1 | holds the engine; int=1 raises its interrupt flag; reset=1 goes to its first word, loop counts 0 |\n",
    b"| op=%% | 1 | raises the engine's interrupt flag |\n",
    b"| op=%% | until all in wait are there, at least 1 | clears them, then triggers all in send: sums of 1, 2, 4 (engines 1, 2, 3), 32 (pin) |\n",
];

// The table; each of its lines ends with LF.
pub fn put_ops(w: &mut Writer) {
    w.put_bytes(HEAD);
    for (op, row) in op_lines().iter().zip(ROWS) {
        let parts = [Part::Name(op.name), Part::Pairs(op.form)];
        fill(w, row, &parts, b"", b"");
    }
}
