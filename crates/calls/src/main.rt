// Makes the calls that standard input asks for, and prints for each a line with what it answers and what it leaves in the buffers.
//
// A case is an operation's number and its arguments:
//   1 net check      net                         5 single firing  net, sheet, node, 32 counts, transition, scratch
//   2 sheet check    net, sheet, scratch         6 run            net, sheet, record, out, scratch
//   3 place bounds   net, sheet, out, scratch    7 minimal form   net, sheet, out, scratch
//   4 fresh walker   net                         8 weights        net, transition, place
//   9 replay         net, sheet, log, taken, put, scratch
//   10 mending       net, sheet, out, list, scratch
//   11 composition  net, number, four sheets, out, scratch
//   12 trimming      net, sheet, out, list, scratch
//   13 reaction times  net, sheet, durations, out, scratch
//   14 comparison    net, two sheets, two outs, scratch
//   15 the sheet check by the plain engine  net, sheet, scratch
// 102, 103, 105 to 107, 109 and 110 are the small panel's, each with the arguments of the number without 100.
// A net, a sheet, a record and a log are given as their length and their words. Out, list, taken, put and scratch are given as the length of the buffer
// that is lent; before the call scratch is all 7 and the other buffers are all 9.
// A line ends with each output buffer's words up to the last that is not 9 and how many follow, and with how many words of scratch are 0,
// how many are 7, and where the first 7 is. The words of a case and each buffer have a limit, past which the program ends: `too long`.
#![tactic(auto)]

mod answers;
mod cases;
mod input;
mod operation;
mod print;

use self::input::Input;
use self::print::Output;
use std::io;
use std::io::{BufReader, BufWriter};

fn main(rt: HostRuntime) -> io::Result<()> {
    let alloc = rt.alloc();
    let mut input = Input::new(BufReader::with_capacity(alloc, 65536, rt.stdin())?);
    let mut output: Output = BufWriter::new(alloc, rt.stdout())?;
    cases::play(alloc, &mut input, &mut output)
}
