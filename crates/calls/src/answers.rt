// Makes the call of a case, and prints a line with what it answers and what it leaves in the buffers.
use super::cases::{Case, OUT, SCRATCH};
use super::operation::Operation;
use super::print;
use super::print::Output;
use schedule::{Fired, Walker};
use std::io;
use std::io::Write;

// The labels of what a sheet check tells.
const COUNTS: [&[u8]; 3] = [b" nodes ", b" arcs ", b" awaits "];

// Of what mending and trimming tell.
const LENGTHS: [&[u8]; 2] = [b" length ", b" list "];

// Of what a run tells.
const RAN: [&[u8]; 3] = [b" fired ", b" node ", b" entry "];

// Of what a replay tells.
const TOTALS: [&[u8]; 3] = [b" taken ", b" put ", b" entry "];

// The word at an index, 0 past the end.
fn at(words: &[u32], i: usize) -> u32 {
    words.get(i).copied().unwrap_or(0)
}

// The sheet at an index, empty past the end.
fn sheet_at(sheets: &[Vec<u32>], i: usize) -> &[u32] {
    match sheets.get(i) {
        Some(sheet) => sheet.as_slice(),
        None => &[],
    }
}

fn fresh_walker(output: &mut Output, net: &[u32]) -> io::Result<()> {
    let made = Walker::fresh(net);
    print::answer(output, made.verdict, &[])?;
    print::walker(output, made.walker)
}

// The walker that words name: its node, then 32 counts.
fn walker(words: &[u32]) -> Walker {
    let mut counts = [0u32; 32];
    for (p, count) in counts.iter_mut().enumerate() {
        *count = at(words, 1 + p);
    }
    Walker {
        node: at(words, 0),
        counts,
    }
}

fn fired(output: &mut Output, fired: Fired) -> io::Result<()> {
    print::answer(output, fired.answer, &[b" entry "])?;
    print::walker(output, fired.next)
}

// Makes the call and prints its answer. The words after the sheet are a record, a log or durations; a walker and the transition that it is to fire; or a
// transition and a place.
fn call(output: &mut Output, case: &mut Case) -> io::Result<()> {
    let net = case.net.as_slice();
    let words = case.words.as_slice();
    let sheets = case.sheets.as_slice();
    let sheet = sheet_at(sheets, 0);
    let other = sheet_at(sheets, 1);
    let out = case.lent.out.as_mut_slice();
    let second = case.lent.second.as_mut_slice();
    let taken = case.lent.taken.as_mut_slice();
    let put = case.lent.put.as_mut_slice();
    let scratch = case.lent.scratch.as_mut_slice();
    match case.operation {
        Operation::NetCheck => print::answer(output, net::check(net), &[]),
        Operation::SheetCheck => {
            print::answer(output, schedule::check(net, sheet, scratch), &COUNTS)
        }
        Operation::PlaceBounds => print::answer(
            output,
            schedule::place_bounds(net, sheet, out, scratch),
            &[],
        ),
        Operation::FreshWalker => fresh_walker(output, net),
        Operation::Firing => fired(
            output,
            walker(words).fire(net, sheet, at(words, 33), scratch),
        ),
        Operation::Run => print::answer(
            output,
            schedule::run(net, sheet, words, out, scratch),
            &RAN,
        ),
        Operation::MinimalForm => print::answer(
            output,
            minimize::minimal_form(net, sheet, out, scratch),
            &[b" length "],
        ),
        Operation::Weights => print::weights(output, net, at(words, 0), at(words, 1)),
        Operation::Replay => print::answer(
            output,
            replay::replay(net, sheet, words, taken, put, scratch),
            &TOTALS,
        ),
        Operation::Mending => print::answer(
            output,
            mend::mend(net, sheet, out, second, scratch),
            &LENGTHS,
        ),
        Operation::Composition => print::answer_on_sheets(
            output,
            compose::compose(
                net,
                at(case.numbers.as_slice(), 0) as usize,
                sheet,
                other,
                sheet_at(sheets, 2),
                sheet_at(sheets, 3),
                out,
                scratch,
            ),
            &[b" length "],
        ),
        Operation::Trimming => print::answer(
            output,
            trim::trim(net, sheet, out, second, scratch),
            &LENGTHS,
        ),
        Operation::ReactionTimes => print::answer(
            output,
            react::reactions(net, sheet, words, out, scratch),
            &[b" length "],
        ),
        Operation::Comparison => print::answer_on_sheets(
            output,
            compare::compare(net, sheet, other, out, second, scratch),
            &[b" length ", b" length ", b" same "],
        ),
        Operation::PlainCheck => {
            print::answer(output, plainly::check(net, sheet, scratch), &COUNTS)
        }
        Operation::PanelCheck => {
            print::answer(output, panel::check(net, sheet, scratch), &COUNTS)
        }
        Operation::PanelBounds => print::answer(
            output,
            panel::place_bounds(net, sheet, out, scratch),
            &[],
        ),
        Operation::PanelFiring => fired(
            output,
            panel::fire(walker(words), net, sheet, at(words, 33), scratch),
        ),
        Operation::PanelRun => print::answer(
            output,
            panel::run(net, sheet, words, out, scratch),
            &RAN,
        ),
        Operation::PanelForm => print::answer(
            output,
            panel::minimal_form(net, sheet, out, scratch),
            &[b" length "],
        ),
        Operation::PanelReplay => print::answer(
            output,
            panel::replay(net, sheet, words, taken, put, scratch),
            &TOTALS,
        ),
        Operation::PanelMending => print::answer(
            output,
            panel::mend(net, sheet, out, second, scratch),
            &LENGTHS,
        ),
    }
}

// Prints what the call left in the buffers that it was lent.
fn left(output: &mut Output, case: &Case) -> io::Result<()> {
    let shape = case.operation.shape();
    let lent = &case.lent;
    if 0 < shape.outs {
        print::out(output, lent.out.as_slice(), OUT)?;
    }
    if 1 < shape.outs {
        print::out(output, lent.second.as_slice(), OUT)?;
    }
    if shape.totals {
        print::totals(output, lent.taken.as_slice(), u64::from(OUT))?;
        print::totals(output, lent.put.as_slice(), u64::from(OUT))?;
    }
    if shape.scratch() {
        print::scratch(output, lent.scratch.as_slice(), SCRATCH)?;
    }
    Ok(())
}

// Prints the line of a case.
pub(crate) fn line(output: &mut Output, case: &mut Case) -> io::Result<()> {
    call(output, case)?;
    left(output, case)?;
    writeln!(output)
}
