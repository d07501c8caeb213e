// The call that writes the minimal form of a schedule.
#![tactic(auto)]

mod both;
mod classes;
mod numbering;
mod writer;

ghost use Rattle.std.specs.Prelude.{◌≡◌, Ok};
ghost use Rattle.graph.specs.Readable.{words_reply};
ghost use Rattle.minimal.specs.Form.{FormOf, FormWritten, FormWithinDone, FormDone};
ghost use Rattle.minimize.specs.Both.{FormsOf};

use minimal::FormAnswer;
use refusal::Refusal;
use schedule::Walker;

// The lengths in words of two forms.
#[derive(Clone, Copy)]
pub struct FormLengths {
    pub first: usize,
    pub second: usize,
}

// The answer for two forms: the lengths of what was written, or a refusal.
pub type FormsAnswer = Result<FormLengths, Refusal>;

// The minimal form of words that 1 to 9 and 26 let pass.
fn written(net: &[u32], sheet: &[u32], out: &mut [u32]) -> FormAnswer
    requires { words_reply net.now sheet.now ≡ Ok tt }
    ensures { FormOf net.now sheet.now out.old result out.new }
{
    let classes = classes::classes(net, sheet);
    let new = numbering::numbering(net, sheet, classes);
    writer::write(net, sheet, new, out)
}

// The minimal form of words that 1 to 9 and 26 let pass, whether they are a sequential schedule or not; else the refusal.
pub fn form_of(net: &[u32], sheet: &[u32], out: &mut [u32]) -> FormAnswer
    ensures { FormOf net.now sheet.now out.old result out.new }
{
    graph::check(net, sheet)?;
    written(net, sheet, out)
}

// The minimal forms of two such schedules. The first is checked before the second; both forms are written, or neither.
pub fn forms_of(
    net: &[u32],
    first: &[u32],
    second: &[u32],
    one: &mut [u32],
    two: &mut [u32],
) -> FormsAnswer
    ensures { FormsOf net.now first.now second.now one.old two.old result one.new two.new }
{
    graph::check(net, first)?;
    graph::check(net, second)?;
    both::written(net, first, second, one, two)
}

// The minimal form of a schedule without scratch.
pub fn form_into(net: &[u32], sheet: &[u32], out: &mut [u32]) -> FormAnswer
    ensures { FormWritten net.now sheet.now out.old result out.new }
{
    judge::verdict(net, sheet)?;
    form_of(net, sheet, out)
}

// The minimal form under a limit of scratch.
pub fn minimal_form_within(
    limit: usize,
    net: &[u32],
    sheet: &[u32],
    out: &mut [u32],
    scratch: &mut [u32],
) -> FormAnswer
    ensures { FormWithinDone limit net.now sheet.now out.old scratch.old result out.new scratch.new }
{
    lending::scratch_fault(limit, scratch.len())?;
    let answer = form_into(net, sheet, out);
    scan::clear_front(scratch, limit);
    answer
}

// The minimal form: §10.9.
pub fn minimal_form(net: &[u32], sheet: &[u32], out: &mut [u32], scratch: &mut [u32]) -> FormAnswer
    ensures { FormDone net.now sheet.now out.old scratch.old result out.new scratch.new }
{
    minimal_form_within(Walker::SCRATCH, net, sheet, out, scratch)
}
