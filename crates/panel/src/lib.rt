// The calls for the small panel (§10.20): the other calls, with 1,024 words of scratch. tests/locals holds them to §10.21.
#![tactic(auto)]

ghost use Rattle.panel.specs.Calls.{PanelCheckDone, PanelBoundsDone, PanelFireDone, PanelRunDone, PanelFormDone, PanelReplayDone, PanelMendDone};

use judge::CheckAnswer;
use mended::MendAnswer;
use minimal::FormAnswer;
use refusal::Verdict;
use replay::ReplayAnswer;
use schedule::{Fired, RunAnswer, Walker};

#[derive(Clone, Copy)]
pub struct Panel {}

impl Panel {
    pub const SCRATCH: usize = 1024; // §1.12
}

// The schedule check: §10.3.
pub fn check(net: &[u32], sheet: &[u32], scratch: &mut [u32]) -> CheckAnswer
    ensures { PanelCheckDone net.now sheet.now scratch.old result scratch.new }
{
    schedule::check_within(Panel::SCRATCH, net, sheet, scratch)
}

// Place bounds: §10.4.
pub fn place_bounds(net: &[u32], sheet: &[u32], out: &mut [u32], scratch: &mut [u32]) -> Verdict
    ensures { PanelBoundsDone net.now sheet.now out.old scratch.old result out.new scratch.new }
{
    schedule::place_bounds_within(Panel::SCRATCH, net, sheet, out, scratch)
}

// A single firing: §10.7.
pub fn fire(walker: Walker, net: &[u32], sheet: &[u32], t: u32, scratch: &mut [u32]) -> Fired
    ensures { PanelFireDone net.now sheet.now scratch.old walker t result.answer result.next scratch.new }
{
    walker.fire_within(Panel::SCRATCH, net, sheet, t, scratch)
}

// A run: §10.8.
pub fn run(
    net: &[u32],
    sheet: &[u32],
    firings: &[u32],
    out: &mut [u32],
    scratch: &mut [u32],
) -> RunAnswer
    ensures { PanelRunDone net.now sheet.now firings.now out.old scratch.old result out.new scratch.new }
{
    schedule::run_within(Panel::SCRATCH, net, sheet, firings, out, scratch)
}

// The minimal form: §10.9.
pub fn minimal_form(net: &[u32], sheet: &[u32], out: &mut [u32], scratch: &mut [u32]) -> FormAnswer
    ensures { PanelFormDone net.now sheet.now out.old scratch.old result out.new scratch.new }
{
    minimize::minimal_form_within(Panel::SCRATCH, net, sheet, out, scratch)
}

// The replay of a log: §10.11.
pub fn replay(
    net: &[u32],
    sheet: &[u32],
    log: &[u32],
    taken: &mut [u64],
    put: &mut [u64],
    scratch: &mut [u32],
) -> ReplayAnswer
    ensures { PanelReplayDone net.now sheet.now log.now taken.old put.old scratch.old result taken.new put.new scratch.new }
{
    replay::replay_within(Panel::SCRATCH, net, sheet, log, taken, put, scratch)
}

// Mending: §10.14.
pub fn mend(
    net: &[u32],
    sheet: &[u32],
    out: &mut [u32],
    list: &mut [u32],
    scratch: &mut [u32],
) -> MendAnswer
    ensures { PanelMendDone net.now sheet.now out.old list.old scratch.old result out.new list.new scratch.new }
{
    mend::mend_within(Panel::SCRATCH, net, sheet, out, list, scratch)
}
