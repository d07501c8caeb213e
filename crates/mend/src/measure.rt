// What mending works out before it writes: the checks in their order, and how many entries and how many changes there will be.
ghost use Rattle.std.specs.Prelude.{◌≡◌, Err};
ghost use Rattle.refusal.specs.Refusal.{refusal};
ghost use Rattle.refusal.specs.declared.Position.TheVariants.{Nothing};
ghost use Rattle.refusal.specs.declared.Reason.TheVariants.{NoCountsFit};
ghost use Rattle.mend.specs.Measure.{arcs_verdict, Measured};

use super::writer::Part;
use super::{places, search, writer};
use refusal::{Limits, Position, Reason, Refusal, Verdict};

// The arcs that found the nodes, and the lengths of what will be written.
#[derive(Clone, Copy)]
pub(crate) struct Measure {
    pub parent: [u16; 128],
    pub entries: usize,
    pub changes: usize,
}

// Refusals 1 to 9 and 26 (9 asked of arcs only), then 11 to 13, 16 and 17.
fn checked(net: &[u32], sheet: &[u32]) -> Verdict
    ensures { result ≡ arcs_verdict net.now sheet.now }
{
    graph::check_arcs(net, sheet)?;
    let awaits = choice::nodes(net, sheet)?;
    reach::paths(net, sheet, awaits)
}

// Refusal 25.
fn no_counts() -> Result<Measure, Refusal>
    ensures { result ≡ Err (refusal NoCountsFit Nothing) }
{
    Err(Refusal {
        reason: Reason::NoCountsFit,
        at: Position::Nothing,
    })
}

pub(crate) fn measured(net: &[u32], sheet: &[u32]) -> Result<Measure, Refusal>
    ensures { Measured net.now sheet.now result }
{
    checked(net, sheet)?;
    let nodes = search::search(net, sheet);
    if !places::all_fit(net, sheet, nodes) {
        return no_counts();
    }
    let parent = nodes.parent;
    let arcs = graph::arc_count(net, sheet);
    let entries = arcs + writer::counted(net, sheet, parent, Part::Counts);
    if (Limits::ENTRIES as usize) < entries {
        return no_counts();
    }
    let changes = writer::counted(net, sheet, parent, Part::Changes);
    Ok(Measure {
        parent,
        entries,
        changes,
    })
}
