// The checks that come before the tuples are built: 28 (§7.28), and the whole check of each schedule with the net from which the other sources are
// removed (§10.31).
ghost use Rattle.std.specs.Prelude.{◌≡◌, ◌||◌, not, ltb, eqb, Err};
ghost use Rattle.refusal.specs.Refusal.{refusal};
ghost use Rattle.refusal.specs.declared.Position.TheVariants.{Nothing};
ghost use Rattle.lending.specs.Fault.{unnamed};
ghost use Rattle.compose.specs.Steps.{Sourced, Told};

use super::tasks;
use super::tasks::Sheets;
use composed::{ComposeAnswer, Composition};
use lending::Fault;
use refusal::{Position, Reason, Refusal};

// A refusal that is about no schedule.
pub(crate) fn refused(reason: Reason) -> ComposeAnswer
    ensures { result ≡ Err (unnamed (refusal reason Nothing)) }
{
    Err(Fault {
        refusal: Refusal {
            reason,
            at: Position::Nothing,
        },
        sheet: None,
    })
}

// Whether the number of schedules is above four or is not the number of sources.
pub(crate) fn wrong_number(number: usize, sources: usize) -> bool
    ensures { result ≡ (ltb 4 number || not (eqb number sources)) }
{
    if Composition::SHEETS < number {
        return true;
    }
    number != sources
}

// Checks one schedule after the other: the first that is refused is named.
pub(crate) fn sheets_told(
    net: &[u32],
    sheets: &Sheets<'_>,
    number: usize,
    sources: [u32; 4],
) -> Result<(), Fault>
    requires { Sourced net.now number sources }
    ensures { Told net.now number sheets.now.a.now sheets.now.b.now sheets.now.c.now sheets.now.d.now result }
{
    for i in 0..number {
        let sheet = tasks::pick(sheets, number, i);
        if let Err(refusal) = judge::task_verdict(net, sources[i], sheet) {
            return Err(Fault {
                refusal,
                sheet: Some(i as u32),
            });
        }
    }
    Ok(())
}
