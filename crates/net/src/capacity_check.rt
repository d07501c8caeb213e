// Refusal 26: whether each place starts within its capacity (§2.11).
ghost use Rattle.std.specs.Prelude.{◌≡◌, true};
ghost use Rattle.std.proofs.Math.Option.{none};
ghost use Rattle.scan.specs.Scan.{first};
ghost use Rattle.refusal.specs.Verdict.{verdict_of};
ghost use Rattle.net.specs.Net.{place_count};
ghost use Rattle.net.specs.Known.{EntriesPass};
ghost use Rattle.net.specs.Check.{overfull_fault};

use super::shaped::Shaped;
use super::weights;
use refusal::{Position, Reason, Verdict};

// Whether no key lies in the row of capacities, which is the last.
fn unlimited(net: Shaped<'_>) -> bool
    requires { EntriesPass net.words.now }
    ensures { result ≡ true → first (overfull_fault net.entry.words.now) (place_count net.entry.words.now) ≡ none }
{
    let entries = net.words[2] as usize;
    let key = (2 * net.words[1] + 1) * net.words[0];
    entries <= table::lower_bound(net.words, 3, entries, key)
}

// Most nets have no capacities: then no row is read.
pub(crate) fn overfull_fault(net: Shaped<'_>) -> Verdict
    requires { EntriesPass net.words.now }
    ensures { result ≡ verdict_of (first (overfull_fault net.entry.words.now) (place_count net.entry.words.now)) }
{
    if unlimited(net) {
        return Ok(());
    }
    let places = net.words[0] as usize;
    let transitions = net.words[1] as usize;
    let starts = weights::row_or_zeros(net.words, true, 2 * transitions);
    let capacities = weights::row_or_zeros(net.words, true, 2 * transitions + 1);
    for p in 0..places {
        if !super::allows(capacities[p], starts[p]) {
            return refusal::refuse(Reason::StartOverCapacity, Position::Place(p));
        }
    }
    Ok(())
}
