// Whether all entries of a schedule's words pass 8 and 9. The loops have no early exit, so that each tests several words at once. Which entry fails, and
// by which refusal, is found by the slower check entry by entry.
ghost use Rattle.std.specs.Prelude.{◌≡◌, true, ◌≤◌, ◌<◌};
ghost use Rattle.std.proofs.Math.Option.{none};
ghost use Rattle.scan.specs.Scan.{first};
ghost use Rattle.sequential.specs.Words.{entry_count};
ghost use Rattle.sequential.specs.Check.{entry_fault};
ghost use Rattle.graph.specs.Readable.{value_test, ValuesLie};

use super::shaped::Shaped;
use refusal::Limits;

fn lies(value: u32, low: u32, limit: u32) -> bool
    ensures { result ≡ true → (low ≤ value) × (value < limit) }
{
    if value < low {
        return false;
    }
    value < limit
}

// Whether the values of the entries from `from` to before `to` are at least `low` and below a limit: §3.5, §3.6.
fn values_lie(sheet: Shaped<'_>, from: usize, to: usize, low: u32, limit: u32) -> bool
    requires { to ≤ entry_count sheet.words.now }
    ensures { result ≡ true → ValuesLie sheet.entry.words.now from to low limit }
{
    let first = 2 + sheet.words[1] as usize;
    let mut lie = true;
    for i in from..to {
        if !lies(sheet.words[first + i], low, limit) {
            lie = false;
        }
    }
    lie
}

// If the keys rise, it is enough to compare the last one with the limit; and the arcs come first.
pub(crate) fn entries_pass(sheet: Shaped<'_>, arcs: u32, limit: u32, counts: bool) -> bool
    ensures { result ≡ true → first (entry_fault sheet.entry.words.now limit (value_test counts sheet.entry.words.now arcs)) (entry_count sheet.entry.words.now) ≡ none }
{
    let entries = sheet.words[1] as usize;
    if entries == 0 {
        return true;
    }
    if limit <= sheet.words[1 + entries] {
        return false;
    }
    if !table::keys_rise(sheet.words, 2, entries) {
        return false;
    }
    let end = table::lower_bound(sheet.words, 2, entries, arcs);
    if !values_lie(sheet, 0, end, 0, sheet.words[0]) {
        return false;
    }
    if !counts {
        return true;
    }
    values_lie(sheet, end, entries, 1, Limits::COUNT + 1)
}
