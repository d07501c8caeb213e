// Refusals 1 to 4: the sizes and the length of the words, and their entries one by one.
ghost use Rattle.std.specs.Prelude.{◌≡◌, ◌≤◌};
ghost use Rattle.scan.specs.Scan.{first};
ghost use Rattle.net.specs.Net.{key_count, weight_count};
ghost use Rattle.net.specs.Known.{EntryAt};
ghost use Rattle.net.specs.Check.{sizes_pass, shape_fault, weight_fails, entry_fault};
ghost use Rattle.refusal.specs.Limits.{most_places, most_transitions};
ghost use Rattle.refusal.specs.Verdict.{verdict_of};

use super::shaped::Shaped;
use super::word_pass;
use refusal::{Limits, Position, Reason, Verdict};

// How many different keys there can be. K is at most this number (§2.2), and every key is below it (§2.3).
fn key_count(places: u32, transitions: u32) -> u32
    requires places_le_most_places { places ≤ most_places }
    requires transitions_le_most_transitions { transitions ≤ most_transitions }
    ensures { result ≡ key_count places transitions }
{
    (2 * transitions + 2) * places
}

// Whether P, T and K lie in their ranges (§2.2). P and T come first, so that the number of keys cannot overflow.
fn sizes_pass(places: u32, transitions: u32, entries: u32) -> bool
    ensures { result ≡ sizes_pass places transitions entries }
{
    if places < 1 {
        return false;
    }
    if Limits::PLACES < places {
        return false;
    }
    if transitions < 1 {
        return false;
    }
    if Limits::TRANSITIONS < transitions {
        return false;
    }
    entries <= key_count(places, transitions)
}

// Refusals 1 and 2.
pub(crate) fn shape_fault(net: &[u32]) -> Verdict
    ensures { result ≡ verdict_of (shape_fault net.now) }
{
    if net.len() < 3 {
        return refusal::refuse(Reason::NetLength, Position::Nothing);
    }
    let entries = net[2];
    if !sizes_pass(net[0], net[1], entries) {
        return refusal::refuse(Reason::NetSize, Position::Nothing);
    }
    if net.len() != 3 + 2 * (entries as usize) {
        return refusal::refuse(Reason::NetLength, Position::Nothing);
    }
    Ok(())
}

// Whether a weight breaks §2.4.
pub(crate) fn weight_fails(weight: u32) -> bool
    ensures { result ≡ weight_fails weight }
{
    if weight == 0 {
        return true;
    }
    Limits::COUNT < weight
}

// Refusals 3 and 4 at entry i.
fn entry_fault(net: &[u32], entries: usize, limit: u32, i: usize) -> Verdict
    requires { EntryAt net.now entries limit i }
    ensures { result ≡ verdict_of (entry_fault net.now i) }
{
    if table::key_fails(net, 3, limit, i) {
        return refusal::refuse(Reason::NetOrder, Position::Entry(i));
    }
    if weight_fails(net[3 + entries + i]) {
        return refusal::refuse(Reason::NetWeight, Position::Entry(i));
    }
    Ok(())
}

// Refusals 3 and 4: one quick test of all entries, and only if that fails entry by entry.
pub(crate) fn entries_fault(net: Shaped<'_>) -> Verdict
    ensures { result ≡ verdict_of (first (entry_fault net.entry.words.now) (weight_count net.entry.words.now)) }
{
    let limit = key_count(net.words[0], net.words[1]);
    if word_pass::entries_pass(net, limit) {
        return Ok(());
    }
    let entries = net.words[2] as usize;
    for i in 0..entries {
        entry_fault(net.words, entries, limit, i)?;
    }
    Ok(())
}
