// Whether all entries of a net's words pass 3 and 4. The loops have no early exit, so that each tests several words at once. Which entry fails, and by
// which refusal, is found by the slower check entry by entry.
ghost use Rattle.std.specs.Prelude.{◌≡◌, true};
ghost use Rattle.std.proofs.Math.Option.{none};
ghost use Rattle.scan.specs.Scan.{first};
ghost use Rattle.net.specs.Net.{weight_count, net_key_limit};
ghost use Rattle.net.specs.Known.{WeightsPass};
ghost use Rattle.net.specs.Check.{entry_fault};

use super::shaped::Shaped;
use super::word_check;

// Whether each weight passes: §2.4.
fn weights_pass(net: Shaped<'_>) -> bool
    ensures { result ≡ true → WeightsPass net.entry.words.now (weight_count net.entry.words.now) }
{
    let entries = net.words[2] as usize;
    let mut pass = true;
    for i in 0..entries {
        if word_check::weight_fails(net.words[3 + entries + i]) {
            pass = false;
        }
    }
    pass
}

// If the keys rise, it is enough to compare the last one with the limit.
pub(crate) fn entries_pass(net: Shaped<'_>, limit: u32) -> bool
    requires { limit ≡ net_key_limit net.words.now }
    ensures { result ≡ true → first (entry_fault net.entry.words.now) (weight_count net.entry.words.now) ≡ none }
{
    let entries = net.words[2] as usize;
    if entries == 0 {
        return true;
    }
    if limit <= net.words[2 + entries] {
        return false;
    }
    if table::keys_rise(net.words, 3, entries) {
        return weights_pass(net);
    }
    false
}
