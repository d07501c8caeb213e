// Refusal 5: whether some transition is a source (§2.9).
ghost use Rattle.std.specs.Prelude.{◌≡◌, ◌<◌};
ghost use Rattle.net.specs.Net.{transition_count, is_source, has_source};
ghost use Rattle.net.specs.Known.{EntriesPass};

use super::shaped::Shaped;

// Whether t is a source (§2.9): no key lies in its row, from t × P to (t + 1) × P.
fn is_source(net: Shaped<'_>, t: u32) -> bool
    requires { EntriesPass net.words.now × (t < transition_count net.words.now) }
    ensures { result ≡ is_source net.entry.words.now t }
{
    let places = net.words[0];
    let entries = net.words[2] as usize;
    let first = t * places;
    let i = table::lower_bound(net.words, 3, entries, first);
    if entries <= i {
        return true;
    }
    first + places <= net.words[3 + i]
}

pub(crate) fn has_source(net: Shaped<'_>) -> bool
    requires { EntriesPass net.words.now }
    ensures { result ≡ has_source net.entry.words.now }
{
    let transitions = net.words[1];
    for t in 0..transitions {
        if is_source(net, t) {
            return true;
        }
    }
    false
}
