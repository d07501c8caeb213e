// The weight at a place of a row of keys, and the weights of a row at once.
ghost use Rattle.std.specs.Prelude.{true, ◌≡◌, ◌+◌, ◌*◌, ◌≤◌};
ghost use Rattle.net.specs.Net.{transition_count};
ghost use Rattle.net.specs.Accessors.{row_reply, row_weights, weight_or_zero, row_or_zeros};

use super::shaped::Shaped;

// The weight that bisection finds at place p of a row of keys, or 0 (§2.8).
fn weight_in_row(net: Shaped<'_>, row: usize, p: u32) -> u32
    requires { row ≤ 65 }
    ensures { result ≡ row_reply net.entry.words.now row p }
{
    let places = net.words[0];
    if places <= p {
        return 0;
    }
    let entries = net.words[2] as usize;
    match table::find(net.words, 3, entries, row as u32 * places + p) {
        Some(i) => net.words[3 + entries + i],
        None => 0,
    }
}

// The same on any words: 0 if it is not known that there is such a row.
pub(crate) fn weight_or_zero(net: &[u32], known: bool, row: usize, p: u32) -> u32
    requires { known ≡ true → row ≤ 2 * transition_count net.now + 1 }
    ensures { result ≡ weight_or_zero net.now known row p }
{
    if !known {
        return 0;
    }
    match Shaped::read(net) {
        Ok(net) => weight_in_row(net, row, p),
        Err(_) => 0,
    }
}

// The weights of a row of keys, place by place, 0 from P on.
fn weights_in_row(net: Shaped<'_>, row: usize) -> [u32; 32]
    requires { row ≤ 65 }
    ensures { result ≡ row_weights net.entry.words.now row }
{
    let places = net.words[0];
    table::value_row(
        net.words,
        3,
        net.words[2] as usize,
        row as u32 * places,
        places as usize,
    )
}

// The same on any words.
pub(crate) fn row_or_zeros(net: &[u32], known: bool, row: usize) -> [u32; 32]
    requires { known ≡ true → row ≤ 2 * transition_count net.now + 1 }
    ensures { result ≡ row_or_zeros net.now known row }
{
    if !known {
        return [0; 32];
    }
    match Shaped::read(net) {
        Ok(net) => weights_in_row(net, row),
        Err(_) => [0; 32],
    }
}
