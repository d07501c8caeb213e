// What a log moves: for each transition, how often it fires times its row of weights.
ghost use Rattle.std.specs.Prelude.{◌≡◌, cond, ℕ, ◌≤◌, ◌<◌, length};
ghost use Rattle.scan.specs.Scan.{tabulate, sum};
ghost use Rattle.net.specs.Net.{place_count, transition_count};
ghost use Rattle.net.specs.Accessors.{taken_row_reply, put_row_reply};
ghost use Rattle.sequential.specs.Petri.{petri_net};
ghost use Rattle.replay.specs.Log.{firing_count, fired_at};
ghost use Rattle.replay.specs.Tally.{LogHolds, fired_times, side_of, weighed, added, at, AtMost, Countable, Weighable, Rooms, SideDone, Settled};

use super::Totals;

// The Parikh vector of a log: how often each transition fires.
fn fired_times(log: &[u32]) -> [u32; 32]
    requires log_holds { LogHolds log.now }
    requires fired_bound { (i : ℕ) → i < firing_count log.now → fired_at log.now i < 32 }
    ensures { result ≡ tabulate (fired_times log.now) 32 }
{
    let n = log[0] as usize;
    let mut parikh = [0u32; 32];
    for i in 0..n {
        let t = log[1 + i] as usize;
        parikh[t] += 1;
    }
    parikh
}

// What a transition puts into each place, or takes from it.
fn row_of(net: &[u32], t: u32, putting: bool) -> [u32; 32]
    ensures { result ≡ cond putting (put_row_reply net.now t) (taken_row_reply net.now t) }
{
    if putting {
        return net::put_row(net, t);
    }
    net::taken_row(net, t)
}

// The sums, with `times` times a row added. A sum has at most 32 such terms of at most 4,096 times a word, which is at most 2 ^ 49.
fn add_row(sums: [u64; 32], row: [u32; 32], times: u32) -> [u64; 32]
    requires times_bound { times ≤ 4096 }
    requires at_most { AtMost 1125899906842624 sums }
    ensures { result ≡ tabulate (added sums row times) 32 }
{
    let mut next = [0u64; 32];
    for p in 0..32 {
        let weight = row[p];
        next[p] = sums[p] + u64::from(times) * u64::from(weight);
    }
    next
}

// What all firings together put into each place, or take from it; 0 from P on.
fn weigh(net: &[u32], parikh: [u32; 32], putting: bool) -> [u64; 32]
    requires { Weighable net.now parikh }
    ensures { result ≡ tabulate (weighed (side_of (petri_net net.now) putting) parikh (transition_count net.now)) 32 }
{
    let transitions = net::transitions(net);
    let mut sums = [0u64; 32];
    for t in 0..transitions {
        let row = row_of(net, t, putting);
        let next = add_row(sums, row, parikh[t as usize]);
        sums = next;
    }
    sums
}

// The sum of the first n numbers of a row.
fn total(row: [u64; 32], n: usize) -> u64
    requires n_bound { n ≤ 32 }
    requires at_most { AtMost 1125899906842624 row }
    ensures { result ≡ sum (at row) n }
{
    let mut all: u64 = 0;
    for p in 0..n {
        all += row[p];
    }
    all
}

// One side, taken or put: writes what is moved at each place, and answers the total.
fn side(net: &[u32], parikh: [u32; 32], putting: bool, out: &mut [u64]) -> u64
    requires weighable { Weighable net.now parikh }
    requires net_in_bounds { place_count net.now ≤ length out.old }
    ensures { SideDone (side_of (petri_net net.now) putting) parikh (transition_count net.now) (place_count net.now) out.old result out.new }
{
    let places = net::places(net) as usize;
    let row = weigh(net, parikh, putting);
    scan::write_row(row, out, places);
    total(row, places)
}

// Both sides, taken and put.
pub(crate) fn totals_into(net: &[u32], log: &[u32], taken: &mut [u64], put: &mut [u64]) -> Totals
    requires countable { Countable net.now log.now }
    requires rooms { Rooms net.now taken.old put.old }
    ensures { Settled net.now log.now taken.old put.old result taken.new put.new }
{
    let parikh = fired_times(log);
    let all_taken = side(net, parikh, false, taken);
    let all_put = side(net, parikh, true, put);
    Totals {
        taken: all_taken,
        put: all_put,
    }
}
