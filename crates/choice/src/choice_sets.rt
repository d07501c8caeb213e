// Choice sets (§5.1): each is known by its least transition. Weights are read from the net as rows, one row for each transition.
ghost use Rattle.std.specs.Prelude.{◌≡◌, ◌≤◌, ◌<◌, min, cond, eqb};
ghost use Rattle.scan.specs.Scan.{all, any, least};
ghost use Rattle.automaton.specs.Equivalence.{leader_by};
ghost use Rattle.refusal.specs.Limits.{most_places, most_transitions};
ghost use Rattle.net.specs.Net.{place_count, transition_count};
ghost use Rattle.sequential.specs.Tests.{takes_same, free_choice};
ghost use Rattle.choice.specs.Rows.{net_by_rows};
ghost use Rattle.sequential.specs.Only.{only};
ghost use Rattle.choice.specs.Choices.{first_source, ChoicesOf, left_of, equal_at, zero_at, weighs_at, both_at, rows_fit, FirstPlaces, Noted, NotedAfter};

use refusal::Limits;

// For each transition the least member of its choice set; and the least source, which stands for the choice set of the sources (§5.2).
#[derive(Clone, Copy)]
pub(crate) struct Choices {
    pub(crate) leaders: [u32; 32],
    pub(crate) source: u32,
}

// The lesser of a size and its limit.
pub(crate) fn at_most(size: u32, limit: u32) -> usize
    ensures { result ≡ min size limit }
{
    if size < limit {
        return size as usize;
    }
    limit as usize
}

fn places(net: &[u32]) -> usize
    ensures { result ≡ min (place_count net.now) most_places }
{
    at_most(net::places(net), Limits::PLACES)
}

pub(crate) fn transitions(net: &[u32]) -> usize
    ensures { result ≡ min (transition_count net.now) most_transitions }
{
    at_most(net::transitions(net), Limits::TRANSITIONS)
}

// Whether two rows have the same weights.
fn rows_equal(a: [u32; 32], b: [u32; 32], places: usize) -> bool
    requires { places ≤ 32 }
    ensures { result ≡ all (equal_at a b) places }
{
    for p in 0..places {
        if a[p] != b[p] {
            return false;
        }
    }
    true
}

// Whether both rows have a weight above 0 at some place.
fn rows_meet(a: [u32; 32], b: [u32; 32], places: usize) -> bool
    requires { places ≤ 32 }
    ensures { result ≡ any (both_at a b) places }
{
    for p in 0..places {
        if (0 < a[p]) & (0 < b[p]) {
            return true;
        }
    }
    false
}

// Whether no place has a weight above 0 in both rows, or the rows are equal.
fn rows_fit(a: [u32; 32], b: [u32; 32], places: usize) -> bool
    requires { places ≤ 32 }
    ensures { result ≡ rows_fit a b places }
{
    if rows_meet(a, b, places) {
        return rows_equal(a, b, places);
    }
    true
}

// The first place at which a row has a weight above 0, or the number of places.
fn first_weight(row: [u32; 32], places: usize) -> u32
    requires { places ≤ 32 }
    ensures { result ≡ least (weighs_at row) places }
{
    for p in 0..places {
        if 0 < row[p] {
            return p as u32;
        }
    }
    places as u32
}

// For each transition the first place that it draws on.
fn first_places(net: &[u32]) -> [u32; 32]
    ensures { FirstPlaces net.now result }
{
    let places = places(net);
    let transitions = transitions(net);
    let mut firsts = [0u32; 32];
    for i in 0..transitions {
        let first = first_weight(net::taken_row(net, i as u32), places);
        firsts[i] = first;
    }
    firsts
}

// The least transition that takes the same as t. Only those are looked at that draw on the same place first; sources draw on none, and take the same.
fn least_alike(net: &[u32], firsts: &[u32; 32], t: u32) -> u32
    requires first_places { FirstPlaces net.now firsts.now }
    requires t_bound { t < (net_by_rows net.now).transitions }
    ensures { result ≡ leader_by (takes_same (net_by_rows net.now)) t }
{
    let places = places(net);
    let first = firsts[t as usize];
    for u in 0..t {
        if firsts[u as usize] == first {
            if places as u32 <= first {
                return u;
            }
            if rows_equal(net::taken_row(net, u), net::taken_row(net, t), places) {
                return u;
            }
        }
    }
    t
}

// Whether all weights of a row are 0.
fn row_empty(row: [u32; 32], places: usize) -> bool
    requires { places ≤ 32 }
    ensures { result ≡ all (zero_at row) places }
{
    for p in 0..places {
        if row[p] != 0 {
            return false;
        }
    }
    true
}

// The least source (§2.9), or T if there is none. A source draws on no place, so its first place is P.
fn first_source(net: &[u32], firsts: &[u32; 32]) -> u32
    requires { FirstPlaces net.now firsts.now }
    ensures { result ≡ first_source (net_by_rows net.now) }
{
    let places = places(net);
    let transitions = transitions(net) as u32;
    for t in 0..transitions {
        if places as u32 <= firsts[t as usize] {
            return t;
        }
    }
    transitions
}

// Whether every transition that draws on a place of t's takes the same as t.
fn is_free(net: &[u32], t: u32) -> bool
    ensures { result ≡ free_choice (net_by_rows net.now) t }
{
    let taken = net::taken_row(net, t);
    let places = places(net);
    if row_empty(taken, places) {
        return true;
    }
    let transitions = transitions(net) as u32;
    for u in 0..transitions {
        if !rows_fit(taken, net::taken_row(net, u), places) {
            return false;
        }
    }
    true
}

// A note says whether the transitions that take the same as `leader`, the least of them, are one choice set: 1 yes, 2 no, 0 not asked yet. This is the
// note after t, one of them: the question is asked as soon as there is a second transition.
fn noted(net: &[u32], note: u32, leader: u32, t: u32) -> u32
    requires { Noted (net_by_rows net.now) note leader }
    ensures { NotedAfter (net_by_rows net.now) result leader t }
{
    if note != 0 {
        return note;
    }
    if leader == t {
        return 0;
    }
    if is_free(net, leader) {
        return 1;
    }
    2
}

// The least transition of t's choice set, by the note.
fn chosen(note: u32, leader: u32, t: u32) -> u32
    ensures { result ≡ cond (eqb note 1) leader t }
{
    if note == 1 {
        return leader;
    }
    t
}

// The choice sets of a net. They are made once and then compared with every node. For all transitions that take the same it is asked only once whether
// they are one choice set.
pub(crate) fn choices_of(net: &[u32]) -> Choices
    ensures { ChoicesOf (net_by_rows net.now) result.leaders result.source }
{
    let transitions = transitions(net);
    let firsts = first_places(net);
    let mut leaders = [0u32; 32];
    let mut notes = [0u32; 32];
    for i in 0..transitions {
        let leader = least_alike(net, &firsts, i as u32);
        let l = leader as usize;
        let note = noted(net, notes[l], leader, i as u32);
        notes[l] = note;
        let choice = chosen(note, leader, i as u32);
        leaders[i] = choice;
    }
    Choices {
        leaders,
        source: first_source(net, &firsts),
    }
}

// The least transition of t's choice set after all sources but s are removed. `leader` is what it was before, and `source` the least source then. A removed
// source is in no choice set: the answer is 32, which is no transition.
fn left(leader: u32, source: u32, s: u32, t: u32) -> u32
    ensures { result ≡ left_of leader source s t }
{
    if leader != source {
        return leader;
    }
    if t == s {
        return s;
    }
    Limits::TRANSITIONS
}

// The choice sets after all sources but s are removed. If s is no source, none is removed.
pub(crate) fn choices_only(net: &[u32], s: u32) -> Choices
    ensures { ChoicesOf (only (net_by_rows net.now) s) result.leaders result.source }
{
    let whole = choices_of(net);
    let transitions = transitions(net);
    if transitions <= s as usize {
        return whole;
    }
    let before = whole.leaders;
    let source = whole.source;
    if before[s as usize] != source {
        return whole;
    }
    let mut leaders = [0u32; 32];
    for i in 0..transitions {
        let choice = left(before[i], source, s, i as u32);
        leaders[i] = choice;
    }
    Choices { leaders, source: s }
}
