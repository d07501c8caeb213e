// Classes of equivalent nodes (§11.3). They begin as the nodes with equal counts; each round splits them by the classes to which their arcs lead. A class
// is known by its least node.
ghost use Rattle.std.specs.Prelude.{◌≡◌, ◌+◌, ◌*◌, ◌≤◌, length};
ghost use Rattle.scan.specs.Scan.{all};
ghost use Rattle.automaton.specs.Equivalence.{leader_by};
ghost use Rattle.sequential.specs.Petri.{petri_net};
ghost use Rattle.sequential.specs.Words.{node_count, entry_count, entry_value, graph};
ghost use Rattle.graph.specs.Readable.{Readable};
ghost use Rattle.breadth_first.specs.Along.{class_in};
ghost use Rattle.minimize.specs.Tables.{Classes};
ghost use Rattle.minimize.specs.Agree.{has_key, values_agree, keys_agree, Valued, Rows, row_key, row_width, StartsOf, targets_agree, LevelRows, TwoRows};
ghost use Rattle.minimize.specs.Leaders.{LeadersBy, rows_alike, split, Round, RoundAt, same_entry};

// Whether there is an entry i, and its key is `key`.
#[tactic(auto, unfolding(crate::specs::Agree::has_key, table::specs::Table::key_at))]
fn has_key(sheet: &[u32], i: usize, key: u32) -> bool
    requires { length sheet.now ≡ 2 + 2 * entry_count sheet.now }
    ensures { result ≡ has_key sheet.now i key }
{
    if sheet[1] as usize <= i {
        return false;
    }
    sheet[2 + i] == key
}

// Whether the values of entries i and j agree: counts as they are, targets of arcs by their classes.
fn values_agree(sheet: &[u32], classes: &[u8], counts: bool, i: usize, j: usize) -> bool
    requires first_valued { Valued sheet.now classes.now counts i }
    requires second_valued { Valued sheet.now classes.now counts j }
    ensures { result ≡ values_agree classes.now counts (entry_value sheet.now i) (entry_value sheet.now j) }
{
    let entries = sheet[1] as usize;
    let v = sheet[2 + entries + i];
    let w = sheet[2 + entries + j];
    if counts {
        return v == w;
    }
    classes[v as usize] == classes[w as usize]
}

// Whether two rows of a width agree key by key: either both keys have entries, whose values agree, or neither has one. The rows begin at keys a and b
// and at entries i and j.
fn rows_agree(
    sheet: &[u32],
    classes: &[u8],
    counts: bool,
    width: u32,
    a: u32,
    b: u32,
    i: usize,
    j: usize,
) -> bool
    requires { Rows sheet.now classes.now counts width a b i j }
    ensures { result ≡ all (keys_agree sheet.now (values_agree classes.now counts) a b) width }
{
    let mut x = i;
    let mut y = j;
    for t in 0..width {
        let there = has_key(sheet, x, a + t);
        if there != has_key(sheet, y, b + t) {
            return false;
        }
        if there {
            if !values_agree(sheet, classes, counts, x, y) {
                return false;
            }
            x += 1;
            y += 1;
        }
    }
    true
}

// Whether `size` arcs from entry i on lead, one by one, into the same classes as those from entry j on.
fn targets_agree(sheet: &[u32], classes: &[u8], size: usize, i: usize, j: usize) -> bool
    requires { LevelRows sheet.now classes.now size i j }
    ensures { result ≡ all (targets_agree sheet.now classes.now i j) size }
{
    for s in 0..size {
        if !values_agree(sheet, classes, false, i + s, j + s) {
            return false;
        }
    }
    true
}

// The first key of node n's row, of its counts or of its arcs.
#[tactic(auto, unfolding(crate::specs::Agree::row_key))]
pub(crate) fn first_key(net: &[u32], sheet: &[u32], counts: bool, n: u32) -> u32
    requires { Readable net.now sheet.now }
    ensures { result ≡ row_key net.now sheet.now counts n }
{
    if counts {
        return graph::counts_start(net, sheet[0], n);
    }
    graph::arcs_start(net, n)
}

// How many keys a row of counts or of arcs has.
#[tactic(auto, unfolding(crate::specs::Agree::row_width))]
pub(crate) fn row_width(net: &[u32], counts: bool) -> u32
    ensures { result ≡ row_width net.now counts }
{
    if counts {
        return net::places(net);
    }
    net::transitions(net)
}

// The entry at which each node's row starts, of its counts or of its arcs.
fn starts_of(net: &[u32], sheet: &[u32], counts: bool) -> [u16; 128]
    requires { Readable net.now sheet.now }
    ensures { StartsOf net.now sheet.now counts result }
{
    let nodes = sheet[0];
    let entries = sheet[1] as usize;
    let mut starts = [0u16; 128];
    for n in 0..nodes {
        let key = first_key(net, sheet, counts, n);
        starts[n as usize] = table::lower_bound(sheet, 2, entries, key) as u16;
    }
    starts
}

// Whether the rows of n and m agree. `level` says that both have arcs by the same transitions, so that only the targets need be compared.
fn nodes_agree(
    net: &[u32],
    sheet: &[u32],
    starts: &[u16; 128],
    classes: &[u8; 128],
    counts: bool,
    level: bool,
    n: u32,
    m: u32,
) -> bool
    requires { TwoRows net.now sheet.now starts.now classes.now counts level n m }
    ensures { result ≡ rows_alike (graph (petri_net net.now) sheet.now) counts (class_in classes.now) n m }
{
    let i = starts[n as usize] as usize;
    let j = starts[m as usize] as usize;
    if level {
        let end = starts[n as usize + 1] as usize;
        return targets_agree(sheet, classes, end - i, i, j);
    }
    let width = row_width(net, counts);
    let a = first_key(net, sheet, counts, n);
    let b = first_key(net, sheet, counts, m);
    rows_agree(sheet, classes, counts, width, a, b, i, j)
}

// The least node of n's class whose row agrees with n's. It is enough to try the least nodes of the new classes, of which the first is that of the old class.
fn leader(
    net: &[u32],
    sheet: &[u32],
    starts: &[u16; 128],
    classes: &[u8; 128],
    next: &[u8; 128],
    counts: bool,
    level: bool,
    n: u32,
) -> u32
    requires round { Round net.now sheet.now starts.now classes.now counts level }
    requires round_at { RoundAt net.now sheet.now classes.now next.now counts n }
    ensures { result ≡ leader_by (split (graph (petri_net net.now) sheet.now) counts (class_in classes.now)) n }
{
    let class = classes[n as usize];
    for m in class as u32..n {
        if classes[m as usize] == class && next[m as usize] == m as u8 {
            if nodes_agree(net, sheet, starts, classes, counts, level, m, n) {
                return m;
            }
        }
    }
    n
}

// One round: each class is split by the rows of its nodes.
fn round(
    net: &[u32],
    sheet: &[u32],
    starts: &[u16; 128],
    classes: &[u8; 128],
    counts: bool,
    level: bool,
) -> [u8; 128]
    requires { Round net.now sheet.now starts.now classes.now counts level }
    ensures { LeadersBy (split (graph (petri_net net.now) sheet.now) counts (class_in classes.now)) (node_count sheet.now) result }
{
    let nodes = sheet[0];
    let mut next = [0u8; 128];
    for n in 0..nodes {
        let found = leader(net, sheet, starts, classes, &next, counts, level, n);
        next[n as usize] = found as u8;
    }
    next
}

// Whether two tables have equal entries for the nodes. The loop has no early exit, so that several entries are compared at once.
fn same_tables(a: &[u8; 128], b: &[u8; 128], nodes: usize) -> bool
    requires { nodes ≤ 128 }
    ensures { result ≡ all (same_entry a.now b.now) nodes }
{
    let mut same = true;
    for n in 0..nodes {
        same &= a[n] == b[n];
    }
    same
}

// The table of classes: two nodes have the same entry exactly if they are equivalent.
pub(crate) fn classes(net: &[u32], sheet: &[u32]) -> [u8; 128]
    requires { Readable net.now sheet.now }
    ensures { Classes (graph (petri_net net.now) sheet.now) result }
{
    let nodes = sheet[0] as usize;
    let counts = starts_of(net, sheet, true);
    let arcs = starts_of(net, sheet, false);
    let one = [0u8; 128];
    let first = round(net, sheet, &counts, &one, true, false);
    let mut classes = round(net, sheet, &arcs, &first, false, false);
    for _round in 1..nodes {
        let next = round(net, sheet, &arcs, &classes, false, true);
        if same_tables(&classes, &next, nodes) {
            return classes;
        }
        classes = next;
    }
    classes
}
