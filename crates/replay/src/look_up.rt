// The look-up of a firing's arc, mostly without a search. Each node of an accepted schedule offers one whole choice set (§6.3), so that a transition's arc has
// the same rank in every row that has one. The entry of that rank is guessed and its key compared: keys rise, so the entry with the key is the arc's. A wrong guess is searched for, and its rank kept.
ghost use Rattle.std.specs.Prelude.{◌≡◌};
ghost use Rattle.graph.specs.Readable.{ArcsReadable};
ghost use Rattle.graph.specs.LookUp.{arc_look_up};
ghost use Rattle.sequential.specs.Words.{entry_value};
ghost use Rattle.replay.specs.LookUp.{FirstKeys, ArcStarts, LooksUp, Ranks, EntryThere};

// The key at which the row of each node's arcs begins, as the page of row starts has it (§3.9).
pub(crate) fn first_keys(net: &[u32], sheet: &[u32]) -> [u16; 128]
    requires { ArcsReadable net.now sheet.now }
    ensures { FirstKeys net.now sheet.now result }
{
    let nodes = sheet[0];
    let mut keys = [0u16; 128];
    for n in 0..nodes {
        let first = graph::arcs_start(net, n);
        keys[n as usize] = first as u16;
    }
    keys
}

// The entry at which each node's arcs begin.
pub(crate) fn arc_starts(net: &[u32], sheet: &[u32], keys: &[u16; 128]) -> [u16; 128]
    requires arcs_readable { ArcsReadable net.now sheet.now }
    requires first_keys { FirstKeys net.now sheet.now keys.now }
    ensures { ArcStarts net.now sheet.now result }
{
    let nodes = sheet[0];
    let entries = sheet[1] as usize;
    let mut starts = [0u16; 128];
    for n in 0..nodes {
        let start = table::lower_bound(sheet, 2, entries, keys[n as usize] as u32);
        starts[n as usize] = start as u16;
    }
    starts
}

// The entry of the arc by t at a node, guessed by the rank at which t was last found. If the guess fails, the arc is looked up, and the rank kept.
pub(crate) fn arc(
    net: &[u32],
    sheet: &[u32],
    keys: &[u16; 128],
    starts: &[u16; 128],
    ranks: &mut [u16; 32],
    transitions: u32,
    node: u32,
    t: u32,
) -> Option<usize>
    requires looks_up { LooksUp net.now sheet.now keys.now starts.now transitions node }
    requires ranks { Ranks ranks.old }
    ensures { (result ≡ arc_look_up net.now sheet.now node t) × Ranks ranks.new }
{
    // t is no transition, so no node offers it: §3.7
    if transitions <= t {
        return None;
    }
    let start = starts[node as usize] as usize;
    let guess = start + ranks[t as usize] as usize;
    if guess < sheet[1] as usize {
        if sheet[2 + guess] == keys[node as usize] as u32 + t {
            return Some(guess);
        }
    }
    let found = graph::arc(net, sheet, node, t);
    if let Some(e) = found {
        ranks[t as usize] = (e - start) as u16;
    }
    found
}

// The node that the arc of an entry leads to.
pub(crate) fn arc_target(sheet: &[u32], e: usize) -> u32
    requires { EntryThere sheet.now e }
    ensures { result ≡ entry_value sheet.now e }
{
    sheet[2 + sheet[1] as usize + e]
}
