// An accepted schedule, and the arcs of each of its nodes as the run of their entries.
ghost use Rattle.std.specs.Prelude.{◌≡◌, ◌+◌, ◌*◌, ◌-◌, ◌≤◌, ◌<◌, get_or};
ghost use Rattle.refusal.specs.Limits.{most_nodes};
ghost use Rattle.net.specs.Net.{transition_count};
ghost use Rattle.sequential.specs.Words.{node_count, entry_count, entry_key, entry_value};
ghost use Rattle.graph.specs.Readable.{ArcsReadable};
ghost use Rattle.reaction.specs.Call.{sheet_await};
ghost use Rattle.react.specs.Rows.{IsNode, Starts, Judged};

// The words, the entries at which each node's arcs begin, and a mark at each await node.
#[derive(Clone, Copy)]
pub(crate) struct Schedule<'a> {
    pub(crate) net: &'a [u32],
    pub(crate) sheet: &'a [u32],
    pub(crate) starts: [u16; 129],
    pub(crate) awaits: [u8; 128],
    ghost judged: { Judged net.now sheet.now starts awaits },
}

impl<'a> Schedule<'a> {
    // How many nodes there are.
    pub(crate) fn nodes(&self) -> usize
        ensures size { result ≡ node_count self.now.sheet.now }
        ensures few { result ≤ most_nodes }
    {
        self.sheet[0] as usize
    }

    // Whether node n is an await node (§5.4).
    pub(crate) fn is_await(&self, n: usize) -> bool
        requires { IsNode self.now.sheet.now n }
        ensures { result ≡ sheet_await self.now.net.now self.now.sheet.now n }
    {
        0 < self.awaits[n]
    }

    // The entry at which the arcs of node n begin.
    pub(crate) fn start(&self, n: usize) -> usize
        requires { IsNode self.now.sheet.now n }
        ensures { result ≡ get_or self.now.starts n 0 }
    {
        self.starts[n] as usize
    }

    // The entry after the arcs of node n.
    pub(crate) fn end(&self, n: usize) -> usize
        requires { IsNode self.now.sheet.now n }
        ensures { result ≡ get_or self.now.starts (n + 1) 0 }
    {
        self.starts[n + 1] as usize
    }

    // The first key of the arcs of node n (§3.5).
    pub(crate) fn first_key(&self, n: usize) -> u32
        requires { IsNode self.now.sheet.now n }
        ensures { result ≡ n * transition_count self.now.net.now }
    {
        graph::arcs_start(self.net, n as u32)
    }

    // The transition of the arc at entry i, from a node whose first key is given.
    pub(crate) fn transition(&self, first: u32, i: usize) -> usize
        requires is_entry { i < entry_count self.now.sheet.now }
        requires first_bound { first ≤ entry_key self.now.sheet.now i }
        ensures { result ≡ entry_key self.now.sheet.now i - first }
    {
        (self.sheet[2 + i] - first) as usize
    }

    // The node that the arc at entry i leads to.
    pub(crate) fn leads_to(&self, i: usize) -> usize
        requires { i < entry_count self.now.sheet.now }
        ensures { result ≡ entry_value self.now.sheet.now i }
    {
        self.sheet[2 + self.sheet[1] as usize + i] as usize
    }
}

// The entry at which each node's arcs begin, and the one after all arcs.
pub(crate) fn starts(net: &[u32], sheet: &[u32]) -> [u16; 129]
    requires { ArcsReadable net.now sheet.now }
    ensures { Starts net.now sheet.now result }
{
    let nodes = sheet[0];
    let entries = sheet[1] as usize;
    let mut starts = [0u16; 129];
    for n in 0..nodes {
        let first = graph::arcs_start(net, n);
        starts[n as usize] = table::lower_bound(sheet, 2, entries, first) as u16;
    }
    starts[nodes as usize] = graph::arc_count(net, sheet) as u16;
    starts
}
