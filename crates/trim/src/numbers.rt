// New numbers (§10.36): the nodes that the root leads to are counted in their old order.
ghost use Rattle.std.specs.Prelude.{◌≤◌};
ghost use Rattle.graph.specs.Readable.{Readable};
ghost use Rattle.reach.specs.Reach.{is_marked};
ghost use Rattle.trim.specs.Tables.{Numbered, NewNodes};

// For each node 1 plus its new number, 0 for one that is dropped; and how many are kept.
#[derive(Clone, Copy)]
pub(crate) struct Numbers {
    pub cells: [u8; 128],
    pub found: usize,
}

// Numbers the marked nodes in rising order.
fn ranks(marks: [u8; 128], nodes: usize) -> Numbers
    requires { nodes ≤ 128 }
    ensures { Numbered (is_marked marks) nodes result.cells result.found }
{
    let mut cells = [0u8; 128];
    let mut found: usize = 0;
    for n in 0..nodes {
        if 0 < marks[n] {
            found += 1;
            cells[n] = found as u8;
        }
    }
    Numbers { cells, found }
}

// The nodes that the root reaches, numbered so; the words have passed 1 to 9 and 26.
pub(crate) fn kept(net: &[u32], sheet: &[u32]) -> Numbers
    requires { Readable net.now sheet.now }
    ensures { NewNodes net.now sheet.now result.cells result.found }
{
    ranks(reach::reached(net, sheet), sheet[0] as usize)
}
