// The arc that an entry says.
ghost use Rattle.sequential.specs.Petri.{petri_net};
ghost use Rattle.graph.specs.Readable.{ArcsReadable};
ghost use Rattle.mend.specs.Search.{IsArc};
ghost use Rattle.mend.specs.Places.{ArcRead};

#[derive(Clone, Copy)]
pub(crate) struct Arc {
    pub node: usize,
    pub transition: usize,
    pub target: usize,
}

pub(crate) fn arc_at(net: &[u32], sheet: &[u32], e: usize) -> Arc
    requires arcs_readable { ArcsReadable net.now sheet.now }
    requires arc { IsArc (petri_net net.now) sheet.now e }
    ensures { ArcRead (petri_net net.now) sheet.now e result.node result.transition result.target }
{
    let transitions = net::transitions(net);
    let entries = sheet[1] as usize;
    let key = sheet[2 + e];
    Arc {
        node: (key / transitions) as usize,
        transition: (key % transitions) as usize,
        target: sheet[2 + entries + e] as usize,
    }
}
