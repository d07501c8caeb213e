// The numbers of an accepted schedule (§10.3), counted on the page.
ghost use Rattle.std.specs.Prelude.{◌≡◌, ◌≤◌};
ghost use Rattle.plainly.specs.Page.{net_on, graph_on};
ghost use Rattle.plainly.specs.Clauses.{arc_total, await_total};

use super::page::Page;

impl<'a> Page<'a> {
    // How many arcs there are.
    pub(crate) fn arc_count(&self) -> usize
        ensures is { result ≡ arc_total (net_on self.now) (graph_on self.now) }
        ensures few { result ≤ 4096 }
    {
        let mut arcs = 0;
        for n in 0..self.nodes() {
            for t in 0..self.transitions() {
                if self.offers(n, t) {
                    arcs += 1;
                }
            }
        }
        arcs
    }

    // How many await nodes there are.
    pub(crate) fn await_count(&self) -> usize
        ensures is { result ≡ await_total (net_on self.now) (graph_on self.now) }
        ensures few { result ≤ 128 }
    {
        (0..self.nodes()).filter(|n| self.is_await(*n)).count()
    }
}
