// The best or the worst time to the next await node (§10.47). A node's time follows from its arcs, an arc's from its target. Each node is worked out once.
ghost use Rattle.reaction.specs.Known.{Passed};
ghost use Rattle.react.specs.Times.{Entered, Opened, Worked, TimesOf};

use super::case::Case;
use super::durations::Durations;
use super::rows::Schedule;

// A schedule in which every run of busy nodes ends, and how long its transitions last.
#[derive(Clone, Copy)]
pub(crate) struct Timed<'a, 'w> {
    pub(crate) schedule: &'a Schedule<'w>,
    pub(crate) durations: Durations<'w>,
    ghost passed: { Passed schedule.now.net.now schedule.now.sheet.now durations.words.now },
}

impl<'a, 'w> Timed<'a, 'w> {
    // The time of node n. In the table, 0 is a node that was not visited, 1 a node whose arcs are being visited, and x + 2 a node whose time is x.
    #[cycle(time_of_arcs_time_of_node)]
    fn time_of_node(&self, case: Case, memo: &mut [u32; 128], n: usize) -> u32
        requires { Entered self.now.schedule.now.net.now self.now.schedule.now.sheet.now self.now.durations.words.now case n memo.old }
        ensures { Worked self.now.schedule.now.net.now self.now.schedule.now.sheet.now self.now.durations.words.now case n memo.old memo.new result }
    {
        if self.schedule.is_await(n) {
            return 0;
        }
        let kept = memo[n];
        if 0 < kept {
            return kept - 2;
        }
        memo[n] = 1;
        let time = self.time_of_arcs(case, memo, n);
        memo[n] = time + 2;
        time
    }

    // The time of busy node n, by its arcs.
    #[cycle(time_of_arcs_time_of_node)]
    fn time_of_arcs(&self, case: Case, memo: &mut [u32; 128], n: usize) -> u32
        requires { Opened self.now.schedule.now.net.now self.now.schedule.now.sheet.now self.now.durations.words.now case n memo.old }
        ensures { Worked self.now.schedule.now.net.now self.now.schedule.now.sheet.now self.now.durations.words.now case n memo.old memo.new result }
    {
        let schedule = self.schedule;
        let first = schedule.first_key(n);
        let mut time = case.start();
        for i in schedule.start(n)..schedule.end(n) {
            let t = schedule.transition(first, i);
            let m = schedule.leads_to(i);
            let ahead = self.time_of_node(case, memo, m);
            time = case.pick(time, self.durations.lasts(case, t) + ahead);
        }
        time
    }

    // The times of all nodes.
    pub(crate) fn times(&self, case: Case) -> [u32; 128]
        ensures { TimesOf self.now.schedule.now.net.now self.now.schedule.now.sheet.now self.now.durations.words.now case result }
    {
        let mut memo = [0u32; 128];
        let mut times = [0u32; 128];
        for n in 0..self.schedule.nodes() {
            times[n] = self.time_of_node(case, &mut memo, n);
        }
        times
    }
}
