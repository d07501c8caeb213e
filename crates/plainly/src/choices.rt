// Choice sets by the published rule, from nothing but what is taken; and what a node offers.
ghost use Rattle.std.specs.Prelude.{◌≡◌};
ghost use Rattle.sequential.specs.Tests.{is_source, takes_same, shares_place, free_choice, is_await, first_offered, offers_one_choice_set};
ghost use Rattle.plainly.specs.Page.{net_on, graph_on, IsFirstOffered};

use super::page::Page;

impl<'a> Page<'a> {
    // Whether t takes nothing: a source.
    fn is_source(&self, t: usize) -> bool
        ensures { result ≡ is_source (net_on self.now) t }
    {
        (0..self.places()).all(|p| self.taken(t, p) == 0)
    }

    // Whether t and u take the same from every place.
    fn takes_same(&self, t: usize, u: usize) -> bool
        ensures { result ≡ takes_same (net_on self.now) t u }
    {
        (0..self.places()).all(|p| self.taken(t, p) == self.taken(u, p))
    }

    // Whether there is a place on which both t and u draw.
    fn shares_place(&self, t: usize, u: usize) -> bool
        ensures { result ≡ shares_place (net_on self.now) t u }
    {
        (0..self.places()).any(|p| 0 < self.taken(t, p) && 0 < self.taken(u, p))
    }

    // Whether t's choice is free: every transition that draws on a place of t's takes the same as t.
    fn free_choice(&self, t: usize) -> bool
        ensures { result ≡ free_choice (net_on self.now) t }
    {
        (0..self.transitions()).all(|u| !self.shares_place(t, u) || self.takes_same(t, u))
    }

    // The first transition that a node offers.
    pub(crate) fn first_offered(&self, n: usize) -> Option<usize>
        ensures { IsFirstOffered (net_on self.now) (graph_on self.now) n result }
    {
        (0..self.transitions()).find(|t| self.offers(n, *t))
    }

    // Whether a node offers the choice set of t, all of it and nothing else. In the set are t itself and, if t's choice is free, all that take the same.
    pub(crate) fn offers_choice_of(&self, n: usize, t: usize) -> bool
        requires { t ≡ first_offered (net_on self.now) (graph_on self.now) n }
        ensures { result ≡ offers_one_choice_set (net_on self.now) (graph_on self.now) n }
    {
        let free = self.free_choice(t);
        (0..self.transitions()).all(|u| self.offers(n, u)
            == (t == u || self.takes_same(t, u) && free))
    }

    // Whether a node offers exactly the sources.
    pub(crate) fn is_await(&self, n: usize) -> bool
        ensures { result ≡ is_await (net_on self.now) (graph_on self.now) n }
    {
        (0..self.transitions()).all(|t| self.offers(n, t) == self.is_source(t))
    }
}
