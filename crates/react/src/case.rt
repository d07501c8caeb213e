// The best case and the worst one: which of two times is told.
ghost use Rattle.std.specs.Prelude.{◌≡◌};
ghost use Rattle.react.specs.Cases.{pick_of, start_of};

#[derive(Clone, Copy)]
pub(crate) enum Case {
    Best,
    Worst,
}

impl Case {
    // The earlier of two times at best, the later at worst.
    pub(crate) fn pick(self, a: u32, b: u32) -> u32
        ensures { result ≡ pick_of self a b }
    {
        match self {
            Case::Best => a.min(b),
            Case::Worst => a.max(b),
        }
    }

    // The time with which a loop over arcs begins: the time of any arc is picked in its place.
    pub(crate) fn start(self) -> u32
        ensures { result ≡ start_of self }
    {
        match self {
            Case::Best => u32::MAX,
            Case::Worst => 0,
        }
    }
}
