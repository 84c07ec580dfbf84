// What a bell knows while nobody else looks at it.
ghost use Rattle.std.specs.Prelude.{◌≡◌, true};
ghost use Rattle.event_gate.specs.Bell.{after_leave, after_park, after_ring, silent};

/// Whether the bell has rung since the last park, and how many posters have left.
#[derive(Drop)]
pub(crate) struct Rung {
    pub(crate) set: bool,
    pub(crate) gone: u32,
}

impl Rung {
    /// Not rung, and nobody has left.
    pub(crate) fn silent() -> Rung
        ensures { result ≡ silent }
    {
        Rung {
            set: false,
            gone: 0,
        }
    }

    /// The flag is set.
    pub(crate) fn ring(&mut self)
        ensures { self.new ≡ after_ring self.old }
    {
        self.set = true;
    }

    /// One poster more has left, as far as a u32 counts, and the flag is set.
    pub(crate) fn leave(&mut self)
        ensures { self.new ≡ after_leave self.old }
    {
        self.gone = self.gone.saturating_add(1);
        self.set = true;
    }

    /// A park spends the rings before it: the flag, which was set, is cleared.
    pub(crate) fn spend(&mut self)
        requires { self.old.set ≡ true }
        ensures { self.new ≡ after_park self.old }
    {
        self.set = false;
    }
}
