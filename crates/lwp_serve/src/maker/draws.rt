// Numbers that look random.
ghost use Rattle.std.specs.Prelude.{◌≡◌, ◌<◌};
ghost use Rattle.lwp_serve.specs.Maker.Draws.{next, draw_below};

/// The state from which numbers are drawn.
#[derive(Clone, Copy)]
pub struct Draws {
    pub state: u64,
}

impl Draws {
    /// A number below `n`.
    pub fn draw(&mut self, n: u64) -> u64
        requires { 0 < n }
        ensures state { self.new.state ≡ next self.old.state }
        ensures value { result ≡ draw_below n (next self.old.state) }
    {
        self.state = self
            .state
            .wrapping_mul(6_364_136_223_846_793_005)
            .wrapping_add(1_442_695_040_888_963_407);
        (self.state >> 33) % n
    }
}
