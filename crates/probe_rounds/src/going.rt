// Whether rounds go on.
ghost use Rattle.std.specs.Prelude.{◌≡◌, ◌+◌, ◌-◌, ◌^◌, min, ℕ, true, false};
ghost use Rattle.front_ports.specs.Cause.{Rose};

/// Says whether rounds of probes go on.
pub trait Going {
    /// How often it was asked: at 2^64 - 1 the count stands.
    ghost asked: { Self → ℕ };

    /// How often it answered that they don't. It never falls.
    ghost noes: { Self → ℕ };

    fn goes_on(&mut self) -> bool
        ensures asked { asked self.new ≡ min (asked self.old + 1) (2 ^ 64 - 1) }
        ensures yes { result ≡ true → noes self.new ≡ noes self.old }
        ensures no { result ≡ false → Rose (noes self.old) (noes self.new) };
}

/// It answers so many times that they go on, and then that they don't.
#[derive(Debug, Drop)]
pub struct GoesFor {
    left: u64,
    asked: u64,
    noes: u64,
}

impl GoesFor {
    pub fn new(left: u64) -> GoesFor {
        GoesFor {
            left,
            asked: 0,
            noes: 0,
        }
    }
}

impl Going for GoesFor {
    ghost asked = { λ g. g.asked };

    ghost noes = { λ g. g.noes };

    fn goes_on(&mut self) -> bool {
        self.asked = self.asked.saturating_add(1);
        if self.left > 0 {
            self.left -= 1;
            return true;
        }
        self.noes = self.noes.saturating_add(1);
        false
    }
}
