// The run limits: steps 0 to 1,000,000,000; depth 0 to 1,024; size 0 to 8,192.
ghost use Rattle.std.specs.Prelude.{◌≡◌};
ghost use Rattle.search.specs.RunLimits.{lent};

#[derive(Clone, Copy)]
pub struct Limits {
    pub steps: u64,
    pub depth: usize,
    pub size: usize,
}

impl Limits {
    pub const STEPS: u64 = 1_000_000_000;

    pub const DEPTH: usize = 1024;

    pub const SIZE: usize = 8192;

    // The three lent numbers as limits, where none is above its bound.
    pub fn new(steps: u64, depth: usize, size: usize) -> Option<Limits>
        ensures { result ≡ lent steps depth size }
    {
        if Self::STEPS < steps {
            return None;
        }
        if Self::DEPTH < depth {
            return None;
        }
        if Self::SIZE < size {
            return None;
        }
        Some(Limits { steps, depth, size })
    }
}
