/// Numbers that follow from a first one.
#[derive(Drop)]
pub struct Chance {
    state: u64,
}

impl Chance {
    /// The numbers that follow from a first one.
    pub fn of(seed: u64) -> Chance {
        Chance { state: seed }
    }

    /// A number below a limit, 0 where the limit is 0.
    pub fn below(&mut self, limit: u64) -> u64 {
        self.state = self
            .state
            .wrapping_mul(6364136223846793005)
            .wrapping_add(1442695040888963407);
        (self.state >> 33).checked_rem(limit).unwrap_or(0)
    }
}
