//! Bells: what workers ring where there is something new, and wait for.

ghost use Rattle.std.specs.Prelude.{◌≡◌, ◌≤◌, ◌<◌, ℕ, MatchBool};

/// What workers ring and wait for. It never fails. What others ring is not told.
pub trait Bell {
    /// A number of rings that it has told of. What it tells later is no less.
    ghost told: { Self → ℕ };

    /// How often it has answered that it is closed.
    ghost closings: { Self → ℕ };

    /// How often the bell was rung.
    fn heard(&self) -> u64
        ensures { told self.now ≤ result };

    /// Waits until the bell was rung more than `after` times, or for as long as it waits at most, and tells how often it was rung.
    /// It may wait.
    fn wait(&mut self, after: u64) -> u64
        ensures since { after ≤ result }
        ensures grows { told self.old ≤ result }
        ensures told { told self.new ≡ result }
        ensures closings { closings self.new ≡ closings self.old };

    /// Rings the bell.
    fn ring(&mut self)
        ensures told { told self.new ≡ told self.old }
        ensures closings { closings self.new ≡ closings self.old };

    /// Closes the bell, for all who share it.
    fn close(&mut self)
        ensures told { told self.new ≡ told self.old }
        ensures closings { closings self.new ≡ closings self.old };

    /// Whether the bell was closed, which counts each time it is so.
    fn closed(&mut self) -> bool
        ensures closings { MatchBool result
            (closings self.old < closings self.new)
            (closings self.new ≡ closings self.old) }
        ensures told { told self.new ≡ told self.old };

    /// How often it has answered that it is closed. It never falls.
    fn closings(&self) -> u64
        ensures { result ≡ closings self.now };
}

/// A bell that nobody rings and that is never closed. It never waits.
#[derive(Clone, Copy, Debug, PartialEq, Eq)]
pub struct QuietBell {
    told: u64,
}

impl QuietBell {
    /// A bell that was not rung.
    pub fn new() -> QuietBell
        ensures told { ⟦<QuietBell as Bell>⟧.told result ≡ 0 }
        ensures closings { ⟦<QuietBell as Bell>⟧.closings result ≡ 0 }
    {
        QuietBell { told: 0 }
    }
}

impl Bell for QuietBell {
    ghost told = { λ bell. bell.told };

    ghost closings = { λ _. 0 };

    fn heard(&self) -> u64 {
        self.told
    }

    fn wait(&mut self, after: u64) -> u64 {
        self.told = self.told.max(after);
        self.told
    }

    fn ring(&mut self) {}

    fn close(&mut self) {}

    fn closed(&mut self) -> bool {
        false
    }

    fn closings(&self) -> u64 {
        0
    }
}
