//! How long a source waits for what its peer sends.

ghost use Rattle.std.specs.Prelude.{◌≡◌, ◌-◌, ◌≤◌, ◌<◌, IfSome, IfNone};

use std::time::{Clock, Instant};

/// How long a source waits: so many seconds for each part of so many bytes. Without a clock it does not wait.
#[derive(Clone, Copy, Debug)]
pub(crate) struct Patience {
    seconds: u64,
    bytes: u64,
    came: u64,
    since: Option<Instant>,
}

/// What is left of so many seconds, where so many are gone: at least one.
fn left_of(seconds: u64, gone: u64) -> Option<u64>
    ensures some { IfSome result (λ left. (0 < left) × (left ≡ seconds - gone)) }
    ensures none { IfNone result (seconds ≤ gone) }
{
    if gone < seconds {
        Some(seconds - gone)
    } else {
        None
    }
}

impl Patience {
    /// The wait for the first part begins.
    pub(crate) fn new<C: Clock>(clock: &C, seconds: u64, bytes: u64) -> Patience {
        Patience {
            seconds,
            bytes,
            came: 0,
            since: Instant::now(clock).ok(),
        }
    }

    /// For how many seconds it still waits, if at all.
    pub(crate) fn left<C: Clock>(&self, clock: &C) -> Option<u64>
        ensures { IfSome result (λ left. (0 < left) × (left ≤ self.now.seconds)) }
    {
        let since = self.since?;
        let gone = since.elapsed(clock).ok()?;
        left_of(self.seconds, gone.as_secs())
    }

    /// Bytes came. Where they end a part, the wait for the next one begins.
    pub(crate) fn took<C: Clock>(&mut self, clock: &C, count: usize)
        ensures { self.new.seconds ≡ self.old.seconds }
    {
        self.came = self.came.saturating_add(count as u64);
        if self.came >= self.bytes {
            self.came = 0;
            self.since = Instant::now(clock).ok();
        }
    }
}
