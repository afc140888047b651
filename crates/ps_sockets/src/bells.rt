//! The bell of workers that are threads.

ghost use Rattle.std.specs.Prelude.{◌≡◌, ◌≤◌};

use ps_doors::Bell;
use std::sync::Wait;
use std::sync::atomic::{AtomicU64, Ordering};
use std::time::{Clock, Duration, Instant};

/// For how many seconds `wait` waits at most.
const MOST: u64 = 20;

/// What all bells of one service share: how often one was rung, and whether one was closed.
#[derive(Drop)]
pub struct Rings {
    rung: AtomicU64,
    shut: AtomicU64,
}

impl Rings {
    /// Not rung yet, and not closed.
    pub fn new() -> Rings {
        Rings {
            rung: AtomicU64::new(0),
            shut: AtomicU64::new(0),
        }
    }

    // Sleeps until the number of rings is not `seen` any more, or for so long at most; it may wake earlier.
    fn sleep<R: Wait>(&self, rt: &R, seen: u64, most: Duration) {
        self.rung
            .park_timeout(rt, (seen & 0xffff_ffff) as u32, most);
    }
}

/// One worker's bell. Its count of closings is its own; what is rung and closed it shares. `wait` waits for twenty seconds at most.
#[derive(Drop)]
pub struct RungBell<'a, R> {
    rt: &'a R,
    rings: &'a Rings,
    told: u64,
    closings: u64,
}

impl<'a, R: Wait + Clock> RungBell<'a, R> {
    /// A bell of these rings.
    pub fn new(rt: &'a R, rings: &'a Rings) -> RungBell<'a, R>
        ensures told { ⟦<RungBell<'a, R> as Bell>⟧.told result ≡ 0 }
        ensures closings { ⟦<RungBell<'a, R> as Bell>⟧.closings result ≡ 0 }
    {
        RungBell {
            rt,
            rings,
            told: 0,
            closings: 0,
        }
    }

    /// Another bell of the same rings, with a count of its own.
    pub fn another(&self) -> RungBell<'a, R>
        ensures told { ⟦<RungBell<'a, R> as Bell>⟧.told result ≡ 0 }
        ensures closings { ⟦<RungBell<'a, R> as Bell>⟧.closings result ≡ 0 }
    {
        RungBell::new(self.rt, self.rings)
    }

    // How long it still waits that began to wait then. Without a clock it sleeps once.
    fn left(&self, since: Option<Instant>) -> Option<Duration> {
        let gone = since?.elapsed(self.rt).ok()?;
        Duration::from_secs(MOST).checked_sub(gone)
    }
}

impl<'a, R: Wait + Clock> Bell for RungBell<'a, R> {
    ghost told = { λ bell. bell.told };

    ghost closings = { λ bell. bell.closings };

    fn heard(&self) -> u64 {
        self.rings.rung.load(Ordering::SeqCst).max(self.told)
    }

    fn wait(&mut self, after: u64) -> u64 {
        let since = Instant::now(self.rt).ok();
        let mut most = Duration::from_secs(MOST);
        'naps: for _ in 0..u64::MAX {
            let seen = self.rings.rung.load(Ordering::SeqCst);
            if seen > after {
                break;
            }
            self.rings.sleep(self.rt, seen, most);
            match self.left(since) {
                Some(left) => most = left,
                None => break,
            }
        }
        self.told = self.heard().max(after);
        self.told
    }

    fn ring(&mut self) {
        self.rings.rung.fetch_add(1, Ordering::SeqCst);
        self.rings.rung.wake_all();
    }

    fn close(&mut self) {
        self.rings.shut.store(1, Ordering::SeqCst);
        self.ring();
    }

    fn closed(&mut self) -> bool {
        if self.rings.shut.load(Ordering::SeqCst) == 0 || self.closings == u64::MAX {
            return false;
        }
        self.closings += 1;
        true
    }

    fn closings(&self) -> u64 {
        self.closings
    }
}
