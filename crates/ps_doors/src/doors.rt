//! Doors: where the connections of a service come from.

ghost use Rattle.std.specs.Prelude.{◌≡◌, ◌≤◌, ℕ, List, Option, IfOk, IfSome, OnOk, OnErr};
ghost use Rattle.ps_io.specs.Counts.{Rose};
ghost use Rattle.ps_doors.specs.Connections.{Connection, connection_of, with_closed, AreEnds, IsFresh, IsOut};
ghost use Rattle.ps_doors.specs.Doors.{opened_after, Comes};

use ps_data::Text;
use ps_io::{Failed, Sink, Source};

/// What hands out connections, as a socket that listens.
pub trait Doors {
    /// The source of a connection: what its peer sends.
    type In: Source;

    /// The sink of a connection: what is sent to its peer.
    type Out: Sink;

    /// Which doors these are, for who lends them by value. No call changes it.
    ghost place: { Self → ℕ } = { λ _. 0 };

    /// How many connections were handed out.
    ghost opened: { Self → ℕ };

    /// The bytes that the source of each connection to come will have, in order, where that is told.
    ghost coming: { Self → Option (List (List ℕ)) };

    /// The connections that were closed, the latest last, where that is told.
    ghost closed: { Self → Option (List Connection) };

    /// How often the doors have failed.
    ghost faults: { Self → ℕ };

    /// Begins to listen at an address, a host and a port. `Failed` comes only where the count of faults rose; a success leaves it as it was.
    fn listen(&mut self, address: &Text) -> Result<(), Failed>
        ensures place { place self.new ≡ place self.old }
        ensures opened { opened self.new ≡ opened self.old }
        ensures coming { coming self.new ≡ coming self.old }
        ensures closed { closed self.new ≡ closed self.old }
        ensures failed { OnErr result (Rose (faults self.old) (faults self.new)) }
        ensures faults { faults self.old ≤ faults self.new }
        ensures quiet { OnOk result (faults self.new ≡ faults self.old) };

    /// The next connection, or none where none is to come. Nothing has passed through it, neither end has failed, and both ends have one number:
    /// how many connections were handed out before it. `Failed` comes only where the count of faults rose, and hands out none; each other answer
    /// leaves the count as it was.
    fn next(&mut self) -> Result<Option<(Self::In, Self::Out)>, Failed>
        ensures place { place self.new ≡ place self.old }
        ensures opened { opened self.new ≡ opened_after (opened self.old) result }
        ensures ends { IfOk result (λ next. IfSome next (λ c.
            AreEnds Self.In.Source Self.Out.Sink (opened self.old) c.0 c.1)) }
        ensures fresh { IfOk result (λ next. IfSome next (λ c.
            IsFresh Self.In.Source Self.Out.Sink (closed self.old) (opened self.old) c.0 c.1)) }
        ensures coming { Comes Self.In.Source (coming self.old) (coming self.new) result }
        ensures closed { closed self.new ≡ closed self.old }
        ensures failed { OnErr result (Rose (faults self.old) (faults self.new)) }
        ensures faults { faults self.old ≤ faults self.new }
        ensures quiet { OnOk result (faults self.new ≡ faults self.old) };

    /// Takes back a connection that is out. It takes no memory, and no count rises.
    fn close(&mut self, from: Self::In, to: Self::Out)
        requires one { Self.Out.number to ≡ Self.In.number from }
        requires out { IsOut (Self.In.number from) (opened self.old) (closed self.old) }
        ensures place { place self.new ≡ place self.old }
        ensures opened { opened self.new ≡ opened self.old }
        ensures coming { coming self.new ≡ coming self.old }
        ensures closed { closed self.new
            ≡ with_closed (closed self.old) (connection_of Self.In.Source Self.Out.Sink from to) }
        ensures faults { faults self.new ≡ faults self.old };

    /// How often the doors have failed. It never falls.
    fn door_faults(&self) -> u64
        ensures { result ≡ faults self.now };
}
