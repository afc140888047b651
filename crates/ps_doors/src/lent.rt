//! Doors that are lent, as a value.

ghost use Rattle.std.specs.Prelude.{◌≡◌};

use crate::Doors;
use ps_data::Text;
use ps_io::Failed;

/// Doors behind a reference, as a value that a closure may hold and give back. Their place is the reference's own, so that its holder knows them
/// again. Doors that are lent twice, one loan in another, are not known again.
#[derive(Drop)]
pub struct Lent<'a, D> {
    /// The doors.
    pub doors: &'a mut D,
}

impl<'a, D: Doors> Doors for Lent<'a, D> {
    type In = D::In;

    type Out = D::Out;

    ghost place = { λ lent. lent.doors.ghost_name };

    ghost opened = { λ lent. D.opened lent.doors.now };

    ghost coming = { λ lent. D.coming lent.doors.now };

    ghost closed = { λ lent. D.closed lent.doors.now };

    ghost faults = { λ lent. D.faults lent.doors.now };

    fn listen(&mut self, address: &Text) -> Result<(), Failed> {
        self.doors.listen(address)
    }

    fn next(&mut self) -> Result<Option<(D::In, D::Out)>, Failed> {
        self.doors.next()
    }

    fn close(&mut self, from: D::In, to: D::Out) {
        self.doors.close(from, to)
    }

    fn door_faults(&self) -> u64 {
        self.doors.door_faults()
    }
}

/// Does nothing. That a reference which came back is used here ties it to the parameter that lent it.
pub fn take_back<T>(lent: &mut T)
    ensures { lent.new ≡ lent.old }
{}
