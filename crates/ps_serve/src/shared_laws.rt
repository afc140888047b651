//! A law of connections over a history that others add to.

ghost use Rattle.ps_serve.specs.SharedLaws.{AnswersStay};

use ps_io::Clock;
use ps_store::{courses_are_lawful, places_are_fronts};
use ps_streams::{runs_go_on, sessions_keep_clients_right};

/// A law: what was answered for a connection over a history, with every cause of a status or an end, stays true of each legal history
/// that goes on from it, at whatever moments the clock may give.
pub fn answers_stay<C: Clock>(clock: &C)
    ensures { AnswersStay (C.may_give clock.now) }
{
    let _ = clock;
    sessions_keep_clients_right();
    courses_are_lawful();
    runs_go_on();
    places_are_fronts();
}
