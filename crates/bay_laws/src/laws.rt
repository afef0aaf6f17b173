ghost use Rattle.std.specs.Prelude.{List};
ghost use Rattle.audit_core.specs.declared.settings.Settings.{Settings};
ghost use Rattle.bay_runs.specs.Runs.{ConnTells, ServedConn, Ran, ends_of, exchanges_of};
ghost use Rattle.bay_laws.specs.Whole.{TellsEach, TellsAll};
ghost use Rattle.session_core.specs.Bays.{BayState};

use connection_laws::a_connection_is_told_whole;
use event_offers::offers_join;

/// The exchanges of a door's connections are noted in order, connection after connection, and what they were offered is all
/// that the lanes were offered meanwhile. Nothing that is due is left out, but of connections that ran out of memory.
pub fn a_door_is_told_whole<C>()
    ensures { (tells : C → ConnTells) (set : Settings) (m n : BayState) (all : List (ServedConn C))
        → Ran tells set m all n
        → TellsEach set m all n × TellsAll set m n (ends_of all) (exchanges_of all) }
{
    a_connection_is_told_whole();
    offers_join();
}
