ghost use Rattle.std.specs.Prelude.{◌≡◌, ℕ, List, [], Some, IfSome};
ghost use Rattle.audit_core.specs.Offers.{Due};
ghost use Rattle.audit_core.specs.declared.offers.OfferNote.{OfferNote};
ghost use Rattle.audit_core.specs.declared.settings.Settings.{Settings};
ghost use Rattle.audit_core.specs.declared.sinks.Sink.{Sink};
ghost use Rattle.connection_laws.specs.Whole.{Tells, CanLeave, count_of, is_full, is_failure, requests_in};
ghost use Rattle.event_offers.specs.Lanes.{LanesState};
ghost use Rattle.event_offers.specs.Offering.{OffersAll};
ghost use Rattle.event_offers.specs.Taken.{lane_of};
ghost use Rattle.http_edge.specs.Requests.{IsRequests};
ghost use Rattle.http_edge.specs.declared.request.End.{End};
ghost use Rattle.session_core.specs.Bays.{BayState};
ghost use Rattle.session_core.specs.Connection.{ConnState, Serves};
ghost use Rattle.session_core.specs.declared.conn_end.ConnEnd.{ConnEnd};
ghost use Rattle.session_core.specs.declared.conn_end.ConnEnd.TheVariants.{Stopped};
ghost use Rattle.session_core.specs.declared.exchange.Exchange.{Exchange};
ghost use Rattle.truncate_backend.specs.Told.{CountsBy};

use event_offers::offers_join;

/// However a connection ends, all exchanges that it had are noted in order, and what they were offered is all that the lanes were
/// offered meanwhile. Nothing that is due is left out, but where memory ran out: then a rest of the last one's.
pub fn a_connection_is_told_whole()
    ensures { (set : Settings) (peer : List ℕ) (m n : BayState) (c d : ConnState) (end : ConnEnd) (xs : List Exchange)
        → Serves set peer m n c d end xs
        → (rest : List Due) × Tells set m n xs rest × CanLeave end rest }
{
    offers_join();
}

/// A connection that tells that it wishes nothing has all requests of its input served, in order, where it ends with what comes
/// after them.
pub fn a_content_connection_has_all_requests_served()
    ensures { (set : Settings) (peer : List ℕ) (m n : BayState) (c d : ConnState) (end : End) (xs : List Exchange)
        → Serves set peer m n c d (Stopped end) xs → c.wishes ≡ Some []
        → IfSome c.left (λ input. IsRequests input (requests_in xs) end) }
{}

/// Of the offers to a sink as many are noted as Full, and as Failed, as the counts of its lane grew by, as far as these counts go:
/// each stays at the last value of its type.
pub fn refusals_are_counted()
    ensures full { (sink : Sink) (dues : List Due) (m n : LanesState) (notes : List OfferNote)
        → OffersAll dues m notes n
        → CountsBy (lane_of sink m).tells.fulls (count_of is_full sink notes) (lane_of sink n).tells.fulls }
    ensures failed { (sink : Sink) (dues : List Due) (m n : LanesState) (notes : List OfferNote)
        → OffersAll dues m notes n
        → CountsBy (lane_of sink m).tells.faults (count_of is_failure sink notes) (lane_of sink n).tells.faults }
{}
