ghost use Rattle.std.specs.Prelude.{ℕ, List};
ghost use Rattle.apiservice_rows.specs.Row.{Row};
ghost use Rattle.audit_core.specs.Errand.{errand_in};
ghost use Rattle.audit_core.specs.Routing.{handling_of};
ghost use Rattle.audit_core.specs.declared.errand.Errand.{Errand};
ghost use Rattle.audit_core.specs.declared.settings.Settings.{Settings};
ghost use Rattle.http_edge.specs.declared.request.Request.{Request};
ghost use Rattle.service_endpoints.specs.declared.endpoint.Endpoint.{Endpoint};
ghost use Rattle.exchange_replies.specs.Statuses.{IsFinalErrand, IsFinalHandling};

/// What this server replies itself has a final status, whatever the request is, whenever it came and whatever the rows are.
pub fn statuses_are_final()
    ensures errand { (set : Settings) (r : Request) (moment : ℕ) → IsFinalErrand (errand_in set r moment) }
    ensures handling { (ends : List Endpoint) (rows : List Row) (own : Errand)
        → IsFinalErrand own → IsFinalHandling (handling_of ends rows own) }
{}
