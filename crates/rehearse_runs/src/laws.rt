ghost use Rattle.std.specs.Prelude.{ℕ};
ghost use Rattle.rehearse_runs.specs.Agrees.{Agrees};
ghost use Rattle.rehearse_plan.specs.Words.{Asked};
ghost use Rattle.rehearse_runs.specs.Served.{MemEnded, ServedAsPlanned, WasServed};
ghost use Rattle.session_core.specs.Diaries.{noted};

/// What agrees with a plan by its diaries agrees by its connections: each bay's had the exchanges that were planned for it.
pub fn planned_requests_were_served<R>()
    ensures { (bays : ℕ) (plan : Asked) (ended : MemEnded) (was : WasServed R bays plan ended)
        → Agrees noted plan.start plan.count bays ended → ServedAsPlanned R bays plan ended was }
{}
