ghost use Rattle.std.specs.Prelude.{◌≡◌, ◌≤◌, ◌<◌, ℕ, List, Option};
ghost use Rattle.apiservice_rows.specs.Row.{Row};
ghost use Rattle.command_ends.specs.Ports.{FilesPort, Port};
ghost use Rattle.command_ends.specs.declared.status.Status.{Status};
ghost use Rattle.explain_run.specs.Desk.{Configures, Run};
ghost use Rattle.explain_run.specs.Serving.{Serves};
ghost use Rattle.explain_run.specs.declared.setup.Setup.{Setup};
ghost use Rattle.front_base.specs.declared.moment.TheConstants.{MOMENT_END};
ghost use Rattle.refusal_text.specs.declared.refusal.Refusal.{Refusal};
ghost use Rattle.request_bounds.specs.Bounds.{line_limit};

use exchange_replies::statuses_are_final;
use request_bounds::no_event_is_too_large;

/// Where lines may have `line_limit` bytes, a run of `explain` counts no event as too large, however it ended.
pub fn no_event_of_explain_is_too_large()
    ensures served { (set : Setup) (rows : List Row) (input output : Port) (large : ℕ) (status : Status)
        → Serves set rows input output large status → line_limit set.settings.tokens ≤ set.settings.max_event → set.moment < MOMENT_END
        → large ≡ 0 }
    ensures run { (words : List (List ℕ)) (files : FilesPort) (input output : Port) (status : Status) (why : Option Refusal) (large : ℕ)
        → Run words files input output status why large
        → ((set : Setup) (rows : List Row) → Configures words files.before.told set rows → line_limit set.settings.tokens ≤ set.settings.max_event)
        → ((set : Setup) (rows : List Row) → Configures words files.before.told set rows → set.moment < MOMENT_END)
        → large ≡ 0 }
{
    statuses_are_final();
    no_event_is_too_large();
}
