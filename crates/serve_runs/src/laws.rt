ghost use Rattle.std.specs.Prelude.{List, Option};
ghost use Rattle.audit_core.specs.declared.settings.Settings.{Settings};
ghost use Rattle.front_plants.specs.declared.call.PlantCall.{PlantCall};
ghost use Rattle.serve_bays.specs.declared.options.RunOptions.{RunOptions};
ghost use Rattle.serve_runs.specs.Made.{RunCallsPart};

use serve_bays::calls_in_part;

/// No call is some of the calls of a run.
pub fn no_calls_yet()
    ensures { (set : Settings) (options : RunOptions) (a : Option (List PlantCall)) → RunCallsPart set options a a }
{
    calls_in_part();
}
