// What the sinks are due at a stage.
ghost use Rattle.std.specs.Prelude.{◌≡◌, ◌≢◌, ◌≤◌, ◌++◌, ◌∷◌, [], ℕ, Bool, List, map, IfOk, OnOk};
ghost use Rattle.audit_core.specs.Offers as offers;
ghost use Rattle.event_offers.specs.Offering.{IsShort};
ghost use Rattle.front_base.specs.declared.line.TheConstants.{MOST_LINE_BYTES};
ghost use Rattle.model_sinks.specs.Fixed.{setup_of};
ghost use Rattle.stage_event.specs.declared.facts.Kept.{Kept};
ghost use Rattle.truncate_backend.specs.Fits.{fitted};
ghost use Rattle.model_worlds.specs.Steps as spec;

use audit_core::{Settings, Sink, SinkMode, omits};
use front_base::{Level, NoMemory, Stage};
use model_sinks::CoreSetup;
use model_worlds::{Items, Waiting};
use policy_rules::decide;
use stage_event::{Event, Facts, event_at};
use std::alloc::Global;
use truncate_backend::{Fit, fit, what_fits};

// What is written of an event, which is short enough for a line.
fn short_fit(alloc: Global, settings: &Settings, event: &Event) -> Result<Fit, NoMemory>
    requires max { settings.now.max_event ≤ MOST_LINE_BYTES }
    ensures is { IfOk result (λ own. own ≡ fitted event.now settings.now.max_event) }
    ensures short { IfOk result IsShort }
{
    what_fits();
    fit(alloc, event, settings.max_event)
}

// Adds what a sink is due of an event, where it is on.
fn push_due(
    alloc: Global,
    settings: &Settings,
    event: &Event,
    sink: Sink,
    mode: SinkMode,
    dues: &mut Vec<Waiting>,
) -> Result<(), NoMemory>
    requires mode { mode ≡ offers.mode_of settings.now sink }
    requires max { settings.now.max_event ≤ MOST_LINE_BYTES }
    ensures { OnOk result (dues.new.items
        ≡ dues.old.items ++ map (offers.due_at settings.now event.now) (offers.when_on settings.now sink)) }
{
    if mode.is_on() {
        let fit = short_fit(alloc, settings, event)?;
        let stage = event.stage;
        dues.push(Waiting { sink, stage, fit })?;
    }
    Ok(())
}

// What the sinks are due of an event, the log before the webhook.
fn event_dues(alloc: Global, settings: &Settings, event: &Event) -> Result<Items<Waiting>, NoMemory>
    requires max { settings.now.max_event ≤ MOST_LINE_BYTES }
    ensures { IfOk result (λ dues. dues ≡ offers.offers_due settings.now (event.now ∷ [])) }
{
    let mut dues = Vec::new(alloc);
    push_due(alloc, settings, event, Sink::Log, settings.log, &mut dues)?;
    push_due(
        alloc,
        settings,
        event,
        Sink::Webhook,
        settings.hook,
        &mut dues,
    )?;
    Ok(Items::new(dues))
}

fn recorded_dues(
    alloc: Global,
    setup: &CoreSetup,
    stage: Stage,
    level: Level,
    facts: &Facts,
) -> Result<Items<Waiting>, NoMemory>
    requires level { level ≢ Level.None }
    requires stage { stage ≢ Stage.Panic }
    ensures { IfOk result (λ dues. dues ≡ offers.offers_due setup.now.settings
        (spec.event_unless_omitted setup.now.settings.policy stage level facts.now)) }
{
    let settings = setup.settings();
    if omits(
        decide(&settings.policy, &facts.user, &facts.info).omit,
        stage,
    ) {
        return Ok(Items::new(Vec::new(alloc)));
    }
    let event = event_at(alloc, stage, level, facts)?;
    event_dues(alloc, settings, &event)
}

/// What the sinks are due of an exchange at a stage, by what is known of it.
#[tactic(auto, unfolding(model_worlds::specs::Steps::due))]
pub fn due(
    alloc: Global,
    setup: &CoreSetup,
    stage: Stage,
    level: Level,
    facts: &Facts,
) -> Result<Items<Waiting>, NoMemory>
    requires { stage ≢ Stage.Panic }
    ensures { IfOk result (λ dues. (keep : Bool → List ℕ → Kept)
        → dues ≡ spec.due (setup_of setup.now keep) stage level facts.now) }
{
    match level {
        Level::None => Ok(Items::new(Vec::new(alloc))),
        level => recorded_dues(alloc, setup, stage, level, facts),
    }
}
