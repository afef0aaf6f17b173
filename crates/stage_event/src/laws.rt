ghost use Rattle.std.specs.Prelude.{◌≡◌, ◌≢◌, ℕ, ◌≤◌, Bool, List, length, true, false};
ghost use Rattle.front_base.specs.Info.{is_long_running};
ghost use Rattle.front_base.specs.declared.info.Info.{Info};
ghost use Rattle.front_base.specs.declared.level.Level.{Level};
ghost use Rattle.front_base.specs.declared.level.Level.TheVariants as Level;
ghost use Rattle.front_base.specs.declared.stage.Stage.{Stage};
ghost use Rattle.front_base.specs.declared.stage.Stage.TheVariants as Stage;
ghost use Rattle.stage_event.specs.declared.facts.Facts.{Facts};
ghost use Rattle.stage_event.specs.declared.facts.Kept.{Kept};
ghost use Rattle.stage_event.specs.Kept.{IsKept, IsKeptAs};
ghost use Rattle.stage_event.specs.declared.keeping.TheConstants.{MOST_KEPT_BYTES};
ghost use Rattle.stage_event.specs.declared.show.Show.{Show};
ghost use Rattle.json_prune.specs.Prune.{managed};
ghost use Rattle.json_span.specs.Value.{Value, StandsFor};
ghost use Rattle.stage_event.specs.Begun.{as_begun, filled};
ghost use Rattle.stage_event.specs.Views.{view, with_bodies, with_start, with_info};
ghost use Rattle.stage_event.specs.Events.{event};

use json_span::one_value;

/// What a level hides reaches no event. At None that is all but the ID; at Metadata the bodies; at Request the reply's
/// body. At every level it is the body of a reply to a request that runs long, when the reply to any other request
/// started, and of a request that names no resource the bodies and all of its information but the path and the verb.
pub fn levels_hide()
    ensures none { (stage : Stage) (these those : Facts)
        → these.id ≡ those.id → event stage Level.None these ≡ event stage Level.None those }
    ensures metadata { (stage : Stage) (facts : Facts) (request reply : Kept)
        → event stage Level.Metadata (with_bodies request reply facts) ≡ event stage Level.Metadata facts }
    ensures request { (stage : Stage) (facts : Facts) (reply : Kept)
        → event stage Level.Request (with_bodies facts.request reply facts) ≡ event stage Level.Request facts }
    ensures long_running { (stage : Stage) (level : Level) (facts : Facts) (reply : Kept)
        → is_long_running facts.info ≡ true
        → event stage level (with_bodies facts.request reply facts) ≡ event stage level facts }
    ensures start { (stage : Stage) (level : Level) (facts : Facts) (started : ℕ)
        → is_long_running facts.info ≡ false
        → event stage level (with_start started facts) ≡ event stage level facts }
    ensures other { (stage : Stage) (level : Level) (facts : Facts) (request reply : Kept)
        → facts.info.resource_request ≡ false
        → event stage level (with_bodies request reply facts) ≡ event stage level facts }
    ensures unnamed { (stage : Stage) (level : Level) (facts : Facts) (info : Info)
        → facts.info.resource_request ≡ false → info.resource_request ≡ false
        → info.path ≡ facts.info.path → info.verb ≡ facts.info.verb
        → event stage level (with_info info facts) ≡ event stage level facts }
{}

/// What is known only after a stage reaches none of its events: status, bodies and the later moments not that of
/// `RequestReceived`, which is thus made of what `Facts::begin` takes; the reply's body and the moment when it was
/// complete not that of `ResponseStarted`.
pub fn stages_hide()
    ensures received { (level : Level) (facts : Facts) (status started complete : ℕ) (request reply : Kept)
        → event Stage.RequestReceived level (filled status request reply started complete facts)
        ≡ event Stage.RequestReceived level facts }
    ensures begun { (level : Level) (facts : Facts)
        → event Stage.RequestReceived level (as_begun facts) ≡ event Stage.RequestReceived level facts }
    ensures started { (level : Level) (facts : Facts) (reply : Kept) (complete : ℕ)
        → event Stage.ResponseStarted level
        (filled facts.status facts.request reply facts.started complete facts)
        ≡ event Stage.ResponseStarted level facts }
{}

/// What a level leaves of the facts is all that it leaves when it is asked again.
pub fn views_settle()
    ensures { (level : Level) (facts : Facts) → view level (view level facts) ≡ view level facts }
{}

/// From Metadata on, every event shows the user that authenticated, and the user that the request acts as, if it acts as
/// another.
pub fn both_users_are_shown()
    ensures user { (stage : Stage) (level : Level) (facts : Facts) → level ≢ Level.None
        → (event stage level facts).user ≡ facts.user }
    ensures acting { (stage : Stage) (level : Level) (facts : Facts) → level ≢ Level.None
        → (event stage level facts).impersonated ≡ facts.acting }
{}

/// A body is kept in one way. Two bodies whose values differ in managed fields alone are kept alike where these are
/// omitted.
pub fn one_kept()
    ensures one { (omit : Bool) (body : List ℕ) (these those : Kept)
        → IsKept omit body these → IsKept omit body those → these ≡ those }
    ensures shown { (show : Show) (body : List ℕ) (these those : Kept)
        → IsKeptAs show body these → IsKeptAs show body those → these ≡ those }
    ensures alike { (these those : List ℕ) (v w : Value) (kept other : Kept)
        → length these ≤ MOST_KEPT_BYTES → length those ≤ MOST_KEPT_BYTES
        → StandsFor these v → StandsFor those w → managed v ≡ managed w
        → IsKept true these kept → IsKept true those other → kept ≡ other }
{
    one_value();
}
