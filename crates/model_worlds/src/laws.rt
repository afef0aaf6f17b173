ghost use Rattle.std.specs.Prelude.{◌≡◌, ◌≢◌, ℕ, ◌≤◌, Bool, List, ◌∷◌, ◌++◌, map, length, Option, Some, None, [], true, false};
ghost use Rattle.audit_core.specs.Answer.{link_status};
ghost use Rattle.audit_core.specs.Errand.{acting_in, errand_in, info_in};
ghost use Rattle.audit_core.specs.Exchange.{decision_in};
ghost use Rattle.audit_core.specs.declared.link_note.LinkNote.{LinkNote};
ghost use Rattle.audit_core.specs.declared.sinks.Sink.{Sink};
ghost use Rattle.front_base.specs.Line.{Line};
ghost use Rattle.front_base.specs.declared.level.Level.{Level};
ghost use Rattle.front_base.specs.declared.level.Level.TheVariants as level;
ghost use Rattle.front_base.specs.declared.stage.Stage.{Stage};
ghost use Rattle.front_base.specs.declared.stage.Stage.TheVariants as stage;
ghost use Rattle.http_edge.specs.declared.request.Request.{Request};
ghost use Rattle.json_prune.specs.Prune.{managed};
ghost use Rattle.json_span.specs.Value.{Value, StandsFor};
ghost use Rattle.local_replies.specs.Paths.{local_of};
ghost use Rattle.stage_event.specs.Due.{reply_due};
ghost use Rattle.stage_event.specs.Events.{event};
ghost use Rattle.stage_event.specs.Kept.{IsKept};
ghost use Rattle.stage_event.specs.Views.{shown};
ghost use Rattle.stage_event.specs.declared.facts.Facts.{Facts};
ghost use Rattle.stage_event.specs.declared.facts.Kept.{Kept};
ghost use Rattle.stage_event.specs.declared.keeping.TheConstants.{MOST_KEPT_BYTES};
ghost use Rattle.model_worlds.specs.Example.{example, example_steps};
ghost use Rattle.model_worlds.specs.Parts.{Parts};
ghost use Rattle.model_worlds.specs.Requests.{asked_by};
ghost use Rattle.model_worlds.specs.Setup.{Setup};
ghost use Rattle.model_worlds.specs.Steps.{after_steps, answers_to, sink_at, start};
ghost use Rattle.model_worlds.specs.Worlds.{low, Alike, shown_step, shown_answers, current_at, is_taken, sink_bytes};
ghost use Rattle.model_worlds.specs.declared.state.Open.{Open};
ghost use Rattle.model_worlds.specs.declared.state.State.{State};
ghost use Rattle.model_worlds.specs.declared.step.Step.{Step};
ghost use Rattle.model_worlds.specs.declared.step.Step.TheVariants as step;

use stage_event::{both_users_are_shown, one_kept};

/// Two worlds that look the same stay so over schedules that look the same: their tables and every sink are equal after
/// any number of steps, in whatever order bays and sinks took turns; each step was taken in both or in neither; and the
/// steps answered the same, but for the rows that were found for requests at level None. So every sink was sent the same
/// bytes, whatever text its lines make. Of a sink that is written to at once these are the bytes of each bay.
pub fn two_worlds()
    ensures low { (setup : Setup) (s t : State) (these those : List Step) → low s ≡ low t
        → Alike setup s t these those → low (after_steps setup s these) ≡ low (after_steps setup t those) }
    ensures shared { (setup : Setup) (s t : State) (these those : List Step) → low s ≡ low t
        → Alike setup s t these those
        → (after_steps setup s these).shared ≡ (after_steps setup t those).shared }
    ensures taken { (setup : Setup) (s t : State) (these those : List Step) → low s ≡ low t
        → Alike setup s t these those
        → map is_taken (answers_to setup s these) ≡ map is_taken (answers_to setup t those) }
    ensures answers { (setup : Setup) (s t : State) (these those : List Step) → low s ≡ low t
        → Alike setup s t these those → shown_answers setup s these ≡ shown_answers setup t those }
    ensures bytes { (setup : Setup) (s t : State) (these those : List Step) (sink : Sink) (text : List Line → List ℕ)
        → low s ≡ low t → Alike setup s t these those
        → sink_bytes text (sink_at (after_steps setup s these).shared sink)
        ≡ sink_bytes text (sink_at (after_steps setup t those).shared sink) }
{}

/// What lies below the level of one request reaches no sink, whatever the other steps are: not the body of a request at
/// Metadata, nor anything at level None but the change of the table that is asked for, nor the body of a reply that no
/// event shows. It is so of each step that looks the same as the one in its place.
pub fn one_secret_reaches_no_sink()
    ensures step { (setup : Setup) (s : State) (before after : List Step) (this that : Step) (sink : Sink)
        (text : List Line → List ℕ)
        → shown_step setup (after_steps setup s before) this ≡ shown_step setup (after_steps setup s before) that
        → sink_bytes text (sink_at (after_steps setup s (before ++ this ∷ after)).shared sink)
        ≡ sink_bytes text (sink_at (after_steps setup s (before ++ that ∷ after)).shared sink) }
    ensures metadata { (setup : Setup) (s : State) (before after : List Step) (bay moment : ℕ) (peer : List ℕ)
        (r q : Request) (sink : Sink) (text : List Line → List ℕ)
        → r.head ≡ q.head → errand_in setup.set r moment ≡ errand_in setup.set q moment
        → (decision_in setup.set r).level ≡ level.Metadata
        → sink_bytes text (sink_at (after_steps setup s (before ++ step.Begin bay r peer moment ∷ after)).shared sink)
        ≡ sink_bytes text (sink_at (after_steps setup s (before ++ step.Begin bay q peer moment ∷ after)).shared sink) }
    ensures none { (setup : Setup) (s : State) (before after : List Step) (bay moment : ℕ) (peer other : List ℕ)
        (r q : Request) (sink : Sink) (text : List Line → List ℕ)
        → (decision_in setup.set r).level ≡ level.None → (decision_in setup.set q).level ≡ level.None
        → asked_by (errand_in setup.set r moment) ≡ asked_by (errand_in setup.set q moment)
        → sink_bytes text (sink_at (after_steps setup s (before ++ step.Begin bay r peer moment ∷ after)).shared sink)
        ≡ sink_bytes text (sink_at (after_steps setup s (before ++ step.Begin bay q other moment ∷ after)).shared sink) }
    ensures reply { (setup : Setup) (s : State) (before after : List Step) (o : Open) (bay moment : ℕ)
        (link other : LinkNote) (reply body : Kept) (sink : Sink) (text : List Line → List ℕ)
        → current_at (after_steps setup s before) bay ≡ Some o
        → reply_due o.exchange.level o.exchange.facts.info ≡ false → link_status link ≡ link_status other
        → sink_bytes text (sink_at (after_steps setup s (before ++ step.Finish bay link reply moment ∷ after)).shared sink)
        ≡ sink_bytes text (sink_at (after_steps setup s (before ++ step.Finish bay other body moment ∷ after)).shared sink) }
{}

/// Which steps look the same: at level None two requests that ask for the same change of the table, or for none; at every
/// level two requests with one head that want the same, where the events show the same of their bodies, and at Metadata
/// whatever their bodies are; and two answers with the same status where no event shows the reply. Where managed fields are
/// omitted, and a body is kept as events keep it, events show the same of two bodies that differ in these alone. Two requests
/// with one head want the same where its path isn't one that this server answers itself.
pub fn what_is_alike()
    ensures none { (setup : Setup) (s t : State) (bay moment : ℕ) (peer other : List ℕ) (r q : Request)
        → (decision_in setup.set r).level ≡ level.None → (decision_in setup.set q).level ≡ level.None
        → asked_by (errand_in setup.set r moment) ≡ asked_by (errand_in setup.set q moment)
        → shown_step setup s (step.Begin bay r peer moment) ≡ shown_step setup t (step.Begin bay q other moment) }
    ensures metadata { (setup : Setup) (s t : State) (bay moment : ℕ) (peer : List ℕ) (r q : Request)
        → r.head ≡ q.head → errand_in setup.set r moment ≡ errand_in setup.set q moment
        → (decision_in setup.set r).level ≡ level.Metadata
        → shown_step setup s (step.Begin bay r peer moment) ≡ shown_step setup t (step.Begin bay q peer moment) }
    ensures bodies { (setup : Setup) (s t : State) (bay moment : ℕ) (peer : List ℕ) (r q : Request)
        → r.head ≡ q.head → errand_in setup.set r moment ≡ errand_in setup.set q moment
        → shown (setup.keep (decision_in setup.set r).omit_managed r.body)
        ≡ shown (setup.keep (decision_in setup.set r).omit_managed q.body)
        → shown_step setup s (step.Begin bay r peer moment) ≡ shown_step setup t (step.Begin bay q peer moment) }
    ensures managed { (setup : Setup) (s t : State) (bay moment : ℕ) (peer : List ℕ) (r q : Request) (v w : Value)
        → r.head ≡ q.head → errand_in setup.set r moment ≡ errand_in setup.set q moment
        → (decision_in setup.set r).omit_managed ≡ true
        → ((omit : Bool) (body : List ℕ) → IsKept omit body (setup.keep omit body))
        → length r.body ≤ MOST_KEPT_BYTES → length q.body ≤ MOST_KEPT_BYTES
        → StandsFor r.body v → StandsFor q.body w → managed v ≡ managed w
        → shown_step setup s (step.Begin bay r peer moment) ≡ shown_step setup t (step.Begin bay q peer moment) }
    ensures replies { (setup : Setup) (s : State) (o : Open) (bay moment : ℕ) (link other : LinkNote) (reply text : Kept)
        → current_at s bay ≡ Some o → reply_due o.exchange.level o.exchange.facts.info ≡ false
        → link_status link ≡ link_status other
        → shown_step setup s (step.Finish bay link reply moment) ≡ shown_step setup s (step.Finish bay other text moment) }
    ensures apis { (setup : Setup) (r q : Request) (moment : ℕ) → r.head ≡ q.head → local_of (info_in r).path ≡ None
        → errand_in setup.set r moment ≡ errand_in setup.set q moment }
{
    one_kept();
}

/// Which steps don't look the same, at any level but None: two answers with statuses that differ, and two requests that act
/// as other users, or of which one acts as another user and one doesn't. Their events differ too.
pub fn what_is_not_alike()
    ensures status { (setup : Setup) (s : State) (o : Open) (bay moment : ℕ) (link other : LinkNote) (reply text : Kept)
        → current_at s bay ≡ Some o → o.exchange.level ≢ level.None → link_status link ≢ link_status other
        → shown_step setup s (step.Finish bay link reply moment) ≢ shown_step setup s (step.Finish bay other text moment) }
    ensures events { (own : Level) (these those : Facts) → own ≢ level.None → these.status ≢ those.status
        → event stage.ResponseComplete own these ≢ event stage.ResponseComplete own those }
    ensures acting { (setup : Setup) (s t : State) (bay moment : ℕ) (peer other : List ℕ) (r q : Request)
        → (decision_in setup.set r).level ≢ level.None → acting_in setup.set r ≢ acting_in setup.set q
        → shown_step setup s (step.Begin bay r peer moment) ≢ shown_step setup t (step.Begin bay q other moment) }
    ensures users { (stage : Stage) (own : Level) (these those : Facts) → own ≢ level.None → these.acting ≢ those.acting
        → event stage own these ≢ event stage own those }
    ensures sinks { (s t : State) → low s ≡ low t → s.shared ≡ t.shared }
{
    both_users_are_shown();
}

/// After every list of steps from the start, both sinks hang together. Each line that a buffer took from a bay is in it or
/// was taken from it, in the bay's order, and each line that was taken is in one try or waits for one. A buffer holds no
/// more than its capacity, and refuses a line only after it took so many. Each try has one line or more, within the limits
/// of a batch, which one line alone may exceed.
pub fn lines_stay_in_order()
    ensures { (setup : Setup) (bays : ℕ) (steps : List Step) → Parts setup bays (after_steps setup (start bays) steps) }
{}

/// Steps can be taken: in the example a request is received, answered and recorded, and both its lines are written in one
/// try, whatever its body is.
pub fn an_example_runs()
    ensures taken { (body : List ℕ) → map is_taken (answers_to example (start 1) (example_steps body))
        ≡ true ∷ true ∷ true ∷ true ∷ true ∷ true ∷ true ∷ true ∷ [] }
    ensures written { (body : List ℕ)
        → map (λ t. length t.lines) (after_steps example (start 1) (example_steps body)).shared.log.tries ≡ 2 ∷ [] }
{}
