ghost use Rattle.std.specs.Prelude.{◌≡◌, ◌≢◌, ℕ, List, All};
ghost use Rattle.alike_exchanges.specs.Alike.{AlikeExchanges, fates};
ghost use Rattle.alike_exchanges.specs.Cuts.{bays_of, breaks, counts, cuts, lines_each};
ghost use Rattle.audit_core.specs.Owed.{owed};
ghost use Rattle.audit_core.specs.declared.settings.Settings.{Settings};
ghost use Rattle.audit_core.specs.declared.sinks.Sink.{Sink};
ghost use Rattle.connection_laws.specs.Whole.{due_in, offered_in, offers_in};
ghost use Rattle.event_offers.specs.Taken.{is_taken, is_tried, lines_for};
ghost use Rattle.front_base.specs.Line.{Line};
ghost use Rattle.front_base.specs.declared.level.Level.TheVariants as level;
ghost use Rattle.role_threads.specs.Lists.{AllPairs};
ghost use Rattle.session_core.specs.declared.exchange.Exchange.{Exchange};
ghost use Rattle.shared_queue.specs.Bays.{of_bay};
ghost use Rattle.stage_event.specs.Views.{with_bodies};
ghost use Rattle.stage_event.specs.declared.facts.Kept.{Kept};
ghost use Rattle.truncate_backend.specs.Tries.{IsNoted, IsSingle, Try, lines_of, sent_bytes};

/// Exchanges that look alike owe the same events. Lists of them owe the sinks the same, and of their offers the same lines were
/// taken, and the same were tried.
pub fn alike_exchanges_owe_alike()
    ensures owed { (x y : Exchange) → AlikeExchanges x y → owed x.decision x.facts ≡ owed y.decision y.facts }
    ensures due { (set : Settings) (xs ys : List Exchange) → AllPairs AlikeExchanges xs ys → due_in set xs ≡ due_in set ys }
    ensures offered { (set : Settings) (xs ys : List Exchange) → AllPairs AlikeExchanges xs ys → offered_in set xs ≡ offered_in set ys }
    ensures taken { (set : Settings) (sink : Sink) (bay : ℕ) (xs ys : List Exchange) → AllPairs AlikeExchanges xs ys
        → lines_for is_taken sink bay 0 (offered_in set xs) (offers_in xs) ≡ lines_for is_taken sink bay 0 (offered_in set ys) (offers_in ys) }
    ensures tried { (set : Settings) (sink : Sink) (bay : ℕ) (xs ys : List Exchange) → AllPairs AlikeExchanges xs ys
        → lines_for is_tried sink bay 0 (offered_in set xs) (offers_in xs) ≡ lines_for is_tried sink bay 0 (offered_in set ys) (offers_in ys) }
{}

/// Which exchanges look alike: one and itself; at level None any two with the same offers, of which none is written; at Metadata two
/// that differ in the bodies of request and reply.
pub fn what_exchanges_are_alike()
    ensures same { (x : Exchange) → AlikeExchanges x x }
    ensures none { (x y : Exchange) → x.decision.level ≡ level.None → y.decision.level ≡ level.None → fates y.offers ≡ fates x.offers
        → AlikeExchanges x y }
    ensures bodies { (x y : Exchange) (request reply : Kept) → x.decision.level ≡ level.Metadata → y.decision ≡ x.decision
        → y.facts ≡ with_bodies request reply x.facts → fates y.offers ≡ fates x.offers → AlikeExchanges x y }
{}

/// Which exchanges don't look alike: two whose status, target, object, user or acting user differs, at any
/// level but None.
pub fn what_exchanges_are_not_alike()
    ensures status { (x y : Exchange) → x.decision.level ≢ level.None → x.facts.status ≢ y.facts.status → AlikeExchanges x y → ⊥ }
    ensures target { (x y : Exchange) → x.decision.level ≢ level.None → x.facts.target ≢ y.facts.target → AlikeExchanges x y → ⊥ }
    ensures info { (x y : Exchange) → x.decision.level ≢ level.None → x.facts.info ≢ y.facts.info → AlikeExchanges x y → ⊥ }
    ensures user { (x y : Exchange) → x.decision.level ≢ level.None → x.facts.user ≢ y.facts.user → AlikeExchanges x y → ⊥ }
    ensures acting { (x y : Exchange) → x.decision.level ≢ level.None → x.facts.acting ≢ y.facts.acting → AlikeExchanges x y → ⊥ }
{}

/// Lines of the same bays in the same order are the same where each bay has the same lines.
pub fn parts_make_lines()
    ensures { (these those : List Line) → bays_of these ≡ bays_of those
        → ((bay : ℕ) → of_bay bay these ≡ of_bay bay those) → these ≡ those }
{}

/// Tries of the same lines, which were cut alike, sent the same bytes: as many lines in each, and where a port failed, as many bytes.
/// How many bytes the other tries sent follows from their notes.
pub fn cut_alike_sent_alike()
    ensures { (text : List Line → List ℕ) (these those : List Try) → All (IsNoted text) these → All (IsNoted text) those
        → cuts these ≡ cuts those → lines_of these ≡ lines_of those → sent_bytes text these ≡ sent_bytes text those }
{}

/// How tries were cut: those of the same lines, with as many in each, have the same lines each. Where each try has one line, the
/// places at which ports failed are all there is of it.
pub fn cuts_part_lines()
    ensures each { (these those : List Try) → counts these ≡ counts those → lines_of these ≡ lines_of those
        → lines_each these ≡ lines_each those }
    ensures single { (these those : List Try) → All IsSingle these → All IsSingle those → breaks these ≡ breaks those
        → cuts these ≡ cuts those }
{}
