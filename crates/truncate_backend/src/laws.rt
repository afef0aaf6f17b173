ghost use Rattle.std.specs.Prelude.{◌≡◌, ◌<◌, ◌≤◌, ◌+◌, ◌++◌, ◌∷◌, [], ℕ, List, Option, Result, Err, ⊤, All, IfSome, length, false};
ghost use Rattle.front_base.specs.Line as base;
ghost use Rattle.event_text.specs.Line.{line_text, stripped};
ghost use Rattle.event_text.specs.Members.{object};
ghost use Rattle.stage_event.specs.declared.event.Event.{Event};
ghost use Rattle.truncate_backend.specs.Fits.{fitted, before_objects, objects, after_objects, annotation};
ghost use Rattle.truncate_backend.specs.Lanes.{SinkStays};
ghost use Rattle.truncate_backend.specs.Told.{Joined, JoinedEach};
ghost use Rattle.truncate_backend.specs.Tries as tries;
ghost use Rattle.truncate_backend.specs.Tries.{Try, SinkTells, Tried, KeepsSent, IsNoted, IsSingle, try_of, answer_of, lines_of, done_of, bytes_of, faults_in, refusals_in};
ghost use Rattle.truncate_backend.specs.declared.fitted.Fit.TheVariants as fits;
ghost use Rattle.truncate_backend.specs.declared.tries.SinkFault.{SinkFault};
ghost use Rattle.truncate_backend.specs.declared.tries.TryAnswer.{TryAnswer};
ghost use Rattle.truncate_backend.specs.declared.tries.TryAnswer.TheVariants as answers;

/// What each answer of `fit` says. A line that fits has at most the bytes that were asked for, and only a line that
/// doesn't is stripped.
pub fn what_fits()
    ensures whole { (event : Event) (max : ℕ) (line : List ℕ) → fitted event max ≡ fits.Whole line
        → (line ≡ line_text event) × (length line ≤ max) }
    ensures stripped { (event : Event) (max : ℕ) (line : List ℕ) → fitted event max ≡ fits.Stripped line
        → (line ≡ line_text (stripped event)) × (length line ≤ max) × (max < length (line_text event)) }
    ensures too_large { (event : Event) (max size : ℕ) → fitted event max ≡ fits.TooLarge size
        → (size ≡ length (line_text (stripped event))) × (max < size) × (max < length (line_text event)) }
{}

/// A stripped line has the members of the event's own line but for the two objects, and the annotation after them.
pub fn members_of_fits()
    ensures line { (event : Event) → event.truncated ≡ false
        → line_text event ≡ object (before_objects event ++ (objects event ++ after_objects event)) }
    ensures stripped { (event : Event) (max : ℕ) (line : List ℕ) → fitted event max ≡ fits.Stripped line
        → line ≡ object (before_objects event ++ (after_objects event ++ annotation ∷ [])) }
{}

/// An event without objects is never stripped: its stripped line is no shorter.
pub fn no_objects_no_strip()
    ensures { (event : Event) (max : ℕ) (line : List ℕ) → objects event ≡ [] → fitted event max ≡ fits.Stripped line → ⊥ }
{}

/// The lines of tries one after another, those of them that were written, and the tries that ended by a fault or a refusal. Where a
/// line wasn't written there is such a try.
pub fn tries_join()
    ensures lines { (these those : List Try) → lines_of (these ++ those) ≡ lines_of these ++ lines_of those }
    ensures done { (these those : List Try) → done_of (these ++ those) ≡ done_of these ++ done_of those }
    ensures fewer { (these : List Try) → length (done_of these) ≤ length (lines_of these) }
    ensures faults { (these those : List Try) → faults_in (these ++ those) ≡ faults_in these + faults_in those }
    ensures refusals { (these those : List Try) → refusals_in (these ++ those) ≡ refusals_in these + refusals_in those }
    ensures cause { (these : List Try) → length (done_of these) < length (lines_of these)
        → 0 < faults_in these + refusals_in these }
{}

/// The lines of one try, which are written where its answer is Done, and else none of them.
pub fn one_try()
    ensures lines { (lines : List base.Line) (sent : ℕ) (answer : TryAnswer)
        → lines_of (try_of lines sent answer ∷ []) ≡ lines }
    ensures done { (lines : List base.Line) (sent : ℕ) → done_of (try_of lines sent answers.Done ∷ []) ≡ lines }
    ensures lost { (lines : List base.Line) (sent : ℕ) (fault : SinkFault)
        → done_of (try_of lines sent (answer_of (Err fault)) ∷ []) ≡ [] }
{}

/// The bytes of lines one after another.
pub fn bytes_join()
    ensures { (these those : List base.Line) → bytes_of (these ++ those) ≡ bytes_of these + bytes_of those }
{}

/// What calls one after another add to a list that is told.
pub fn lists_join()
    ensures lines { (a b c : Option (List base.Line)) (xs ys : List base.Line)
        → Joined a xs b → Joined b ys c → Joined a (xs ++ ys) c }
    ensures tries { (a b c : Option (List Try)) (xs ys : List Try)
        → Joined a xs b → Joined b ys c → Joined a (xs ++ ys) c }
{}

/// What the port of a sink was given stays what its tries sent, and each try is noted as it was: over one try, over none, and over tries one after another.
pub fn tries_keep_what_was_sent()
    ensures one { (m n : SinkTells) (lines : List base.Line) (result : Result ⊤ SinkFault) → Tried m lines result n → KeepsSent m n }
    ensures none { (m : SinkTells) → KeepsSent m m }
    ensures join { (a b c : SinkTells) → KeepsSent a b → KeepsSent b c → KeepsSent a c }
{}

/// The sink of a lane's own over offers one after another, and over none.
pub fn own_sinks_stay()
    ensures none { (a : Option SinkTells) → SinkStays a a }
    ensures join { (a b c : Option SinkTells) → SinkStays a b → SinkStays b c → SinkStays a c }
{}

/// Where there were no tries, those that joined are all.
pub fn first_tries_join()
    ensures noted { (text : List base.Line → List ℕ) (a b : Option (List Try)) → IfSome a (λ ts. ts ≡ [])
        → JoinedEach (IsNoted text) a b → IfSome b (All (IsNoted text)) }
    ensures single { (a b : Option (List Try)) → IfSome a (λ ts. ts ≡ []) → JoinedEach IsSingle a b → IfSome b (All IsSingle) }
{}

/// What tries sent is the text of each, whole unless its port failed. Where all of them are Done these texts are all.
pub fn tries_send_their_texts()
    ensures each { (text : List base.Line → List ℕ) (these : List Try) → All (IsNoted text) these
        → tries.SentBy text these (tries.sent_bytes text these) }
    ensures done { (text : List base.Line → List ℕ) (these : List Try) → All (IsNoted text) these → All tries.IsDone these
        → tries.sent_bytes text these ≡ tries.texts_of text these }
{}
