ghost use Rattle.std.specs.Prelude.{◌≡◌, ◌≤◌, ◌+◌, ◌-◌, ◌*◌, ◌/◌, ◌++◌, [], ℕ, List, length};
ghost use Rattle.front_base.specs.Line.{Line};
ghost use Rattle.retry_throttle.specs.Apart.{AreApart};
ghost use Rattle.retry_throttle.specs.Buckets.{Level, full};
ghost use Rattle.retry_throttle.specs.Clocks.{ClockTells, Passed};
ghost use Rattle.retry_throttle.specs.Sendings.{Rules, Delivery, Delivers, Sends};
ghost use Rattle.retry_throttle.specs.Shippings.{Ships, all_taken};
ghost use Rattle.retry_throttle.specs.Tokens.{count_between};
ghost use Rattle.retry_throttle.specs.declared.bucket.TheConstants.{TOKEN};
ghost use Rattle.retry_throttle.specs.declared.sent.Sent.{Sent};
ghost use Rattle.truncate_backend.specs.Tries.{SinkTells};

/// From one moment to another, these among them, there are at most as many posts as a full bucket holds tokens, and as it gains in between,
/// rounded down: of all batches that are sent one after another over a bucket that was full at the start.
pub fn few_posts_between()
    ensures { (rules : Rules) (text : List Line → List ℕ) (rate burst first : ℕ) (batches : List (List Line)) (ds : List (Delivery × Sent))
        (n : Level) (a b : ℕ) → Ships rules text (full rate burst first) batches ds n
        → count_between a b (all_taken ds) ≤ burst + rate * (b - a) / TOKEN }
{}

/// A batch is posted at most as often as it may be, whatever becomes of it.
pub fn few_posts_of_a_batch()
    ensures { (rules : Rules) (text : List Line → List ℕ) (lines : List Line) (b : Level) (d : Delivery) (end : Sent) (n : Level)
        → Delivers rules text lines b d end n → length d.posts ≤ rules.tries }
{}

/// Each post of a batch but the first has its token later than the one before it by its wait, as the clock gives moments, or the clock rested
/// `MOST_RESTS` times in the wait.
pub fn posts_wait()
    ensures { (rules : Rules) (lines : List Line) (b n : Level) (s t : SinkTells) (c d : ClockTells) (end : Sent)
        → (sends : Sends rules lines b s c end n t d) → AreApart rules sends.delivery.posts }
{}

/// What a clock gave and how often it rested, over calls one after another.
pub fn clocks_go_on()
    ensures none { (c : ClockTells) → Passed c [] 0 c }
    ensures more { (c d e : ClockTells) (ms ns : List ℕ) (i j : ℕ) → Passed c ms i d → Passed d ns j e → Passed c (ms ++ ns) (i + j) e }
{}
