ghost use Rattle.std.specs.Prelude.{◌≡◌, ◌<◌, ◌≤◌, ◌⊎◌, ℕ, List, Ok, Err};
ghost use Rattle.std.specs.List.{flat_map};
ghost use Rattle.front_ports.specs.declared.dial.Call.{Call};
ghost use Rattle.truncate_backend.specs.Tries.{Try};
ghost use Rattle.truncate_backend.specs.declared.tries.SinkFault.TheVariants as faults;
ghost use Rattle.webhook_sink.specs.Accounts.{AreCallsOf, posted_bytes};
ghost use Rattle.webhook_sink.specs.Replies as spec;
ghost use Rattle.webhook_sink.specs.declared.hook_url.HookUrl.{HookUrl};
ghost use Rattle.webhook_sink.specs.declared.reply.Reply.TheVariants.{Final, Bad};

use crate::reply::Reply;
use http_head::statuses_are_those_of_replies;
use request_lists::every_stream_is_answered;

/// All bytes of a link say one thing, whatever they are and however many interim heads may come.
pub fn one_answer()
    ensures one { (more : ℕ) (bytes : List ℕ) (a b : Reply)
        → spec.Replies more bytes a → spec.Replies more bytes b → a ≡ b }
    ensures some { (more : ℕ) (bytes : List ℕ) → (reply : Reply) × spec.Replies more bytes reply }
{
    statuses_are_those_of_replies();
    every_stream_is_answered();
}

/// What a sink's answer says of the reply: lines were taken exactly where the status of the final head is 200 to 299, and
/// a call that failed is no reply.
pub fn answers_are_exact()
    ensures taken { (reply : Reply) → spec.result_of reply ≡ Ok tt
        → (status : ℕ) × (reply ≡ Final status) × (200 ≤ status) × (status < 300) }
    ensures takes { (status : ℕ) → 200 ≤ status → status < 300 → spec.result_of (Final status) ≡ Ok tt }
    ensures refused { (reply : Reply) (code : ℕ) → spec.result_of reply ≡ Err (faults.Refused code)
        → (reply ≡ Final code) × ((code < 200) ⊎ (300 ≤ code)) }
    ensures refuses { (status : ℕ) → (status < 200) ⊎ (300 ≤ status)
        → spec.result_of (Final status) ≡ Err (faults.Refused status) }
    ensures bad { (reply : Reply) → spec.result_of reply ≡ Err faults.BadAnswer → reply ≡ Bad }
    ensures no_port { (reply : Reply) → spec.result_of reply ≡ Err faults.Port → ⊥ }
{}

/// The bytes sent over the calls of tries are, try after try, the first bytes of the post, as many as the note says.
pub fn calls_join()
    ensures { (url : HookUrl) (tries : List Try) (calls : List Call) → AreCallsOf url tries calls
        → flat_map (λ call. call.sent) calls ≡ posted_bytes url tries }
{}
