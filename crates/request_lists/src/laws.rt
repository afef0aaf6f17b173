ghost use Rattle.std.specs.Prelude.{◌⊎◌, ℕ, List};
ghost use Rattle.httparse.specs.Grammar.{RequestHead, ResponseHead};
ghost use Rattle.http_head.specs.Reply.{IsReply, IsNoReply, IsReplyAnswer, IsStatusAnswer};
ghost use Rattle.http_head.specs.Request.{IsRequest, IsNoRequest, IsRequestAnswer};
ghost use Rattle.http_head.specs.declared.answer.HeadAnswer.{HeadAnswer};
ghost use Rattle.http_head.specs.declared.answer.StatusAnswer.{StatusAnswer};
ghost use Rattle.http_head.specs.declared.reply.ReplyHead.{ReplyHead};
ghost use Rattle.http_head.specs.declared.request.Head.{Head};
ghost use Rattle.http_edge.specs.Requests.{IsRequests};
ghost use Rattle.http_edge.specs.declared.request.End.{End};
ghost use Rattle.http_edge.specs.declared.request.Request.{Request};

use body_frames::first_bodies;
use http_head::{blocks_are_bounded, heads_end_after_an_empty_line};

/// A block is a head of the grammar of `httparse`, or no head is the block.
pub fn every_block_is_decided()
    ensures request { (block : List ℕ)
        → ((head : RequestHead) × IsRequest block head) ⊎ IsNoRequest block }
    ensures reply { (block : List ℕ)
        → ((head : ResponseHead) × IsReply block head) ⊎ IsNoReply block }
{}

/// For all bytes a row of the table of answers stands: for requests, for replies, and for replies with the status alone.
pub fn every_stream_is_answered()
    ensures request { (bytes : List ℕ) → (answer : HeadAnswer Head) × IsRequestAnswer bytes answer }
    ensures reply { (bytes : List ℕ) → (answer : HeadAnswer ReplyHead) × IsReplyAnswer bytes answer }
    ensures status { (bytes : List ℕ) → (answer : StatusAnswer) × IsStatusAnswer bytes answer }
{
    blocks_are_bounded();
}

/// All bytes hold a list of requests, which ends for a reason.
pub fn every_input_has_requests()
    ensures { (bytes : List ℕ) → (requests : List Request) × (end : End) × IsRequests bytes requests end }
{
    blocks_are_bounded();
    heads_end_after_an_empty_line();
    first_bodies();
}
