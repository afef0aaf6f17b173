ghost use Rattle.std.specs.Prelude.{◌≡◌, ◌≤◌, ◌++◌, ℕ, List, length};
ghost use Rattle.http_edge.specs.declared.request.Request.{Request};
ghost use Rattle.http_edge.specs.declared.request.End.{End};
ghost use Rattle.http_edge.specs.Requests as spec;

use crate::{End, MOST_BODY_BYTES, Request};
use body_frames::{bodies_fit, first_bodies};
use http_head::{blocks_are_bounded, blocks_stay, heads_end_after_an_empty_line, one_head};

/// What stands first in the bytes that were taken stands there in all longer inputs: a request, and a refusal.
pub fn requests_stay()
    ensures starts { (bytes more after : List ℕ) (request : Request)
        → spec.StartsWith bytes request after → spec.StartsWith (bytes ++ more) request (after ++ more) }
    ensures refused { (bytes more : List ℕ) (end : End) → spec.IsRefused bytes end
        → spec.IsRefused (bytes ++ more) end }
{
    blocks_are_bounded();
    blocks_stay();
    first_bodies();
}

/// The body of a request has no more bytes than a body may have.
pub fn requests_fit()
    ensures { (bytes after : List ℕ) (request : Request) → spec.StartsWith bytes request after
        → length request.body ≤ MOST_BODY_BYTES }
{
    bodies_fit();
}

/// The requests of an input are one list, with one end: there are no two, and it can't be that there is none.
pub fn one_list_of_requests()
    ensures one { (bytes : List ℕ) (rs qs : List Request) (e f : End)
        → spec.IsRequests bytes rs e → spec.IsRequests bytes qs f → (rs ≡ qs) × (e ≡ f) }
    ensures some { (bytes : List ℕ)
        → ¬ ((rs : List Request) (e : End) → ¬ (spec.IsRequests bytes rs e)) }
{
    one_head();
    blocks_are_bounded();
    heads_end_after_an_empty_line();
    first_bodies();
}
