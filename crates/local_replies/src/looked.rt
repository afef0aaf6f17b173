// Replies to looks.
ghost use Rattle.std.specs.Prelude.{◌≡◌, ◌++◌, [], IfOk, OnOk, unwrap_or};
ghost use Rattle.apiservice_table.specs.Changes.{after, IsLater};
ghost use Rattle.local_replies.specs.Looked as spec;
ghost use Rattle.local_replies.specs.Status.{json_reply};

use crate::local::Local;
use crate::reply::{Content, LocalReply};
use crate::status::{json_reply, refusal};
use apiservice_table::Routes;
use front_base::{Bytes, NoMemory};
use std::alloc::Global;

fn ok(alloc: Global) -> Result<LocalReply, NoMemory>
    ensures { IfOk result (λ reply. reply ≡ spec.ok) }
{
    Ok(LocalReply {
        status: 200,
        content: Content::Plain,
        body: Bytes::new(b"ok".to_vec(alloc)?),
    })
}

// The reply of a document, or the refusal where there is none.
fn found(alloc: Global, text: Option<Bytes>) -> Result<LocalReply, NoMemory>
    ensures { IfOk result (λ reply. reply ≡ spec.found text) }
{
    match text {
        Some(text) => Ok(json_reply(200, text)),
        None => refusal(alloc, 404),
    }
}

#[tactic(auto, unfolding(crate::specs::Looked::resource_list_text))]
fn resource_list(alloc: Global) -> Result<LocalReply, NoMemory>
    ensures { IfOk result (λ reply. reply ≡ json_reply 200 spec.resource_list_text) }
{
    let text =
        b"{\"kind\":\"APIResourceList\",\"apiVersion\":\"v1\",\"groupVersion\":\"apiregistration.k8s.io/v1\",\"resources\":[{\"name\":\"apiservices\",\"singularName\":\"apiservice\",\"namespaced\":false,\"kind\":\"APIService\",\"verbs\":[\"create\",\"delete\",\"get\",\"list\",\"patch\",\"update\"]}]}";
    Ok(json_reply(200, Bytes::new(text.to_vec(alloc)?)))
}

fn push_object(text: &mut Vec<u8>, object: &Option<Bytes>) -> Result<(), NoMemory>
    ensures { OnOk result (text.new.items ≡ text.old.items ++ unwrap_or object.now []) }
{
    if let Some(object) = object {
        text.extend_from_slice(object.as_slice())?;
    }
    Ok(())
}

// The list of one object, or of none.
#[tactic(auto, unfolding(crate::specs::Looked::named_list_text))]
fn named_list(alloc: Global, object: &Option<Bytes>) -> Result<LocalReply, NoMemory>
    ensures { IfOk result (λ reply. reply ≡ json_reply 200 (spec.named_list_text object.now)) }
{
    let head =
        b"{\"kind\":\"APIServiceList\",\"apiVersion\":\"apiregistration.k8s.io/v1\",\"metadata\":{},\"items\":[";
    let mut text = head.to_vec(alloc)?;
    push_object(&mut text, object)?;
    text.extend_from_slice(b"]}")?;
    Ok(json_reply(200, Bytes::new(text)))
}

/// The reply to a look. No row is copied for it: it takes a copy of the document or the object that it holds.
pub fn look<R: Routes>(alloc: Global, local: &Local, routes: &mut R) -> Result<LocalReply, NoMemory>
    ensures reply { IfOk result (λ reply.
        reply ≡ spec.looked local.now (after (R.opening routes.new) (R.seen routes.new))) }
    ensures later { IsLater (R.seen routes.old) (R.seen routes.new) }
    ensures kept { (R.opening routes.new ≡ R.opening routes.old) × (R.own routes.new ≡ R.own routes.old) }
{
    match local {
        Local::Health => ok(alloc),
        Local::GroupList => Ok(json_reply(200, routes.group_list(alloc)?)),
        Local::OneGroup(name) => found(alloc, routes.group(alloc, name.as_str())?),
        Local::ResourceList => resource_list(alloc),
        Local::AllServices => Ok(json_reply(200, routes.service_list(alloc)?)),
        Local::OneService(name) => found(alloc, routes.object(alloc, name.as_str())?),
        Local::ServicesNamed(name) => named_list(alloc, &routes.object(alloc, name.as_str())?),
        Local::Unserved => refusal(alloc, 404),
    }
}
