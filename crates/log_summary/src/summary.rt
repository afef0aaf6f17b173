use crate::counts::Counts;
use crate::watch::Watch;
use front_base::{Level, Stage};
use stage_event::{Event, ObjectRef};
use std::alloc::{AllocError, Global};

/// How many requests were recorded at each level.
#[derive(Clone, Copy, Debug)]
pub struct Levels {
    pub metadata: u64,
    pub request: u64,
    pub request_response: u64,
}

/// How many requests were answered by a status of each class, by their lines at the stage ResponseComplete.
#[derive(Clone, Copy, Debug)]
pub struct Classes {
    pub informational: u64,
    pub success: u64,
    pub redirect: u64,
    pub client_error: u64,
    pub server_error: u64,
    pub others: u64,
}

/// What the events of a log say of its requests. A request's level, user, verb and resource are those of its first line.
#[derive(Drop)]
pub struct Summary {
    alloc: Global,
    pub(crate) lines: u64,
    pub(crate) requests: u64,
    pub(crate) complete: u64,
    pub(crate) without_object: u64,
    pub(crate) levels: Levels,
    pub(crate) classes: Classes,
    pub(crate) verbs: Counts,
    pub(crate) users: Counts,
    pub(crate) resources: Counts,
}

fn one_more(count: &mut u64) {
    *count = count.saturating_add(1);
}

fn add_level(levels: &mut Levels, level: Level) {
    match level {
        Level::None => {}
        Level::Metadata => one_more(&mut levels.metadata),
        Level::Request => one_more(&mut levels.request),
        Level::RequestResponse => one_more(&mut levels.request_response),
    }
}

fn add_status(classes: &mut Classes, code: u16) {
    match code {
        100..=199 => one_more(&mut classes.informational),
        200..=299 => one_more(&mut classes.success),
        300..=399 => one_more(&mut classes.redirect),
        400..=499 => one_more(&mut classes.client_error),
        500..=599 => one_more(&mut classes.server_error),
        _ => one_more(&mut classes.others),
    }
}

// The name of a resource as kubectl spells it, with its group and its subresource: `deployments.apps/scale`.
fn resource_text(alloc: Global, object: &ObjectRef) -> Result<String, AllocError> {
    let mut text = String::from_str(alloc, object.resource.as_str())?;
    if !object.group.as_str().is_empty() {
        text.push('.')?;
        text.push_str(object.group.as_str())?;
    }
    if !object.subresource.as_str().is_empty() {
        text.push('/')?;
        text.push_str(object.subresource.as_str())?;
    }
    Ok(text)
}

// Counts a request for an object. Where memory runs out it is counted with the others.
fn add_resource(resources: &mut Counts, alloc: Global, object: &ObjectRef) {
    match resource_text(alloc, object) {
        Ok(name) => resources.add(alloc, name.as_str()),
        Err(_) => resources.add_other(),
    }
}

impl Summary {
    /// Nothing was counted yet.
    pub fn new(alloc: Global) -> Summary {
        Summary {
            alloc,
            lines: 0,
            requests: 0,
            complete: 0,
            without_object: 0,
            levels: Levels {
                metadata: 0,
                request: 0,
                request_response: 0,
            },
            classes: Classes {
                informational: 0,
                success: 0,
                redirect: 0,
                client_error: 0,
                server_error: 0,
                others: 0,
            },
            verbs: Counts::new(alloc),
            users: Counts::new(alloc),
            resources: Counts::new(alloc),
        }
    }

    // Counts a request by its first line.
    fn add_request(&mut self, event: &Event) {
        one_more(&mut self.requests);
        add_level(&mut self.levels, event.level);
        self.verbs.add(self.alloc, event.verb.as_str());
        self.users.add(self.alloc, event.user.name.as_str());
        match &event.object_ref {
            Some(object) => add_resource(&mut self.resources, self.alloc, object),
            None => one_more(&mut self.without_object),
        }
    }
}

impl Watch for Summary {
    fn is_watching(&self) -> bool {
        true
    }

    fn accepted(&mut self, event: &Event, is_first: bool) {
        one_more(&mut self.lines);
        if is_first {
            self.add_request(event);
        }
        if let (Stage::ResponseComplete, Some(code)) = (event.stage, event.code) {
            one_more(&mut self.complete);
            add_status(&mut self.classes, code);
        }
    }
}
