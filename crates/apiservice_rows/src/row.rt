ghost use Rattle.std.specs.Prelude.{◌≡◌, IfOk, IfSome, false, option_map};
ghost use Rattle.front_base.specs.declared.memory.NoMemory.{NoMemory};
ghost use Rattle.apiservice_rows.specs.Row.{IsRowName};

use crate::service::ServiceRef;
use front_base::{Bytes, NoMemory, Text};
use std::alloc::Global;
use std::marker::Model;

/// What routing knows of one APIService. Its version has no dot, and its name is the version, a dot and the group, so
/// two rows with different names differ in version or group.
#[derive(Debug, Drop)]
pub struct Row {
    pub name: Text,
    /// Empty for the core group.
    pub group: Text,
    pub version: Text,
    /// The greater comes first among groups, from 1 to 20000 in a row that was read.
    pub group_priority: u32,
    /// The greater comes first among the versions of a group, from 1 to 1000 in a row that was read.
    pub version_priority: u32,
    /// None means that the cluster's own API server answers.
    pub service: Option<ServiceRef>,
    pub available: bool,
    /// The object as JSON, in the form in which it is served.
    pub object: Bytes,
}

impl Model for Row {
    ghost use Rattle.apiservice_rows.specs.Row as seen;

    ghost Value = { seen.Row };

    ghost view = { λ r. record {
      name = r.name;
      group = r.group;
      version = r.version;
      group_priority = r.group_priority;
      version_priority = r.version_priority;
      service = r.service;
      available = r.available;
      object = r.object;
    } };

    ghost invariant = { λ r. seen.IsRowName r.name r.version r.group };
}

fn copy_service(alloc: Global, service: &ServiceRef) -> Result<ServiceRef, NoMemory>
    ensures { IfOk result (λ copy. copy ≡ service.now) }
{
    let namespace = service.namespace.copy(alloc)?;
    let name = service.name.copy(alloc)?;
    Ok(ServiceRef {
        namespace,
        name,
        port: service.port,
    })
}

fn copy_present(alloc: Global, service: &Option<ServiceRef>) -> Result<Option<ServiceRef>, NoMemory>
    ensures { IfOk result (λ copy. copy ≡ service.now) }
{
    match service {
        Some(service) => Ok(Some(copy_service(alloc, service)?)),
        None => Ok(None),
    }
}

impl Row {
    /// What the type keeps: the version has no dot, and the name is the version, a dot and the group.
    pub fn tells_its_name(&self)
        ensures { IsRowName self.now.name self.now.version self.now.group }
    {
        let _ = &self.name;
    }

    /// An equal row.
    pub fn copy(&self, alloc: Global) -> Result<Row, NoMemory>
        ensures { IfOk result (λ copy. copy ≡ self.now) }
    {
        let name = self.name.copy(alloc)?;
        let group = self.group.copy(alloc)?;
        let version = self.version.copy(alloc)?;
        let service = copy_present(alloc, &self.service)?;
        let object = self.object.copy(alloc)?;
        Ok(Row {
            name,
            group,
            version,
            group_priority: self.group_priority,
            version_priority: self.version_priority,
            service,
            available: self.available,
            object,
        })
    }
}
