ghost use Rattle.std.specs.Prelude.{◌≡◌, OnOk, OnErr, None, Some, length, if◌then◌else◌};
ghost use Rattle.front_base.specs.AuditId as base;
ghost use Rattle.audit_check.specs.Seen as spec;

use crate::block::{Block, block_of, place_of};
use front_base::{AuditId, NoMemory, Stage};
use std::alloc::Global;
use std::collections::BTreeMap;
use std::marker::Model;

// The last stage of each request of a block, if one was seen.
type Stages = [Option<Stage>; 64];

// The last stage of each request that was seen. The numbers of a bay's requests follow one another, so a block of them
// takes a byte or two for each, whichever of them have lines.
#[derive(Drop)]
pub struct Seen {
    blocks: BTreeMap<Block, Stages>,
}

impl Model for Seen {
    ghost use Rattle.audit_check.specs.Seen as told;

    ghost Value = { told.Seen };

    ghost view = { λ s. record { blocks = s.blocks.entries } };

    ghost invariant = { λ s. told.AreWhole s.blocks.entries };
}

impl Seen {
    pub fn nothing(alloc: Global) -> Seen
        ensures { (id : base.AuditId) → spec.last_seen result id ≡ None }
    {
        Seen {
            blocks: BTreeMap::new(alloc),
        }
    }

    fn stages(&self, block: Block) -> Stages
        ensures value { result ≡ spec.stages_of self.now block }
        ensures whole { length result ≡ 64 }
    {
        match self.blocks.get(&block) {
            Some(stages) => *stages,
            None => [None; 64],
        }
    }

    pub fn last(&self, id: AuditId) -> Option<Stage>
        ensures { result ≡ spec.last_seen self.now id }
    {
        let stages = self.stages(block_of(id));
        stages[place_of(id)]
    }

    // Notes the stage as the last one of the request. Where memory runs out, nothing changes.
    pub fn note(&mut self, id: AuditId, stage: Stage) -> Result<(), NoMemory>
        ensures ok { OnOk result ((q : base.AuditId)
            → spec.last_seen self.new q ≡ (if spec.is_same id q then Some stage else spec.last_seen self.old q)) }
        ensures err { OnErr result (self.new ≡ self.old) }
    {
        let block = block_of(id);
        let mut stages = self.stages(block);
        stages[place_of(id)] = Some(stage);
        self.blocks.insert(block, stages)?;
        Ok(())
    }
}
