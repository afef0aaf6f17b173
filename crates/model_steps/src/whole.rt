ghost use Rattle.std.specs.Prelude.{◌≡◌, ◌≤◌, IfOk, OnErr};
ghost use Rattle.front_base.specs.declared.line.TheConstants.{MOST_LINE_BYTES};
ghost use Rattle.model_sinks.specs.Running.{StepsTo};
ghost use Rattle.model_worlds.specs.Steps as spec;

use crate::starting::start_state;
use crate::turning::{begin, change, find, finish, offer, start};
use apiservice_rows::Rows;
use apiservice_table::RouteTable;
use audit_core::Settings;
use front_base::NoMemory;
use local_replies::LocalPaths;
use model_offers::copy_rows;
use model_sinks::{CoreSetup, cut, take};
use model_worlds::{Limits, State, Step, StepAnswer};
use std::alloc::Global;
use std::marker::Model;

/// The whole: what stays as it is, and the state that steps change. Contracts see both.
#[derive(Drop)]
pub struct Core {
    setup: CoreSetup,
    paths: LocalPaths,
    state: State,
}

impl Model for Core {
    ghost use Rattle.model_steps.specs.Machine as seen;

    ghost Value = { seen.Machine };

    ghost view = { λ c. record { fixed = c.setup; state = c.state } };
}

impl Core {
    /// Before any step: the table has the rows of that one, no bay has an exchange, and the sinks are empty. A sink's
    /// capacity says how many lines its buffer may hold.
    pub fn start(
        alloc: Global,
        settings: Settings,
        table: &RouteTable,
        boot: u64,
        bays: u16,
        log_capacity: u32,
        hook_capacity: u32,
        limits: Limits,
    ) -> Result<Core, NoMemory>
        requires { settings.max_event ≤ MOST_LINE_BYTES }
        ensures state { IfOk result (λ core. core.state ≡ spec.start bays) }
        ensures fixed { IfOk result (λ core. core.fixed ≡ record {
          settings = settings;
          opening = table.now.rows;
          boot = boot;
          log_capacity = log_capacity;
          hook_capacity = hook_capacity;
          limits = limits;
        }) }
    {
        let opening = Rows::new(copy_rows(alloc, table.rows())?);
        Ok(Core {
            setup: CoreSetup {
                settings,
                opening,
                boot,
                log_capacity,
                hook_capacity,
                limits,
            },
            paths: LocalPaths::new(alloc)?,
            state: start_state(alloc, bays)?,
        })
    }

    /// What the steps so far left.
    pub fn state(&self) -> &State
        ensures { result.now ≡ self.now.state }
    {
        &self.state
    }

    /// One step, which answers `Idle` where it can't be taken. A count at its type's end counts as a lack of memory.
    pub fn step(&mut self, alloc: Global, step: Step) -> Result<StepAnswer, NoMemory>
        ensures ok { IfOk result (StepsTo self.old.fixed self.old.state step self.new.state) }
        ensures fixed { self.new.fixed ≡ self.old.fixed }
        ensures err { OnErr result (self.new ≡ self.old) }
    {
        let setup = &self.setup;
        let state = &mut self.state;
        match step {
            Step::Begin {
                bay,
                request,
                peer,
                moment,
            } => begin(
                alloc,
                setup,
                &self.paths,
                state,
                bay,
                &request,
                peer,
                moment,
            ),
            Step::Find { bay, seen } => find(alloc, setup, state, bay, seen),
            Step::Offer { bay, sink, works } => offer(alloc, setup, state, bay, sink, works),
            Step::Started {
                bay,
                status,
                moment,
            } => start(alloc, setup, state, bay, status, moment),
            Step::Finish {
                bay,
                link,
                reply,
                moment,
            } => finish(alloc, setup, state, bay, link, reply, moment),
            Step::Change { bay } => change(alloc, setup, state, bay),
            Step::Take { sink } => take(alloc, setup, state, sink),
            Step::Cut { sink, works } => cut(alloc, setup, state, sink, works),
        }
    }
}
