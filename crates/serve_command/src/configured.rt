// What words and files make of a run, and the run.
ghost use Rattle.std.specs.Prelude.{◌≡◌, ◌≤◌, ◌⊎◌, IfErr, IfOk, OnOk, length, map, string_bytes};
ghost use Rattle.command_ends.specs.Ports.{files_port};
ghost use Rattle.front_ports.specs.FileMap.{KeepsFiles};
ghost use Rattle.serve_config.specs.Config.{IsRefused};
ghost use Rattle.serve_roles.specs.Doors.{bay_handles};
ghost use Rattle.serve_runs.specs.Causes.{NothingRan};
ghost use Rattle.shared_runs.specs.Runs.{RunShared, shared_routes};
ghost use Rattle.shared_runs.specs.Setup.{options_of};
ghost use Rattle.serve_command.specs.Serve as spec;

use crate::prepared::Serve;
use audit_core::Settings;
use command_ends::{Outcome, Status};
use front_base::Address;
use front_plants::Plant;
use front_ports::{Dial, Door, Files};
use route_history::{NewRoutes, SeenHistory};
use serve_config::{ServeConfig, ServeWords, configure_serve};
use serve_runs::Ended;
use shared_runs::{SharedEnd, run_shared, settings_of};
use std::alloc::Global;
use std::marker::Brand;
use std::sync::ledger::Blank;

/// What a run leaves, beside what its words asked for.
#[derive(Drop)]
pub struct Ran<L, W, H, K, Y, D> {
    pub words: ServeWords,
    pub ended: Ended<SeenHistory, L, W, H, K, Y, D>,
    /// Whether the changes of the table were counted at the end: see `shared_runs::SharedEnd`.
    pub counted: bool,
}

impl Serve {
    /// Reads the words after the program's name, and then the files that they name, each once, in the order of `front_config::Which`. The
    /// statuses of a refusal are `Usage`, `Configuration`, `ReadFault` and `NoMemory`.
    pub fn configure<F: Files>(
        alloc: Global,
        words: &Vec<String>,
        files: &mut F,
    ) -> Result<Serve, Outcome>
        ensures ok { IfOk result (spec.IsServe (map string_bytes words.now.items) (F.files files.old)) }
        ensures err { IfErr result (λ outcome. IsRefused (map string_bytes words.now.items)
            (files_port (F.files files.old) (F.failed files.old) (F.faults files.old)
            (F.files files.new) (F.failed files.new) (F.faults files.new)) outcome.status outcome.why) }

        // Told files stay. The count of faults doesn't fall, and stays where nothing failed.
        ensures sound { OnOk result (F.faults files.new ≡ F.faults files.old) }
        ensures kept { KeepsFiles (F.files files.old) (F.files files.new) }
        ensures later { F.faults files.old ≤ F.faults files.new }
    {
        let config = configure_serve(alloc, words, files)?;
        let ServeConfig { words, loaded } = config;
        let (settings, table) = settings_of(&words, loaded);
        let services = table.rows().len();
        match NewRoutes::new(alloc, table) {
            Ok(routes) => Ok(Serve {
                words,
                settings,
                routes,
                services,
            }),
            Err(_) => Err(Outcome {
                status: Status::NoMemory,
                why: None,
            }),
        }
    }

    /// What the words ask for.
    pub fn words(&self) -> &ServeWords
        ensures { result.now ≡ self.now.words }
    {
        &self.words
    }

    /// By which settings requests are answered and recorded.
    pub fn settings(&self) -> &Settings
        ensures { result.now ≡ self.now.settings }
    {
        &self.settings
    }

    /// How many APIServices the table begins with.
    pub fn services(&self) -> usize
        ensures { result ≡ length self.now.routes.opening }
    {
        self.services
    }

    /// The run, over a plant whose doors listen at this address.
    ///
    /// It ends once every bay has stopped, and all that was accepted is put before it ends. After `Unopened` and `NoMemory` nothing ran.
    pub fn run<P: Plant + Send>(
        self,
        rt: &P::Rt,
        alloc: Global,
        listen: Address,
        plant: &mut P,
    ) -> Ran<P::L, P::W, P::H, P::K, P::Y, P::D>
    where
        P::Rt: Send + Sync,
        P::D: Send,
        <P::D as Door>::C: Send,
        P::L: Send,
        <P::L as Dial>::K: Send,
        P::K: Send,
        P::Y: Send,
        P::W: Send,
        P::H: Send,
        ensures words { result.words ≡ self.words }
        ensures ran { RunShared (bay_handles shared_routes P.L.Dial P.W.BatchSink P.H.BatchSink P.K.Clock P.Y.Diary P.D.Door
            P.D.C.Source P.D.C.ByteSink P.D.C.Conn.own) P.Rt self.settings
            (options_of self.words listen) P.opens self.routes.home self.routes.opening (P.tells plant.old) (P.tells plant.new) result.ended result.counted
            ⊎ NothingRan self.settings (options_of self.words listen) (P.tells plant.old) (P.tells plant.new) result.ended }
    {
        let Serve {
            words,
            settings,
            routes,
            services: _,
        } = self;
        let blank = Blank::new(u64::from(words.bays));
        let SharedEnd { ended, counted } = run_shared::<Brand, P>(
            rt, alloc, &words, settings, listen, routes, blank, plant,
        );
        Ran {
            words,
            ended,
            counted,
        }
    }
}
