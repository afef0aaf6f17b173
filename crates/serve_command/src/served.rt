// A run of `serve`, from its words to its end.
ghost use Rattle.std.specs.Prelude.{◌≤◌, map, string_bytes};
ghost use Rattle.command_ends.specs.Ports.{files_port};
ghost use Rattle.front_ports.specs.FileMap.{KeepsFiles};
ghost use Rattle.serve_command.specs.Run as spec;
ghost use Rattle.serve_roles.specs.Doors.{bay_handles};
ghost use Rattle.shared_runs.specs.Runs.{shared_routes};

use crate::configured::Ran;
use crate::ended::status_of;
use crate::prepared::Serve;
use command_ends::{Outcome, Status};
use front_plants::Plant;
use front_ports::{Dial, Door, Files};
use refusal_text::Refusal;
use route_history::SeenHistory;
use serve_runs::Ended;
use std::alloc::Global;

/// What a run of `serve` leaves.
#[derive(Drop)]
pub struct Served<L, W, H, K, Y, D> {
    pub status: Status,
    /// What was refused, where there is more to report than the status.
    pub why: Option<Refusal>,
    /// What the run left, where words and files were not refused.
    pub ended: Option<Ended<SeenHistory, L, W, H, K, Y, D>>,
    /// Whether the changes of the table were counted at the end of the run: see `shared_runs::SharedEnd`.
    pub counted: bool,
}

fn refused<L, W, H, K, Y, D>(outcome: Outcome) -> Served<L, W, H, K, Y, D>
    ensures { spec.IsOutcome outcome.status outcome.why result }
{
    let Outcome { status, why } = outcome;
    Served {
        status,
        why,
        ended: None,
        counted: false,
    }
}

fn ended_so<L, W, H, K, Y, D>(
    ended: Ended<SeenHistory, L, W, H, K, Y, D>,
    counted: bool,
) -> Served<L, W, H, K, Y, D>
    ensures { spec.IsLeft ended counted result }
{
    Served {
        status: status_of(ended.status),
        why: None,
        ended: Some(ended),
        counted,
    }
}

/// The command `serve`, over these files and a plant whose doors listen at the address of the words.
///
/// Where words or files are refused, the plant wasn't called, and the status is `Usage`, `Configuration`, `ReadFault` or `NoMemory`. Else
/// they ran, and it is `Done` where each bay's door gave no more connections, `PortFault` where a call of the plant or a door failed,
/// `NumbersSpent` where a bay had no number for one more request, and `NoMemory` where memory ran out before any bay served.
pub fn serve<F: Files, P: Plant + Send>(
    rt: &P::Rt,
    alloc: Global,
    words: &Vec<String>,
    files: &mut F,
    plant: &mut P,
) -> Served<P::L, P::W, P::H, P::K, P::Y, P::D>
where
    P::Rt: Send + Sync,
    P::D: Send,
    <P::D as Door>::C: Send,
    P::L: Send,
    <P::L as Dial>::K: Send,
    P::K: Send,
    P::Y: Send,
    P::W: Send,
    P::H: Send,
    ensures run { spec.Run (bay_handles shared_routes P.L.Dial P.W.BatchSink P.H.BatchSink P.K.Clock P.Y.Diary P.D.Door
        P.D.C.Source P.D.C.ByteSink P.D.C.Conn.own) P.Rt P.opens (map string_bytes words.now.items)
        (files_port (F.files files.old) (F.failed files.old) (F.faults files.old)
        (F.files files.new) (F.failed files.new) (F.faults files.new)) (P.tells plant.old) (P.tells plant.new) result }

    // Told files stay, and their count of faults doesn't fall.
    ensures kept { KeepsFiles (F.files files.old) (F.files files.new) }
    ensures later { F.faults files.old ≤ F.faults files.new }
{
    match Serve::configure(alloc, words, files) {
        Ok(run) => {
            let listen = run.words().listen;
            let Ran {
                words: _,
                ended,
                counted,
            } = run.run(rt, alloc, listen, plant);
            ended_so(ended, counted)
        }
        Err(outcome) => refused(outcome),
    }
}
