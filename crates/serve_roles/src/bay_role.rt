use crate::door::serve_door;
use crate::ready_bay::ReadyBay;
use apiservice_table::Routes;
use bay_runs::{BayStop, EndCounts};
use front_ports::{Clock, Dial, Door};
use local_replies::LocalPaths;
use role_threads::Role;
use session_core::Diary;
use std::alloc::Global;
use std::sync::atomic::{AtomicUsize, Ordering};
use std::sync::{Arc, Wait};
use truncate_backend::BatchSink;

/// A bay at its door, how its connections ended, and why it stopped.
#[derive(Drop)]
pub struct BayRole<R, L, W, H, T: Wait + Copy + Drop, K, Y, D> {
    /// Where its requests take memory.
    pub alloc: Global,
    /// The paths that the server answers itself.
    pub paths: Arc<LocalPaths>,
    pub own: ReadyBay<R, L, W, H, T, K, Y>,
    pub door: D,
    pub counts: EndCounts,
    /// `Closed` until it ran.
    pub stop: BayStop,
}

impl<
    R: Routes,
    L: Dial,
    W: BatchSink + Drop,
    H: BatchSink + Drop,
    T: Wait + Copy + Drop,
    K: Clock,
    Y: Diary,
    D: Door,
> Role<T> for BayRole<R, L, W, H, T, K, Y, D> {
    ghost use Rattle.serve_roles.specs.Doors.{bay_handles};
    ghost use Rattle.serve_roles.specs.Roles.{RanBay};

    ghost ran = { RanBay (bay_handles R.Routes L.Dial W.BatchSink H.BatchSink K.Clock Y.Diary D.Door
        D.C.Source D.C.ByteSink D.C.Conn.own) };

    /// Serves until the bay stops, and counts it among those that ended.
    fn run(&mut self, rt: &T, ended: &AtomicUsize, _bays: usize) {
        let ReadyBay { settings, bay } = &mut self.own;
        self.stop = serve_door(
            rt,
            self.alloc,
            settings,
            &self.paths,
            bay,
            &mut self.counts,
            &mut self.door,
        );
        ended.fetch_add(1, Ordering::SeqCst);
    }
}
