ghost use Rattle.std.specs.Arc.{arc_value};
ghost use Rattle.serve_roles.specs.Ready.{CanServe};

use any_lane::AnyLane;
use audit_core::Settings;
use session_core::Bay;
use std::sync::{Arc, Wait};

/// A bay with the settings that all bays share. Its lanes are those of the sinks that these settings turn on.
#[derive(Drop)]
pub struct ReadyBay<R, L, W, H, T: Wait + Copy + Drop, K, Y> {
    pub settings: Arc<Settings>,
    pub bay: Bay<R, L, AnyLane<W, T>, AnyLane<H, T>, K, Y>,
    pub ghost ready: { CanServe (arc_value settings) bay },
}
