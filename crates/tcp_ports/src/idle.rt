use crate::clock::millis_now;
use crate::listener::SharedListener;
use crate::poll::{BREAK, INPUT, MOST_TURNS, NO_SOCKET, wait_for, wait_for_any};
use std::os::fd::RawFd;
use std::rt;

// How long an idle connection leaves one that waits to a bay that is free or makes room already, in milliseconds.
const HANDOVER: u64 = 5;

// Whether the first byte of a request comes within the grace, and before the listener is closed: one that shares its port loses no
// request of a client that sends as often as that.
fn begins_within(listener: &SharedListener, client: RawFd, grace: u64) -> bool {
    let closes = if listener.shares_port() {
        NO_SOCKET
    } else {
        listener.raw_fd()
    };
    let events = [(client, INPUT), (closes, BREAK), (NO_SOCKET, BREAK)];
    let [begins, _, _] = wait_for_any(events, grace);
    begins
}

/// Waits for the first byte of a request. Whether it comes before the connection counts as ended: after the grace where
/// another one waits or the listener is closed, and else after its idle time.
pub(crate) fn request_begins(
    rt: &impl rt::Clock,
    listener: &SharedListener,
    client: RawFd,
    grace: u64,
) -> bool {
    if grace > 0 && begins_within(listener, client, grace) {
        return true;
    }
    let limits = listener.limits();
    let start = millis_now(rt);
    for _ in 0..MOST_TURNS {
        let spent = millis_now(rt).saturating_sub(start);
        if listener.is_closed() || spent >= limits.idle_timeout {
            break;
        }
        let wait = (limits.idle_timeout - spent).min(limits.wake_interval);
        let events = [
            (client, INPUT),
            (listener.raw_fd(), INPUT),
            (NO_SOCKET, BREAK),
        ];
        let [begins, other_waits, _] = wait_for_any(events, wait);
        if begins {
            return true;
        }
        if other_waits {
            if listener.is_closed() || listener.needs_room() {
                break;
            }
            if wait_for(client, INPUT, HANDOVER) {
                return true;
            }
        }
    }
    false
}
