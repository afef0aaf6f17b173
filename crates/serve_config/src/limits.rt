// How long peers may take.
ghost use Rattle.serve_config.specs.Serve as spec;

use crate::fault::ServeFault;
use crate::numbers::ranged;
use command_options::{Options, Ranged};
use tcp_ports::{DEFAULT_LIMITS, TcpLimits};

#[tactic(auto, unfolding(crate::specs::Serve::limits_by))]
pub fn limits_by(options: &Options) -> Result<TcpLimits, ServeFault>
    ensures { spec.Gives (λ v. v) result (spec.limits_by options.now) }
{
    let idle_timeout = ranged(Ranged::IdleTimeout, options)?;
    let read_header_timeout = ranged(Ranged::ReadHeaderTimeout, options)?;
    let min_rate = ranged(Ranged::MinRate, options)?;
    let stall_timeout = ranged(Ranged::StallTimeout, options)?;
    let dial_timeout = ranged(Ranged::DialTimeout, options)?;
    let response_header_timeout = ranged(Ranged::ResponseHeaderTimeout, options)?;
    let shutdown_timeout = ranged(Ranged::ShutdownTimeout, options)?;
    Ok(TcpLimits {
        idle_timeout,
        read_header_timeout,
        min_rate,
        stall_timeout,
        dial_timeout,
        response_header_timeout,
        shutdown_timeout,
        ..DEFAULT_LIMITS
    })
}
