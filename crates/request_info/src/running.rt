ghost use Rattle.std.specs.Prelude.{◌≡◌};
ghost use Rattle.front_base.specs.Info.{is_long_running};

use front_base::Info;

/// Whether a request may go on for long, so that its reply's start is an event of its own.
pub fn long_running(info: &Info) -> bool
    ensures { result ≡ is_long_running info.now }
{
    info.is_long_running()
}
