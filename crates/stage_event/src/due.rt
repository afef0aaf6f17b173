// Where the events of a request show a body.
ghost use Rattle.std.specs.Prelude.{◌≡◌};
ghost use Rattle.stage_event.specs.Due as spec;

use crate::show::Show;
use front_base::{Info, Level};

/// Whether an event of that level may show the request's body. Where none may, nobody has to look at the body, and what
/// is kept of it is `Kept::NotAsked`.
pub fn request_due(level: Level, info: &Info) -> bool
    ensures { result ≡ spec.request_due level info.now }
{
    match level {
        Level::None | Level::Metadata => false,
        Level::Request | Level::RequestResponse => info.resource_request,
    }
}

/// Whether an event of that level may show the reply's body. Where none may, nobody has to look at the body, and what is
/// kept of it is `Kept::NotAsked`.
pub fn reply_due(level: Level, info: &Info) -> bool
    ensures { result ≡ spec.reply_due level info.now }
{
    match level {
        Level::None | Level::Metadata | Level::Request => false,
        Level::RequestResponse => info.resource_request && !info.is_long_running(),
    }
}

/// What an event of that level shows of the request's body, where managed fields are omitted or aren't.
pub fn request_show(level: Level, omit: bool, info: &Info) -> Show
    ensures { result ≡ spec.request_show level omit info.now }
{
    Show::of(request_due(level, info), omit)
}

/// What an event of that level shows of the reply's body, where managed fields are omitted or aren't.
pub fn reply_show(level: Level, omit: bool, info: &Info) -> Show
    ensures { result ≡ spec.reply_show level omit info.now }
{
    Show::of(reply_due(level, info), omit)
}
