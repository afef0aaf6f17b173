ghost use Rattle.std.specs.Prelude.{◌≡◌, length};
ghost use Rattle.serve_config.specs.Serve.{IsFit};

use audit_core::Settings;
use route_history::NewRoutes;
use serve_config::ServeWords;

/// A run of `serve` that words and files ask for, before anything is opened.
#[derive(Drop)]
pub struct Serve {
    pub(crate) words: ServeWords,
    pub(crate) settings: Settings,
    pub(crate) routes: NewRoutes,
    // How many APIServices its table begins with.
    pub(crate) services: usize,
    ghost fit: { IsFit words },
    ghost max: { settings.max_event ≡ words.max_event },
    ghost count: { services ≡ length routes.opening },
}
