ghost use Rattle.std.specs.Prelude.{◌≡◌, ◌<◌, List, [], ◌∷◌, Option, OnOk, Bool, true};
ghost use Rattle.front_ports.specs.Told.{Adds};
ghost use Rattle.session_core.specs.declared.exchange.Exchange.{Exchange};

use crate::exchange::Exchange;
use front_base::NoMemory;
use std::alloc::Global;

/// Where exchanges are noted.
pub trait Diary {
    /// Those that were noted, in order, where it tells them.
    ghost notes: { Self → Option (List Exchange) };

    /// Whether one more may be noted.
    ghost has_room: { Self → Bool };

    /// Makes room for one.
    fn ready(&mut self, alloc: Global) -> Result<(), NoMemory>
        ensures room { OnOk result (has_room self.new ≡ true) }
        ensures same { notes self.new ≡ notes self.old };

    /// Notes one. It takes no memory.
    fn note(&mut self, exchange: Exchange)
        requires { has_room self.old ≡ true }
        ensures { Adds (notes self.old) (notes self.new) (exchange ∷ []) };
}

/// Keeps all exchanges in memory.
#[derive(Drop)]
pub struct MemDiary {
    exchanges: Vec<Exchange>,
}

impl MemDiary {
    ghost use Rattle.session_core.specs.Diaries.{noted};

    /// Nothing was noted. Takes no memory.
    pub fn new(alloc: Global) -> MemDiary
        ensures { noted result ≡ [] }
    {
        MemDiary {
            exchanges: Vec::new(alloc),
        }
    }

    /// The exchanges in order.
    pub fn exchanges(&self) -> &[Exchange]
        ensures { result.now ≡ noted self.now }
    {
        self.exchanges.as_slice()
    }
}

impl Diary for MemDiary {
    ghost use Rattle.std.specs.Prelude.{Some};
    ghost use Rattle.session_core.specs.Diaries.{noted, may_note};

    ghost notes = { λ d. Some (noted d) };

    ghost has_room = { may_note };

    fn ready(&mut self, alloc: Global) -> Result<(), NoMemory> {
        self.exchanges.reserve(1)?;
        Ok(())
    }

    fn note(&mut self, exchange: Exchange) {
        self.exchanges.push_reserved(exchange);
    }
}

/// Keeps nothing, so that a server that runs for months has no history in memory.
#[derive(Clone, Copy, Debug, Drop)]
pub struct NoDiary;

impl Diary for NoDiary {
    ghost use Rattle.std.specs.Prelude.{None, true};

    ghost notes = { λ _. None };

    ghost has_room = { λ _. true };

    fn ready(&mut self, alloc: Global) -> Result<(), NoMemory> {
        Ok(())
    }

    fn note(&mut self, exchange: Exchange) {
        drop(exchange);
    }
}
