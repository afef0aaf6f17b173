// When an exchange is over.
ghost use Rattle.std.specs.Prelude.{◌≡◌, ◌<◌, vec_len, vec_capacity};
ghost use Rattle.model_offers.specs.Turns as spec;

use crate::no_wait;
use model_worlds::{Exchange, Open};

fn is_over(current: &Option<Open>) -> bool
    ensures { result ≡ spec.is_over current.now }
{
    match current {
        None => false,
        Some(opened) => opened.phase.finished && no_wait(&opened.waiting),
    }
}

/// Moves an exchange to those that are over where it is finished and no offer waits. There is room for it.
pub fn settle(closed: &mut Vec<Exchange>, current: &mut Option<Open>)
    requires { vec_len closed.old < vec_capacity closed.old }
    ensures { spec.Settles current.old closed.old.items closed.new.items current.new }
{
    if is_over(current) {
        if let Some(opened) = current.take() {
            closed.push_reserved(opened.exchange);
        }
    }
}
