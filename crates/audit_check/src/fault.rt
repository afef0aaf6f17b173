ghost use Rattle.std.specs.Prelude.{◌≡◌};
ghost use Rattle.event_members.specs.declared.fault.EventFault.{EventFault};
ghost use Rattle.audit_check.specs.Conforms.{fault_of};
ghost use Rattle.audit_check.specs.declared.fault.LineFault.TheVariants as fault;

use audit_reader::EventFault;
use front_base::{NoMemory, Stage};
use policy_rules::Decision;

/// Why a line doesn't conform: the first of these reasons, in this order.
#[derive(Clone, Copy, Debug, PartialEq, Eq)]
pub enum LineFault {
    /// It is the line of no event.
    Form,
    /// The object that it names isn't that of its request; or a status, a body or the note that bodies were taken out stands
    /// where none may, or no status where one must; or its users are none that a request can have.
    Place,
    /// Its level isn't the one that the policy gives, or its stage is left out there.
    Level { first: Decision },
    /// A line before it has this stage of its request or a later one; the last of these stages.
    Stage { before: Stage },
    NoMemory,
}

impl From<EventFault> for LineFault {
    ghost from_gives = { λ fault e. e ≡ fault_of fault };

    fn from(fault: EventFault) -> Self {
        match fault {
            EventFault::NotAnEvent => LineFault::Form,
            EventFault::NoMemory => LineFault::NoMemory,
        }
    }
}

impl From<NoMemory> for LineFault {
    ghost from_gives = { λ _ e. e ≡ fault.NoMemory };

    fn from(_: NoMemory) -> Self {
        LineFault::NoMemory
    }
}
