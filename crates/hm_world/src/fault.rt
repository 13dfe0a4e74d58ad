ghost use Rattle.std.specs.Prelude.{◌≡◌};
ghost use Rattle.hm_world.specs.Settled as settled;
ghost use Rattle.hm_world.specs.Setups as setups;
ghost use Rattle.hm_world.specs.declared.fault.WorldFault.TheVariants as fault;

use crate::group::forms;
use hm_base::memory::NoMemory;
use hm_dirtyset::dirty_set::{MAX_BITS, MAX_STAGES};
use hm_packet::outcome::Bar;
use hm_reconfig::fault::{RemoveFault, StartFault};
use hm_schedule::event::Setup;
use hm_store::ledger::MAX_LOG_LEN;
use hm_switch::switch::MAX_LIFE;
use std::alloc::AllocError;
use thiserror::Error;

/// Why a world can't be opened: the first part of its setup that is out of range, or want of memory.
#[derive(Clone, Copy, Debug, PartialEq, Eq, Error)]
pub enum WorldFault {
    #[error("a group has 1 to 7 members, of Viewstamped Replication 1, 3, 5 or 7")]
    Group,
    #[error("a dirty table has 1 to 4 stages")]
    Stages,
    #[error("a place in a stage has at most 12 bits")]
    Bits,
    #[error("a switch handles 1 to 4,194,304 packets")]
    Life,
    #[error("a log has 1 to 16,384 entries")]
    Cap,
    #[error("memory is wanting")]
    NoMemory,
}

impl From<NoMemory> for WorldFault {
    ghost from_gives = { λ _ e. e ≡ fault.NoMemory };

    fn from(_failed: NoMemory) -> WorldFault {
        WorldFault::NoMemory
    }
}

impl From<AllocError> for WorldFault {
    ghost from_gives = { λ _ e. e ≡ fault.NoMemory };

    fn from(_failed: AllocError) -> WorldFault {
        WorldFault::NoMemory
    }
}

/// The first part of a setup that is out of its range, if any is.
pub(crate) fn fault_of(setup: &Setup) -> Option<WorldFault>
    ensures { result ≡ setups.setup_fault setup.now }
{
    if !forms(setup.kind, setup.size) {
        Some(WorldFault::Group)
    } else if setup.stages < 1 || setup.stages > MAX_STAGES {
        Some(WorldFault::Stages)
    } else if setup.bits > MAX_BITS {
        Some(WorldFault::Bits)
    } else if setup.life < 1 || setup.life > MAX_LIFE {
        Some(WorldFault::Life)
    } else if setup.cap < 1 || setup.cap > MAX_LOG_LEN {
        Some(WorldFault::Cap)
    } else {
        None
    }
}

/// The bar of a removal that the service refuses.
pub(crate) fn bar_of(fault: RemoveFault) -> Bar
    ensures { result ≡ settled.removal_bar fault }
{
    match fault {
        RemoveFault::Fixed => Bar::Fixed,
        RemoveFault::NotMember => Bar::Member,
        RemoveFault::Last => Bar::Last,
    }
}

/// The bar of a start that the service refuses.
pub(crate) fn start_bar_of(fault: StartFault) -> Bar
    ensures { result ≡ settled.start_bar fault }
{
    match fault {
        StartFault::NotRetired => Bar::NotRetired,
        StartFault::NotRefused { .. } => Bar::NotRefused,
        StartFault::NoNumber => Bar::NoSwitch,
    }
}
