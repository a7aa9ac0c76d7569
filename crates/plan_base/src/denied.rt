ghost use Rattle.std.specs.Prelude.{◌≡◌};

use crate::text::NoMemory;
use std::alloc::{AllocError, AllocFailed};

/// Why a call that takes memory, and may be refused, was not carried out.
#[derive(Debug, PartialEq, Eq, Drop)]
pub enum Denied<R> {
    /// It is refused for this cause.
    Refused(R),
    /// Memory could not be had.
    NoMemory,
}

impl<R> From<NoMemory> for Denied<R> {
    ghost use Rattle.plan_base.specs.declared.denied.Denied.TheVariants.{NoMemory as OutOfMemory};

    ghost from_gives = { λ _ fault. fault ≡ OutOfMemory };

    fn from(_: NoMemory) -> Self {
        Denied::NoMemory
    }
}

impl<R> From<AllocError> for Denied<R> {
    ghost use Rattle.plan_base.specs.declared.denied.Denied.TheVariants.{NoMemory as OutOfMemory};

    ghost from_gives = { λ _ fault. fault ≡ OutOfMemory };

    fn from(_: AllocError) -> Self {
        Denied::NoMemory
    }
}

impl<R, T: Drop> From<AllocFailed<T>> for Denied<R> {
    ghost use Rattle.plan_base.specs.declared.denied.Denied.TheVariants.{NoMemory as OutOfMemory};

    ghost from_gives = { λ _ fault. fault ≡ OutOfMemory };

    fn from(_: AllocFailed<T>) -> Self {
        Denied::NoMemory
    }
}
