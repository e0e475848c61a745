//! Why text is no expression.

ghost use Rattle.std.specs.Prelude.{◌≡◌};

use std::alloc::{AllocError, AllocFailed};
use thiserror::Error;

/// Why there is no tree.
#[derive(Clone, Copy, Debug, PartialEq, Eq, Error)]
pub enum SyntaxFault {
    /// The line is refused with this code.
    #[error("refused with code {0}")]
    Refused(u16),
    /// Memory was wanted and not found.
    #[error("out of memory")]
    NoMemory,
}

impl From<AllocError> for SyntaxFault {
    ghost use Rattle.nc_expressions.specs.declared.faults.SyntaxFault.TheVariants.{NoMemory};

    ghost from_gives = { λ _ fault. fault ≡ NoMemory };

    fn from(_: AllocError) -> SyntaxFault {
        SyntaxFault::NoMemory
    }
}

impl<T: Drop> From<AllocFailed<T>> for SyntaxFault {
    ghost use Rattle.nc_expressions.specs.declared.faults.SyntaxFault.TheVariants.{NoMemory};

    ghost from_gives = { λ _ fault. fault ≡ NoMemory };

    fn from(_: AllocFailed<T>) -> SyntaxFault {
        SyntaxFault::NoMemory
    }
}
