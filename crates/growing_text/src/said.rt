//! All that a text was told, for proofs alone. It takes no room, and its functions do nothing when they run.
ghost use Rattle.std.specs.Prelude.{◌≡◌, ℕ, List, [], ◌++◌};
ghost use Rattle.std.specs.Borrow.{ftrue};

use std::marker::{Model, PhantomData};

/// All bytes that a text was told. A clause reads them as `bytes`.
#[derive(Drop)]
pub(crate) struct Said {
    of: PhantomData<u8>,
    ghost bytes: { List ℕ },
}

impl Model for Said {
    ghost also_owns = { λ _. ftrue };
}

impl Said {
    /// Nothing.
    pub(crate) fn nothing() -> Said
        ensures { result.bytes ≡ [] }
    {
        Said { of: PhantomData }
    }

    /// These bytes after all that was told before.
    pub(crate) fn and(&self, part: &[u8]) -> Said
        ensures { result.bytes ≡ self.now.bytes ++ part.now }
    {
        Said { of: PhantomData }
    }
}
