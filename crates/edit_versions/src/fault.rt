ghost use Rattle.std.specs.Prelude.{◌≡◌};
ghost use Rattle.edit_versions.specs.declared.fault.EditFault.TheVariants.{NoMemory as no_memory};

use sheaf_words::Cause;
use std::alloc::AllocError as NoMemory;

/// Why an edit was not made.
#[derive(Clone, Copy, Debug, PartialEq, Eq)]
pub enum EditFault {
    /// The edit is refused.
    Refused(Cause),
    /// Memory ran out.
    NoMemory,
}

impl From<NoMemory> for EditFault {
    ghost from_gives = { λ _ e. e ≡ no_memory };

    fn from(_: NoMemory) -> Self {
        EditFault::NoMemory
    }
}
