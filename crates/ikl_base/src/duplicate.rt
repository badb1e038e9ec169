// Copies that ask for memory.
ghost use Rattle.std.specs.Prelude.{◌≡◌, IfOk};

use crate::fault::NoMemory;

/// A value that can be copied where there is memory for it.
pub trait Duplicate: Drop {
    /// An equal value.
    fn copy(&self) -> Result<Self, NoMemory>
        ensures { IfOk result (λ value. value ≡ self.now) };
}
