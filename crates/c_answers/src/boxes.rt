//! Boxes of what is made.

ghost use Rattle.std.specs.Prelude.{◌≡◌, IfErr, IfOk};
ghost use Rattle.etagere_base.specs.declared.faults.OptionsFault.TheVariants as faults;

use etagere::OptionsFault;
use std::alloc::Global;

/// A box of what was made; the error comes only where there was no memory for it.
pub(crate) fn boxed<T: Drop>(alloc: Global, made: T) -> Result<Box<T>, OptionsFault>
    ensures made { IfOk result (λ boxed. boxed.value ≡ made) }
    ensures memory { IfErr result (λ fault. fault ≡ faults.Memory) }
{
    match Box::new(alloc, made) {
        Ok(boxed) => Ok(boxed),
        Err(_) => Err(OptionsFault::Memory),
    }
}
