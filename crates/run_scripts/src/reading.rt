//! Everything that a reader has, up to its end, in memory.
//!
//! A failed read is told from missing memory, and is never retried.

ghost use Rattle.std.specs.Prelude.{◌≡◌, ◌≢◌, IfErr, IfOk, IfSome, OnOk};
ghost use Rattle.std.specs.Io.KnownBytes.{IsAtEnd};

use crate::faults::ReplayFault;
use std::alloc::Global;
use std::io::Read;

/// How many bytes are asked of a reader at once.
const CHUNK: usize = 4096;

/// Everything that a reader gives up to its end. A failed read is answered as such, also one that
/// was interrupted.
pub fn read_all<R: Read>(alloc: Global, reader: &mut R) -> Result<Vec<u8>, ReplayFault>
    ensures all { IfOk result (λ input.
        IfSome (R.remaining reader.old) (λ bytes. input.items ≡ bytes)) }
    ensures end { OnOk result (IsAtEnd (R.remaining reader.new)) }
    ensures fault { IfErr result (λ fault. fault ≢ ReplayFault.Write) }
{
    let mut input = Vec::new(alloc);
    let mut buffer = [0u8; CHUNK];
    for _ in 0..u64::MAX {
        let count = reader.read(&mut buffer).map_err(|_| ReplayFault::Read)?;
        if count == 0 {
            return Ok(input);
        }
        input
            .extend_from_slice(&buffer[..count])
            .map_err(|_| ReplayFault::Memory)?;
    }
    Err(ReplayFault::Memory)
}
