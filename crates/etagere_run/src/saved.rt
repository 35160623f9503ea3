//! What is answered of a saved atlas.
//!
//! Definition: `Saved`. The rules of a snapshot are those of each atlas, and its JSON text is read by `saved_json`.

ghost use Rattle.std.specs.Prelude.{◌≡◌};
ghost use Rattle.etagere_run.specs.Private.Judged.{refusal};

use etagere::RestoreFault;
use run_scripts::faults::{Checked, ReplayFault};

/// The answer where a snapshot isn't restored.
pub fn refusal(fault: RestoreFault) -> Result<Checked, ReplayFault>
    ensures { result ≡ refusal fault }
{
    match fault {
        RestoreFault::Memory => Err(ReplayFault::Memory),
        fault => Ok(Checked::Broken(fault.number())),
    }
}
