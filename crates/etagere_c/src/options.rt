//! The options that nothing else is asked for with.
//!
//! Definitions: `Crossing`, `Statuses`, and `Options` of `etagere_base`.

ghost use Rattle.std.specs.Prelude.{◌≡◌};
ghost use Rattle.etagere_base.specs.Options.{default_options};
ghost use Rattle.c_answers.specs.Crossing.{options_in};
ghost use Rattle.c_answers.specs.Statuses as statuses;

use c_answers::geometry::EtagereOptions;
use c_answers::statuses::OK;
use etagere::DEFAULT_OPTIONS;

/// Gives the options of ETAGERE_DEFAULT_OPTIONS: no alignment, one column, shelves that lie.
///
/// Answers ETAGERE_OK. Takes constant time.
#[unsafe(no_mangle)]
pub extern "C" fn etagere_default_options(options: &mut EtagereOptions) -> u32
    ensures status { result ≡ statuses.ok }
    ensures default { options_in options.new ≡ default_options }
{
    *options = EtagereOptions::of(&DEFAULT_OPTIONS);
    OK
}
