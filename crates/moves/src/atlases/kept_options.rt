//! The options of an atlas, which keeps of them what its frame says.
//!
//! Definition: `Options`.

ghost use Rattle.std.specs.Prelude.{◌≡◌};
ghost use Rattle.etagere_base.specs.Frames.{IsAccepted, IsFrame, atlas_frame, longest_side};
ghost use Rattle.etagere_base.specs.declared.geometry.Size as geometry;
ghost use Rattle.etagere_base.specs.declared.options.AllocatorOptions as given;
ghost use Rattle.moves.specs.Atlases.Options.{options_of};

use etagere_base::{AllocatorOptions, Frame, Size};

/// The options of a frame: its alignments, its direction, and as many columns as it has.
pub fn options_of(frame: &Frame) -> AllocatorOptions
    requires { IsFrame longest_side frame.now }
    ensures value { result ≡ options_of frame.now }
    ensures again { (size : geometry.Size) (options : given.AllocatorOptions)
        → IsAccepted longest_side size options → frame.now ≡ atlas_frame size options
        → atlas_frame size result ≡ frame.now }
{
    AllocatorOptions {
        alignment: Size {
            width: frame.alignment_width as i32,
            height: frame.alignment_height as i32,
        },
        vertical_shelves: frame.vertical,
        num_columns: frame.columns as i32,
    }
}
