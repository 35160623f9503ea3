//! Laws of padding, the contract of a function that does nothing.
//!
//! Definitions: `Laws`. The function has no callers: it makes the check prove the laws.

ghost use Rattle.padding.specs.Laws.{IsTakenBack, LiesWithin, MakesRoom, RefusesForEver, StandsApart};

/// What is trimmed is the rectangle but for its padding: with the padding it is that rectangle again, it lies in it, and
/// two that come of rectangles without a common pixel have no common pixel either. A rectangle that is large enough for
/// a size with its padding is large enough for the size once it is trimmed. A size whose padding is refused has no place
/// in any atlas.
pub fn padding_is_given_back()
    ensures back { IsTakenBack }
    ensures within { LiesWithin }
    ensures apart { StandsApart }
    ensures room { MakesRoom }
    ensures refused { RefusesForEver }
{}
