// The bytes of a frame that the splitter answered: a part of the chunk or of the hold buffer, where it lies.
// A place that does not fit its buffer shows the chunk's empty start, so every place is answered.
#![tactic(auto)]

ghost use Rattle.std.specs.Prelude.{◌≡◌};
ghost use Rattle.view.specs.View.{view_rule, view_at};

use splitter::Place;

// The bytes at a place: a part of the chunk or of the hold, or the chunk's empty start where the place does not fit.
pub fn view<'a>(chunk: &'a [u8], hold: &'a [u8], place: Place) -> &'a [u8]
    ensures result_value { result.now ≡ view_rule chunk.now hold.now place }
    ensures ref_ptr_value { result.ref_ptr ≡ view_at chunk.entry hold.entry place }
{
    let from = place.start;
    let len = place.len;
    let buffer = if place.in_hold { hold } else { chunk };
    if from <= buffer.len() && len <= buffer.len() - from {
        return &buffer[from..from + len];
    }
    &chunk[0..0]
}
