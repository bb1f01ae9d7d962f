// E5 for C: where the text lies in its payload, and whether a word stands in a text.
// What a call tells, and every lent place, is the rule of the function of that name.
#![tactic(auto)]

ghost use Rattle.std.specs.Prelude.{◌≡◌};
ghost use Rattle.shot_text.specs.Trim.{place_of};
ghost use Rattle.shot_text.specs.Search.{Stands, bytes};
ghost use Rattle.abi_shot_text.specs.Flags.{Flags};

use abi::flag;
use shot_text::ShotText;

pub fn mvd_shot_text(payload: &[u8], start: &mut usize, len: &mut usize)
    ensures start_after { start.new ≡ (place_of payload.now).start }
    ensures len_after { len.new ≡ (place_of payload.now).len }
{
    let place = ShotText::place(payload);
    *start = place.start;
    *len = place.len;
}

pub fn mvd_is_processed(text: &[u8]) -> u8
    ensures { Flags (Stands (bytes "PROCESSED") text.now) result }
{
    flag(ShotText::is_processed(text))
}

pub fn mvd_is_idle(text: &[u8]) -> u8
    ensures { Flags (Stands (bytes "IDLE") text.now) result }
{
    flag(ShotText::is_idle(text))
}

pub fn mvd_is_trigger(text: &[u8]) -> u8
    ensures { Flags (Stands (bytes "BALL TRIGGER") text.now) result }
{
    flag(ShotText::is_trigger(text))
}
