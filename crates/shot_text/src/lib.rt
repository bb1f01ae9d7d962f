// E5, the shot processing state text: the payload without the control bytes at its two ends, as a part of it.
// The three searches say yes exactly where their word stands in the text.
#![tactic(auto)]

ghost use Rattle.std.specs.Prelude.{◌≡◌, ◌+◌, ◌-◌, ◌≤◌, length, take, drop};
ghost use Rattle.shot_text.specs.Trim.{cut_front, cut_back, text_of, text_at, place_of};
ghost use Rattle.shot_text.specs.Search.{Says, StandsAt, Stands, bytes};

#[derive(Drop)]
pub struct ShotText {}

// Where a text lies in its payload.
#[derive(Clone, Copy)]
pub struct TextPlace {
    pub start: usize,
    pub len: usize,
}

impl ShotText {
    pub fn place(payload: &[u8]) -> TextPlace
        ensures { result ≡ place_of payload.now }
    {
        let end = end_of(payload);
        let start = start_of(&payload[..end]);
        TextPlace {
            start,
            len: end - start,
        }
    }

    pub fn decode(payload: &[u8]) -> &[u8]
        ensures result_value { result.now ≡ text_of payload.now }
        ensures ref_ptr_value { result.ref_ptr ≡ text_at payload.entry }
    {
        let TextPlace { start, len } = ShotText::place(payload);
        &payload[start..start + len]
    }

    // Whether the word PROCESSED stands in it.
    pub fn is_processed(text: &[u8]) -> bool
        ensures { Says (Stands (bytes "PROCESSED") text.now) result }
    {
        contains(text, b"PROCESSED")
    }

    // Whether the word IDLE stands in it.
    pub fn is_idle(text: &[u8]) -> bool
        ensures { Says (Stands (bytes "IDLE") text.now) result }
    {
        contains(text, b"IDLE")
    }

    // Whether the words BALL TRIGGER stand in it.
    pub fn is_trigger(text: &[u8]) -> bool
        ensures { Says (Stands (bytes "BALL TRIGGER") text.now) result }
    {
        contains(text, b"BALL TRIGGER")
    }
}

// One past the last byte that is no control byte, or 0. This and the next three are written out: `rposition`, `position`, `starts_with`
// and `any` took 5 to 65 % longer.
fn end_of(payload: &[u8]) -> usize
    ensures { (result ≤ length payload.now) × (take result payload.now ≡ cut_back payload.now) }
{
    for i in (0..payload.len()).rev() {
        if 0x20 <= payload[i] {
            return i + 1;
        }
    }
    0
}

// The first byte that is no control byte, or the length.
fn start_of(text: &[u8]) -> usize
    ensures { (result ≤ length text.now) × (drop result text.now ≡ cut_front text.now) }
{
    for (start, &b) in text.iter().enumerate() {
        if 0x20 <= b {
            return start;
        }
    }
    text.len()
}

// Whether the word stands in the text from place k on.
fn stands_at(text: &[u8], k: usize, word: &[u8]) -> bool
    requires { k + length word.now ≤ length text.now }
    ensures { Says (StandsAt word.now text.now k) result }
{
    for (i, &b) in word.iter().enumerate() {
        if text[k + i] != b {
            return false;
        }
    }
    true
}

// Whether the word stands anywhere in the text.
fn contains(text: &[u8], word: &[u8]) -> bool
    ensures { Says (Stands word.now text.now) result }
{
    if text.len() < word.len() {
        return false;
    }
    for k in 0..=text.len() - word.len() {
        if stands_at(text, k, word) {
            return true;
        }
    }
    false
}
