// Frames for C: opening, copying, encoding, and the splitter.
// Each call is the library's of that name, and promises what that one does.

ghost use Rattle.std.specs.Prelude.{length, ◌≡◌};
ghost use Rattle.abi.specs.Answer.{Passed};
ghost use Rattle.abi_frame.specs.Frames.{encoded_of, words_of};
ghost use Rattle.abi_splitter.specs.Fed.{feed_from, left_by};
ghost use Rattle.error.specs.Refusal.{filled, on_yes};
ghost use Rattle.frame.specs.Rule.{copy_rule, open_rule};

#[unsafe(no_mangle)]
pub extern "C" fn mvd_open(wire: &[u8], header: &mut [u64; 4], values: &mut [u64; 3]) -> u64
    ensures { Passed (on_yes words_of (open_rule wire.now))
        header.old values.old result header.new values.new }
{
    abi_frame::mvd_open(wire, header, values)
}

#[unsafe(no_mangle)]
pub extern "C" fn mvd_copy_payload(
    wire: &[u8],
    buf: &mut [u8],
    len: &mut usize,
    values: &mut [u64; 3],
) -> u64
    ensures reply { Passed (on_yes length (copy_rule wire.now (length buf.old)))
        len.old values.old result len.new values.new }
    ensures bytes { buf.new ≡ filled (copy_rule wire.now (length buf.old)) buf.old }
{
    abi_frame::mvd_copy_payload(wire, buf, len, values)
}

#[unsafe(no_mangle)]
pub extern "C" fn mvd_encode(
    dest: u8,
    src: u8,
    type_id: u8,
    payload: &[u8],
    wire: &mut [u8],
    len: &mut usize,
    values: &mut [u64; 3],
) -> u64
    ensures reply { Passed (on_yes length (encoded_of dest src type_id payload.now (length wire.old)))
        len.old values.old result len.new values.new }
    ensures bytes { wire.new
        ≡ filled (encoded_of dest src type_id payload.now (length wire.old)) wire.old }
{
    abi_frame::mvd_encode(dest, src, type_id, payload, wire, len, values)
}

#[unsafe(no_mangle)]
pub extern "C" fn mvd_feed(
    splitter: &mut [u64; 7],
    hold: &mut [u8],
    chunk: &[u8],
    fed: &mut [u64; 5],
    values: &mut [u64; 3],
) -> u64
    ensures reply { Passed (left_by (feed_from splitter.old hold.old chunk.now))
        (splitter.old, fed.old) values.old
        result (splitter.new, fed.new) values.new }
    ensures bytes { hold.new ≡ (feed_from splitter.old hold.old chunk.now).hold }
{
    abi_splitter::mvd_feed(splitter, hold, chunk, fed, values)
}
