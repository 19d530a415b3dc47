// The one entry, on session bytes and output bytes.
ghost use Rattle.std.specs.Prelude.{◌≡◌, ◌≤◌, length};
ghost use Rattle.session.specs.Sessions.{dispatch_output, most_session_bytes};
ghost use Rattle.agent.specs.Entry.{entry_answer, entry_bytes};

// Stays: (a) a refusal's number below 0: the C interface.
// The answer to a session text, written into a lent slice: its length, or -12 and not one byte changed, where it has no room. 458,808 bytes, the header's
// GEKUMOSARI_MOST_BYTES, are room for every text.
#[unsafe(no_mangle)]
pub extern "C" fn gekumosari_session(text: &[u8], out: &mut [u8]) -> i64
    ensures value { result ≡ entry_answer text.now out.old }
    ensures out_after { out.new ≡ entry_bytes text.now out.old }
    ensures text_len_bound { length (dispatch_output text.now) ≤ most_session_bytes }
{
    match session::answer(text, out) {
        Ok(length) => length as i64,
        Err(x) => -(x.number() as i64),
    }
}
