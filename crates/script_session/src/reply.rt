// What a reply's bytes say.
ghost use Rattle.std.specs.Prelude.{◌≡◌};
ghost use Rattle.script_session.specs.Reply.{is_error, wants_memory};

/// The reply is a refusal.
pub(crate) fn is_error_reply(reply: &[u8]) -> bool
    ensures { result ≡ is_error reply.now }
{
    reply.starts_with(b"error ")
}

/// The reply is the refusal for want of memory.
pub fn is_memory_reply(reply: &[u8]) -> bool
    ensures { result ≡ wants_memory reply.now }
{
    reply == b"error 90 memory\n".as_slice()
}
