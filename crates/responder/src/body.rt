ghost use Rattle.std.specs.Prelude.{◌≡◌, ◌≤◌, ◌∷◌, length};
ghost use Rattle.responder_core.specs.Sessions.{body_by};
ghost use Rattle.secured_record.specs.declared.TheConstants.{MAX_RECORD_SIZE};

use spdm_basis::Buffer;
use spdm_grammar::Heard;
use spdm_grammar::names::MAX_BODY_SIZE;
use spdm_grammar::names::message_type::{SECURED, SPDM};

/// The body of an MCTP message: its type, and an SPDM message or a record.
pub(crate) type Body = Buffer<MAX_BODY_SIZE>;

/// Overwrites a body with a message type and a message of at most 4,160 bytes.
pub(crate) fn write_body(kind: u8, message: &[u8], body: &mut Body)
    requires { length message.now ≤ MAX_RECORD_SIZE }
    ensures { body.new ≡ kind ∷ message.now }
{
    body.clear();
    let _ = body.extend(&[kind]);
    let _ = body.extend(message);
}

/// Writes the response to a record: ERROR in the clear if no session opens it, else a record.
pub(crate) fn write_reply(heard: Heard, reply: &[u8], body: &mut Body)
    requires { length reply.now ≤ MAX_RECORD_SIZE }
    ensures { body.new ≡ body_by heard reply.now }
{
    match heard {
        Heard::Unopened => write_body(SPDM, reply, body),
        _ => write_body(SECURED, reply, body),
    }
}
