ghost use Rattle.std.specs.Prelude.{◌≡◌, ◌≤◌, length};
ghost use Rattle.spdm_machine.specs.Bodies.{clear_body, record_body};
ghost use Rattle.secured_record.specs.declared.TheConstants.{MAX_RECORD_SIZE};

use spdm_basis::Buffer;
use spdm_grammar::names::MAX_BODY_SIZE;
use spdm_grammar::names::message_type::{SECURED, SPDM};

/// An MCTP message body: the message type, and an SPDM message (DSP0275) or a secured record (DSP0276).
pub type Body = Buffer<MAX_BODY_SIZE>;

// Overwrites `out` with the body of a clear message.
pub(crate) fn write_clear(message: &[u8], out: &mut Body)
    requires { length message.now ≤ MAX_RECORD_SIZE }
    ensures { out.new ≡ clear_body message.now }
{
    out.clear();
    let _ = out.extend(&[SPDM]);
    let _ = out.extend(message);
}

// Overwrites `out` with the body of a record.
pub(crate) fn write_record(sealed: &[u8], out: &mut Body)
    requires { length sealed.now ≤ MAX_RECORD_SIZE }
    ensures { out.new ≡ record_body sealed.now }
{
    out.clear();
    let _ = out.extend(&[SECURED]);
    let _ = out.extend(sealed);
}
