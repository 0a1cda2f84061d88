ghost use Rattle.std.specs.Prelude.{◌≢◌, ◌≤◌, ℕ, List, Some, length};
ghost use Rattle.responder_core.specs.Connected.{StandsFor};
ghost use Rattle.responder_machine.specs.History.{History};
ghost use Rattle.responder_machine.specs.Setup.{RspSetup};
ghost use Rattle.spdm_grammar.specs.declared.names.TheConstants.{MAX_MESSAGE_SIZE};
ghost use Rattle.check_fetched_laws.specs.JudgedFor.{IsLong, IsMeasured, JudgesFor};

use responder_core::Connection;

/// A connection judges while MEASUREMENTS are fetched in the session with this RspSessionID, and these bytes stand for
/// them from now on, whatever stood for them before. They are sent in chunks, of which as many were given as of those.
pub fn put_bytes(connection: &mut Connection, id: u16, bytes: &[u8])
    requires { length bytes.now ≤ MAX_MESSAGE_SIZE }
    ensures { (r : RspSetup) (h : History) (whole : List ℕ) → IsMeasured id h whole
        → IsMeasured id h bytes.now → IsLong id h whole (length bytes.now)
        → JudgesFor connection.old r h (Some id) whole
        → JudgesFor connection.new r h (Some id) bytes.now }
{
    connection.set_pending_bytes(id, bytes);
}

/// A connection judges while MEASUREMENTS are fetched in the session with this RspSessionID: they were never seen
/// whole, and it stands for the history without them from now on. These bytes stand for them, and others might.
pub fn forget_bytes(connection: &mut Connection, id: u16)
    ensures { (r : RspSetup) (h : History) (whole other : List ℕ) → whole ≢ other
        → IsMeasured id h whole → IsMeasured id h other
        → JudgesFor connection.old r h (Some id) whole → StandsFor connection.new r h }
{
    connection.forget_in(id);
}
