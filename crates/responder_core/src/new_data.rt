//! The application data that a record would bring as new, told without taking it.

use crate::{Connection, Sessions, record_id};
use spdm_basis::RecordFrame;

impl Sessions {
    ghost use Rattle.std.specs.Prelude.{◌≡◌, ◌≤◌, None, Some, IfSome, MatchOption, length};
    ghost use Rattle.responder_core.specs.Sessions.{StandsFor};
    ghost use Rattle.responder_machine.specs.History.{History};
    ghost use Rattle.responder_machine.specs.NewData.{new_data_in};
    ghost use Rattle.responder_machine.specs.Setup.{RspSetup};
    ghost use Rattle.spdm_grammar.specs.declared.names.TheConstants.{MAX_APP_DATA_LEN};

    /// The application data that a record would bring as new, at most 1,024 bytes, held in `out`; `None` exactly where
    /// `on_record` would not tell `Taken` of it. No session changes.
    pub fn new_data<'a>(&self, sealed: &[u8], out: &'a mut RecordFrame) -> Option<&'a [u8]>
        ensures value { (r : RspSetup) (h : History) → StandsFor self.now r h
            → MatchOption result (new_data_in r.psk h sealed.now ≡ None)
            (λ bytes. new_data_in r.psk h sealed.now ≡ Some bytes.now) }
        ensures fits { IfSome result (λ bytes. length bytes.now ≤ MAX_APP_DATA_LEN) }
    {
        if self.ended.is_repeat(sealed) {
            return None;
        }
        match self.session(record_id(sealed).rsp) {
            Some(live) => live.session.new_data(sealed, out),
            None => None,
        }
    }
}

impl Connection {
    ghost use Rattle.std.specs.Prelude.{◌≡◌, ◌≤◌, None, Some, IfSome, MatchOption, length};
    ghost use Rattle.responder_core.specs.Connected.{StandsFor};
    ghost use Rattle.responder_machine.specs.History.{History};
    ghost use Rattle.responder_machine.specs.NewData.{new_data_in};
    ghost use Rattle.responder_machine.specs.Setup.{RspSetup};
    ghost use Rattle.spdm_grammar.specs.declared.names.TheConstants.{MAX_APP_DATA_LEN};

    /// The application data that a record would bring as new, at most 1,024 bytes, held in `out`; `None` exactly where
    /// `on_record` would not tell `Taken` of it. Nothing changes.
    pub fn new_data<'a>(&self, sealed: &[u8], out: &'a mut RecordFrame) -> Option<&'a [u8]>
        ensures value { (r : RspSetup) (h : History) → StandsFor self.now r h
            → MatchOption result (new_data_in r.psk h sealed.now ≡ None)
            (λ bytes. new_data_in r.psk h sealed.now ≡ Some bytes.now) }
        ensures fits { IfSome result (λ bytes. length bytes.now ≤ MAX_APP_DATA_LEN) }
    {
        self.sessions.new_data(sealed, out)
    }
}
