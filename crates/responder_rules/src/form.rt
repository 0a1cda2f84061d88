ghost use Rattle.std.specs.Prelude.{◌≡◌};
ghost use Rattle.responder_machine.specs.Place as places;
ghost use Rattle.responder_machine.specs.Refusal as refusal;
ghost use Rattle.responder_machine.specs.Refusal.{limit_of};
ghost use Rattle.responder_machine.specs.Setup.{RspSetup};
ghost use Rattle.responder_rules.specs.Place.{IsPlace, IsRead};

use crate::{Place, Where};
use spdm_codec::read_request;
use spdm_grammar::names::request_code::{
    CHUNK_GET, CHUNK_SEND, END_SESSION, GET_CAPABILITIES, GET_MEASUREMENTS, GET_VERSION, HEARTBEAT,
    KEY_UPDATE, NEGOTIATE_ALGORITHMS, PSK_EXCHANGE, PSK_FINISH,
};
use spdm_grammar::names::spdm_version::{V1_0, V1_2};
use spdm_grammar::names::{REQUESTS_OF_V1_2, is_one_of};
use spdm_grammar::{ErrorCode, Phase, Request, Stage};

// Whether it is one of the eleven requests of this profile.
fn is_known(code: u8) -> bool
    ensures { result ≡ refusal.is_known code }
{
    code == GET_VERSION || is_one_of(&REQUESTS_OF_V1_2, code)
}

// Whether a phase allows a request in the clear.
fn phase_allows(phase: Phase, pending: bool, code: u8) -> bool
    ensures { result ≡ refusal.phase_allows phase pending code }
{
    let is_of_phase = match phase {
        Phase::Fresh => code == GET_VERSION,
        Phase::Versioned => matches!(code, GET_VERSION | GET_CAPABILITIES),
        Phase::Capable => matches!(code, GET_VERSION | NEGOTIATE_ALGORITHMS | CHUNK_SEND),
        Phase::Negotiated => matches!(
            code,
            GET_VERSION | GET_MEASUREMENTS | PSK_EXCHANGE | CHUNK_SEND
        ),
    };
    is_of_phase || (code == CHUNK_GET && pending)
}

// Whether a stage allows a request in its session.
fn stage_allows(stage: Stage, pending: bool, code: u8) -> bool
    ensures { result ≡ refusal.stage_allows stage pending code }
{
    match stage {
        Stage::Handshake => code == PSK_FINISH,
        Stage::Open => {
            matches!(
                code,
                GET_MEASUREMENTS | HEARTBEAT | KEY_UPDATE | END_SESSION
            ) || (code == CHUNK_GET && pending)
        }
        Stage::Verifying => code == KEY_UPDATE,
    }
}

// The SPDMVersion of a request.
fn version_for(code: u8) -> u8
    ensures { result ≡ refusal.version_for code }
{
    if code == GET_VERSION { V1_0 } else { V1_2 }
}

impl Place {
    // Whether the phase allows a request in the clear and in chunks, or the stage one in a session.
    fn allows(&self, code: u8) -> bool
        ensures { (p : places.Place) → IsPlace self.now p
            → result ≡ refusal.is_allowed p.at p code }
    {
        match self.at {
            Where::InClear | Where::InChunks => phase_allows(self.phase, self.pending, code),
            Where::InSession => stage_allows(self.stage, self.pending, code),
        }
    }

    /// Reads a request of at most `limit` bytes at this place, or answers the code with which its form is refused:
    /// InvalidRequest for fewer than four bytes; RequestTooLarge; UnsupportedRequest for a code that is none of this
    /// profile; SessionRequired; UnsupportedRequest for CHUNK_SEND in a session; UnexpectedRequest for one that does
    /// not come at such a place, or that its phase or stage does not allow; VersionMismatch; InvalidRequest for one
    /// that cannot be read.
    #[tactic(auto, unfolding(responder_machine::specs::Refusal::refused_form))]
    pub fn read<'a>(&self, limit: u32, message: &'a [u8]) -> Result<Request<'a>, ErrorCode>
        ensures { (r : RspSetup) (p : places.Place) → IsPlace self.now p → limit ≡ limit_of r p.at
            → IsRead r p message.now result }
    {
        if message.len() < 4 {
            return Err(ErrorCode::InvalidRequest);
        }
        if message.len() > limit as usize {
            return Err(ErrorCode::RequestTooLarge);
        }
        let code = message[1];
        if !is_known(code) {
            return Err(ErrorCode::UnsupportedRequest);
        }
        if self.at.needs_session(code) {
            return Err(ErrorCode::SessionRequired);
        }
        if self.at.is_chunk_in_session(code) {
            return Err(ErrorCode::UnsupportedRequest);
        }
        if self.at.is_misplaced(code) || !self.allows(code) {
            return Err(ErrorCode::UnexpectedRequest);
        }
        if message[0] != version_for(code) {
            return Err(ErrorCode::VersionMismatch);
        }
        read_request(message, self.choice.hash.size()).map_err(|_| ErrorCode::InvalidRequest)
    }

    /// Whether what a request with this code needs was not negotiated.
    pub fn lacks_flag(&self, code: u8) -> bool
        ensures { (p : places.Place) → IsPlace self.now p
            → result ≡ refusal.lacks_flag (places.place_terms p) code }
    {
        match code {
            GET_MEASUREMENTS => !self.choice.measure,
            CHUNK_SEND | CHUNK_GET => !self.common.chunk,
            HEARTBEAT => !self.common.heartbeat,
            KEY_UPDATE => !self.common.key_update,
            _ => false,
        }
    }
}
