ghost use Rattle.std.specs.Prelude.{◌≡◌, ◌≤◌, ◌∷◌, [], ℕ, List, length, slice_index};
ghost use Rattle.byteorder.specs.Endian.{little_bytes};
ghost use Rattle.responder_machine.specs.Answer.{Free, answer_bytes};
ghost use Rattle.responder_machine.specs.Handling.{detail_of, error_bytes, large_response, version_in};
ghost use Rattle.responder_machine.specs.Place as places;
ghost use Rattle.responder_machine.specs.Setup.{RspSetup};
ghost use Rattle.spdm_grammar.specs.declared.messages.error_code.ErrorCode.TheVariants.{ResponseTooLarge};
ghost use Rattle.responder_rules.specs.Place.{IsPlace};

use crate::Place;
use byteorder::{ByteOrder, LittleEndian};
use spdm_basis::Frame;
use spdm_grammar::names::response_code::ERROR;
use spdm_grammar::names::spdm_version::{V1_0, V1_2};
use spdm_grammar::{ErrorCode, Phase};

// SPDMVersion of an ERROR in a phase.
fn version_in(phase: Phase) -> u8
    ensures { result ≡ version_in phase }
{
    match phase {
        Phase::Fresh => V1_0,
        Phase::Versioned | Phase::Capable | Phase::Negotiated => V1_2,
    }
}

// Error data of the ERROR to a message: its request code for UnsupportedRequest, else 0.
fn detail_of(code: ErrorCode, message: &[u8]) -> u8
    ensures { result ≡ detail_of code (slice_index message.now 1) }
{
    match (code, message) {
        (ErrorCode::UnsupportedRequest, [_, asked, ..]) => *asked,
        _ => 0,
    }
}

// A length as extended error data.
fn four_bytes(number: u32) -> [u8; 4]
    ensures { result ≡ little_bytes 4 number }
{
    let mut bytes = [0u8; 4];
    LittleEndian::write_u32(&mut bytes, number);
    bytes
}

impl Place {
    /// Overwrites `out` with the ERROR with which a message is refused at this place (DSP0274, "ERROR response message
    /// format"). For ResponseTooLarge `answer_len` is the length of the answer; for other codes it does not matter.
    pub fn write_error(&self, code: ErrorCode, message: &[u8], answer_len: u32, out: &mut Frame)
        ensures value { (r : RspSetup) (p : places.Place) (f : Free) → IsPlace self.now p
            → (code ≡ ResponseTooLarge → answer_len ≡ length (answer_bytes r p message.now f))
            → out.new ≡ error_bytes r p message.now f code }
        ensures size { length out.new ≤ 8 }
    {
        out.clear();
        let detail = detail_of(code, message);
        let _ = out.extend(&[version_in(self.phase), ERROR, code.number(), detail]);
        if code == ErrorCode::ResponseTooLarge {
            let _ = out.extend(&four_bytes(answer_len));
        }
    }
}

/// Overwrites `out` with the ERROR LargeResponse with a handle.
pub fn write_large_response(handle: u8, out: &mut Frame)
    ensures value { out.new ≡ large_response handle }
    ensures size { length out.new ≡ 5 }
{
    out.clear();
    let code = ErrorCode::LargeResponse.number();
    let _ = out.extend(&[V1_2, ERROR, code, 0, handle]);
}
