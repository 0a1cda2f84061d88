ghost use Rattle.std.specs.Prelude.{◌≡◌, ◌≤◌, ◌++◌, [], ◌∷◌, ℕ, List, length};
ghost use Rattle.key_schedule.specs.Purpose.{Purpose};
ghost use Rattle.requester_machine.specs.Sending.{finish_verify};
ghost use Rattle.requester_machine.specs.Session.{session_id, t1_of};
ghost use Rattle.session_keys.specs.Handshake.{IsHandshakeOf};
ghost use Rattle.session_keys.specs.Keys.{IsKeyOf};
ghost use Rattle.spdm_basis.specs.SessionIdBytes.{session_id_bytes};
ghost use Rattle.spdm_basis.specs.Sizes.{hash_size};
ghost use Rattle.spdm_grammar.specs.Message.RequestMessage.{PskFinish};
ghost use Rattle.spdm_grammar.specs.Requests.{canonical_request};
ghost use Rattle.spdm_grammar.specs.declared.messages.choice.Choice.{Choice};
ghost use Rattle.spdm_machine.specs.Keys.{sealed_of};
ghost use Rattle.spdm_machine.specs.Terms.{terms_of};
ghost use Rattle.transcript.specs.Lane as lanes;
ghost use Rattle.transcript.specs.Lane.{lane_hash};
ghost use Rattle.transcript.specs.Transcripts.{Negotiation, vca_of};
ghost use Rattle.psk_session.specs.Finishing.{finish_message};
ghost use Rattle.psk_session.specs.Opening.{accepted, finish_record};
ghost use Rattle.spdm_grammar.specs.declared.names.TheConstants.{MAX_PADDING};
ghost use Rattle.spdm_grammar.specs.declared.names.message_type.TheConstants.{SPDM};

use crate::requests::write_finish;
use secured_record::RecordKey;
use session_keys::{Handshake, seal_record};
use spdm_basis::{Buffer, Frame, HashBytes, RecordFrame, SessionId};
use spdm_grammar::names::message_type::SPDM;
use transcript::Lane;

// The record of an SPDM message of at most 52 bytes, under the key of a purpose.
fn seal_short(key: &RecordKey, id: SessionId, number: u16, message: &[u8], pad: &[u8]) -> Buffer<96>
    requires message { length message.now ≤ 52 }
    requires pad { length pad.now ≤ MAX_PADDING }
    ensures { (choice : Choice) (p : Purpose) → IsKeyOf key.now choice p
        → result ≡ sealed_of choice p number (session_id_bytes id.req id.rsp)
        (SPDM ∷ message.now) pad.now }
{
    let mut inner = Buffer::<64>::new();
    let _ = inner.extend(&[SPDM]);
    let _ = inner.extend(message);
    let mut record = RecordFrame::new();
    seal_record(key, id, number, inner.as_slice(), pad, &mut record);
    let mut short = Buffer::<96>::new();
    let _ = short.extend(record.as_slice());
    short
}

// A lane that was given what this lane was, and more.
pub fn lane_with(lane: &Lane, more: &[u8]) -> Lane
    ensures hash { lane_hash result ≡ lane_hash lane.now }
    ensures pushed { (given : List ℕ) → lanes.StandsFor lane.now given
        → lanes.StandsFor result (given ++ more.now) }
{
    let mut lane = lane.clone().unwrap();
    lane.push(more);
    lane
}

// A lane that was given what this lane was, and PSK_FINISH without its verify data.
fn lane_with_finish(lane: &Lane) -> Lane
    ensures hash { lane_hash result ≡ lane_hash lane.now }
    ensures pushed { (given : List ℕ) → lanes.StandsFor lane.now given
        → lanes.StandsFor result (given ++ canonical_request (PskFinish [])) }
{
    let mut header = Frame::new();
    write_finish(&[], &mut header);
    lane_with(lane, header.as_slice())
}

// The verify data of PSK_FINISH in a handshake, over the transcript up to PSK_EXCHANGE_RSP, which the lane was given.
pub fn verify_of_finish(handshake: &Handshake, lane: &Lane) -> HashBytes
    requires { lane_hash lane.now ≡ handshake.now.keys.hash }
    ensures value { (psk : List ℕ) (n : Negotiation) (exchange answer : List ℕ)
        → IsHandshakeOf handshake.now (terms_of n).choice psk (t1_of (accepted n exchange answer))
        → lanes.StandsFor lane.now (vca_of n ++ exchange ++ answer)
        → result ≡ finish_verify psk (accepted n exchange answer) }
    ensures size { length result ≡ hash_size handshake.now.keys.hash }
{
    handshake.requester_verify(lane_with_finish(lane))
}

// The record of PSK_FINISH, with this padding.
pub fn seal_finish(handshake: &Handshake, id: SessionId, message: &[u8], pad: &[u8]) -> Buffer<96>
    requires message { length message.now ≤ 52 }
    requires pad { length pad.now ≤ MAX_PADDING }
    ensures { (psk : List ℕ) (n : Negotiation) (exchange answer : List ℕ)
        → IsHandshakeOf handshake.now (terms_of n).choice psk (t1_of (accepted n exchange answer))
        → id ≡ session_id (accepted n exchange answer)
        → message.now ≡ finish_message psk n exchange answer
        → result ≡ finish_record psk (accepted n exchange answer) pad.now }
{
    seal_short(&handshake.request_key(), id, 0, message, pad)
}
