ghost use Rattle.std.specs.Prelude.{◌≡◌, ◌++◌, ℕ, List, length};
ghost use Rattle.session_keys.specs.Handshake.{IsHandshakeOf};
ghost use Rattle.session_keys.specs.Terms.{AreTermsOf};
ghost use Rattle.spdm_basis.specs.Sizes.{hash_size};
ghost use Rattle.spdm_machine.specs.Terms.{terms_of};
ghost use Rattle.transcript.specs.Lane as lanes;
ghost use Rattle.transcript.specs.Lane.{lane_hash};
ghost use Rattle.transcript.specs.Transcripts.{Negotiation, vca_of};
ghost use Rattle.responder_session.specs.Exchange.{AreAnswered, AreParts, answer_for, answer_with, t1_with};

use crate::ExchangeParts;
use byte_compare::same_bytes;
use session_keys::{Handshake, SessionTerms, without_verify};
use spdm_basis::{Frame, HashAlg, HashBytes, Psk};
use spdm_codec::write_response;
use spdm_grammar::{ExchangeRsp, Response};
use transcript::Lane;

// Overwrites `out` with PSK_EXCHANGE_RSP with these verify data; one that passes 4,096 bytes is not whole.
fn write_answer(parts: &ExchangeParts<'_>, terms: SessionTerms, verify: &HashBytes, out: &mut Frame)
    requires parts { AreParts terms parts.now }
    requires verify { length verify.now ≡ hash_size terms.choice.hash }
    ensures { AreAnswered terms parts.now → out.new ≡ answer_with parts.now verify.now }
{
    out.clear();
    let hash_len = terms.choice.hash.size();
    let answer = ExchangeRsp {
        heartbeat: parts.heartbeat,
        rsp_id: parts.rsp_id,
        summary: parts.summary,
        context: parts.context,
        opaque: parts.opaque,
        verify: verify.as_slice(),
    };
    let response = Response::PskExchangeRsp(answer);
    let _ = write_response(&response, hash_len, terms.summary, out);
}

// A lane that was given what this lane was, and more.
pub fn lane_with(lane: &Lane, more: &[u8]) -> Lane
    ensures hash { lane_hash result ≡ lane_hash lane.now }
    ensures pushed { (given : List ℕ) → lanes.StandsFor lane.now given
        → lanes.StandsFor result (given ++ more.now) }
{
    let mut lane = lane.clone().unwrap();
    lane.push(more);
    lane
}

// What stands for verify data of which only the length matters.
fn blank(hash: HashAlg) -> HashBytes
    ensures { length result ≡ hash_size hash }
{
    match hash {
        HashAlg::Sha256 => HashBytes::from([0u8; 32]),
        HashAlg::Sha384 => HashBytes::from([0u8; 48]),
    }
}

// Overwrites the end of a text; one that is shorter than the end stays.
fn overwrite_end(text: &mut [u8], end: &[u8])
    ensures { (front old : List ℕ) → text.old ≡ front ++ old → length old ≡ length end.now
        → text.new ≡ front ++ end.now }
{
    if let Some(at) = text.len().checked_sub(end.len()) {
        text[at..].copy_from_slice(end);
    }
}

// Puts verify data in the place of the blank ones at the end of a message.
fn put_verify(verify: &HashBytes, out: &mut Frame)
    ensures { (front old : List ℕ) → out.old ≡ front ++ old → length old ≡ length verify.now
        → out.new ≡ front ++ verify.now }
{
    overwrite_end(out.as_mut_slice(), verify.as_slice());
}

// Overwrites `out` with PSK_EXCHANGE_RSP with these parts, and gives the handshake that it fixes; the lane was given
// VCA and PSK_EXCHANGE. The verify data come last into the answer, since the key they are made with is that of what
// stands before them.
pub fn answer_exchange(
    lane: &Lane,
    psk: &Psk,
    terms: SessionTerms,
    parts: &ExchangeParts<'_>,
    out: &mut Frame,
) -> Handshake
    requires lane { lane_hash lane.now ≡ terms.choice.hash }
    requires parts { AreParts terms parts.now }
    ensures hash { result.keys.hash ≡ terms.choice.hash }
    ensures value { (n : Negotiation) (exchange : List ℕ) → AreTermsOf terms n exchange
        → AreAnswered terms parts.now → lanes.StandsFor lane.now (vca_of n ++ exchange)
        → IsHandshakeOf result (terms_of n).choice psk.now (t1_with n exchange parts.now) }
    ensures answer { (n : Negotiation) (exchange : List ℕ) → AreTermsOf terms n exchange
        → AreAnswered terms parts.now → lanes.StandsFor lane.now (vca_of n ++ exchange)
        → out.new ≡ answer_for psk.now n exchange parts.now }
{
    let choice = terms.choice;
    write_answer(parts, terms, &blank(choice.hash), out);
    let lane = lane_with(lane, without_verify(choice.hash, out.as_slice()));
    let handshake = Handshake::new(choice.hash, choice.aead, psk, lane.finish());
    put_verify(&handshake.responder_verify(), out);
    handshake
}

// What PSK_EXCHANGE and its answer fix: the running hash of the transcript up to PSK_EXCHANGE_RSP,
// and the secrets of the handshake.
#[derive(Drop)]
pub struct Exchange {
    pub lane: Lane,
    pub handshake: Handshake,
    pub ghost same: { lane_hash lane ≡ handshake.keys.hash },
}

impl Exchange {
    ghost use Rattle.std.specs.Prelude.{◌≡◌, ◌++◌, ℕ, List, length, bytes_eq};
    ghost use Rattle.key_schedule.specs.declared.direction.Direction.TheVariants.{Request};
    ghost use Rattle.running_hash.specs.Hash.{hash_of};
    ghost use Rattle.session_keys.specs.Handshake.{IsHandshakeOf};
    ghost use Rattle.spdm_basis.specs.Sizes.{hash_size};
    ghost use Rattle.spdm_grammar.specs.declared.messages.choice.Choice.{Choice};
    ghost use Rattle.spdm_machine.specs.Keys.{verify_data};
    ghost use Rattle.transcript.specs.Lane as lanes;
    ghost use Rattle.transcript.specs.Transcripts.{without_verify};

    // Whether these are the verify data of a PSK_FINISH, under this hash.
    pub fn is_verified(&self, hash: HashAlg, message: &[u8], verify: &[u8]) -> bool
        ensures { (choice : Choice) (psk t1 given : List ℕ) → hash ≡ choice.hash
            → IsHandshakeOf self.now.handshake choice psk t1 → lanes.StandsFor self.now.lane given
            → result ≡ bytes_eq verify.now (verify_data choice psk t1 Request
            (given ++ without_verify (hash_of choice.hash) message.now)) }
    {
        let lane = lane_with(&self.lane, without_verify(hash, message));
        same_bytes(verify, self.handshake.requester_verify(lane).as_slice())
    }

    // The hash of T2, which ends with PSK_FINISH and its answer.
    pub fn th2(&self, message: &[u8], answer: &[u8]) -> HashBytes
        ensures size { length result ≡ hash_size self.now.handshake.keys.hash }
        ensures value { (choice : Choice) (psk t1 given : List ℕ)
            → IsHandshakeOf self.now.handshake choice psk t1 → lanes.StandsFor self.now.lane given
            → result ≡ (hash_of choice.hash).digest (given ++ message.now ++ answer.now) }
    {
        let mut lane = lane_with(&self.lane, message);
        lane.push(answer);
        lane.finish()
    }
}
