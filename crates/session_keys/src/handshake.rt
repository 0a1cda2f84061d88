ghost use Rattle.std.specs.Prelude.{◌≡◌, length};
ghost use Rattle.running_hash.specs.Hash.{hash_of};
ghost use Rattle.spdm_basis.specs.Sizes.{hash_size};
ghost use Rattle.transcript.specs.Transcripts.{without_verify};

use crate::wiping::zero_hash;
use key_schedule::{AppKeys, HandshakeKeys};
use secured_record::RecordKey;
use spdm_basis::{AeadAlg, HashAlg, HashBytes, Psk};
use transcript::Lane;

/// What PSK_EXCHANGE and its answer fix of a handshake (DSP0274, "Key schedule").
#[derive(Drop)]
pub struct Handshake {
    /// The hash of T1.
    pub th1: HashBytes,
    /// The secrets under it.
    pub keys: HandshakeKeys,
    pub ghost sized: { length th1 ≡ hash_size keys.hash },
}

/// A message without its verify data, which stand at its end and are as long as the hash.
pub fn without_verify(hash: HashAlg, message: &[u8]) -> &[u8]
    ensures { result.now ≡ without_verify (hash_of hash) message.now }
{
    message
        .split_at(message.len().saturating_sub(hash.size()))
        .0
}

impl Handshake {
    ghost use Rattle.std.specs.Prelude.{◌≡◌, ℕ, List, length};
    ghost use Rattle.key_schedule.specs.Purpose.{AreSecretsOf, handshake_record, application_record};
    ghost use Rattle.key_schedule.specs.declared.direction.Direction.TheVariants.{Request, Response};
    ghost use Rattle.running_hash.specs.Hash.{hash_of};
    ghost use Rattle.session_keys.specs.Handshake.{IsHandshakeOf};
    ghost use Rattle.session_keys.specs.Keys.{IsKeyOf};
    ghost use Rattle.session_keys.specs.Wiped.{AreWipedSecrets};
    ghost use Rattle.spdm_basis.specs.Sizes.{hash_size};
    ghost use Rattle.spdm_grammar.specs.declared.messages.choice.Choice.{Choice};
    ghost use Rattle.spdm_machine.specs.Keys.{verify_data};
    ghost use Rattle.transcript.specs.Lane as lanes;
    ghost use Rattle.transcript.specs.Lane.{lane_hash};

    /// The handshake under a pre-shared key and a hash of T1, which is as long as the hash function fixes.
    pub fn new(hash: HashAlg, aead: AeadAlg, psk: &Psk, th1: HashBytes) -> Handshake
        requires { length th1 ≡ hash_size hash }
        ensures hash { result.keys.hash ≡ hash }
        ensures stands { (choice : Choice) (t1 : List ℕ) → hash ≡ choice.hash → aead ≡ choice.aead
            → th1 ≡ (hash_of hash).digest t1 → IsHandshakeOf result choice psk.now t1 }
    {
        let keys = HandshakeKeys::derive(hash, aead, psk, &th1);
        Handshake { th1, keys }
    }

    /// Secrets of zeros, which stand where there is no handshake.
    pub fn of_zeros(hash: HashAlg, aead: AeadAlg) -> Handshake
        ensures hash { result.keys.hash ≡ hash }
        ensures wiped { AreWipedSecrets result.keys }
    {
        Handshake {
            th1: zero_hash(hash),
            keys: HandshakeKeys::of_zeros(hash, aead),
        }
    }

    /// Overwrites the three secrets by zeros. The hash of T1, which is shown and no secret, stays.
    pub fn wipe(&mut self)
        ensures hash { self.new.keys.hash ≡ self.old.keys.hash }
        ensures wiped { AreWipedSecrets self.new.keys }
    {
        self.keys.wipe();
    }

    /// The verify data of PSK_EXCHANGE_RSP (DSP0274).
    pub fn responder_verify(&self) -> HashBytes
        ensures value { (choice : Choice) (psk t1 : List ℕ) → IsHandshakeOf self.now choice psk t1
            → result ≡ verify_data choice psk t1 Response t1 }
        ensures size { length result ≡ hash_size self.now.keys.hash }
    {
        self.keys.responder_verify(&self.th1)
    }

    /// The verify data of PSK_FINISH (DSP0274), over the transcript up to them, which the lane was given.
    pub fn requester_verify(&self, lane: Lane) -> HashBytes
        requires { lane_hash lane ≡ self.now.keys.hash }
        ensures value { (choice : Choice) (psk t1 given : List ℕ)
            → IsHandshakeOf self.now choice psk t1 → lanes.StandsFor lane given
            → result ≡ verify_data choice psk t1 Request given }
        ensures size { length result ≡ hash_size self.now.keys.hash }
    {
        self.keys.requester_verify(&lane.finish())
    }

    /// The key of the requester's records of the handshake.
    pub fn request_key(&self) -> RecordKey
        ensures { (choice : Choice) (psk t1 : List ℕ) → IsHandshakeOf self.now choice psk t1
            → IsKeyOf result choice (handshake_record psk t1 Request) }
    {
        RecordKey::new(self.keys.request_key())
    }

    /// The key of the responder's records of the handshake.
    pub fn response_key(&self) -> RecordKey
        ensures { (choice : Choice) (psk t1 : List ℕ) → IsHandshakeOf self.now choice psk t1
            → IsKeyOf result choice (handshake_record psk t1 Response) }
    {
        RecordKey::new(self.keys.response_key())
    }

    /// The first keys after the handshake, from the hash of T2, which is as long as the hash function fixes.
    pub fn app_keys(&self, th2: &HashBytes) -> AppKeys
        requires { length th2.now ≡ hash_size self.now.keys.hash }
        ensures request { (choice : Choice) (psk t1 t2 : List ℕ)
            → IsHandshakeOf self.now choice psk t1
            → th2.now ≡ (hash_of choice.hash).digest t2
            → IsKeyOf result.request choice (application_record psk t2 Request 0) }
        ensures response { (choice : Choice) (psk t1 t2 : List ℕ)
            → IsHandshakeOf self.now choice psk t1
            → th2.now ≡ (hash_of choice.hash).digest t2
            → IsKeyOf result.response choice (application_record psk t2 Response 0) }
    {
        AppKeys::derive(&self.keys, th2)
    }
}
