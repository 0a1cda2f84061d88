ghost use Rattle.std.specs.Prelude.{◌≡◌, ℕ, List, length};
ghost use Rattle.spdm_basis.specs.Sizes.{hash_size};
ghost use Rattle.running_hash.specs.Hash.{hash_of};
ghost use Rattle.hmac_hkdf.specs.Hmac.{hmac};
ghost use Rattle.key_schedule.specs.Schedule.{handshake_secret, handshake_direction_secret, verify_data, zeros};
ghost use Rattle.key_schedule.specs.Purpose.{IsSecretOf, AreSecretsOf, key_of, verify, handshake_record};
ghost use Rattle.key_schedule.specs.declared.direction.Direction.TheVariants.{Request, Response};

use crate::derivation::{derive_secret, zero_bytes};
use crate::label::Label;
use crate::{Direction, DirectionKey};
use hmac_hkdf::hmac_by;
use spdm_basis::{AeadAlg, HashAlg, HashBytes, Psk};
use std::marker::Model;

/// The secrets of a handshake (DSP0274, "Key schedule"). Contracts see the hash function, the AEAD, the handshake
/// secret and the secret of each direction.
#[derive(Drop)]
pub struct HandshakeKeys {
    hash: HashAlg,
    aead: AeadAlg,
    handshake: HashBytes,
    request: HashBytes,
    response: HashBytes,
}

impl Model for HandshakeKeys {
    ghost use Rattle.std.specs.Prelude.{◌≡◌, length};
    ghost use Rattle.spdm_basis.specs.Sizes.{hash_size};
    ghost use Rattle.key_schedule.specs.Keys.{HandshakeSecrets};

    ghost Value = { HandshakeSecrets };

    ghost view = { λ k. record {
      hash = k.hash;
      aead = k.aead;
      handshake = k.handshake;
      request = k.request;
      response = k.response;
    } };

    ghost invariant = { λ k. (length k.handshake ≡ hash_size k.hash)
        × (length k.request ≡ hash_size k.hash)
        × (length k.response ≡ hash_size k.hash) };
}

impl HandshakeKeys {
    /// The secrets of a pre-shared key and of the hash of the transcript up to PSK_EXCHANGE_RSP without its verify
    /// data. The hash has the length that `hash` fixes.
    pub fn derive(hash: HashAlg, aead: AeadAlg, psk: &Psk, th1: &HashBytes) -> HandshakeKeys
        requires { length th1.now ≡ hash_size hash }
        ensures hash { result.hash ≡ hash }
        ensures aead { result.aead ≡ aead }
        ensures handshake { result.handshake ≡ handshake_secret (hash_of hash) psk.now }
        ensures request { result.request
            ≡ handshake_direction_secret (hash_of hash) result.handshake Request th1.now }
        ensures response { result.response
            ≡ handshake_direction_secret (hash_of hash) result.handshake Response th1.now }

        // The hash may be that of any transcript.
        ensures purpose { (t1 : List ℕ) → th1.now ≡ (hash_of hash).digest t1
            → AreSecretsOf result psk.now t1 }
    {
        let handshake = hmac_by(hash, zero_bytes(hash).as_slice(), psk.as_slice());
        let request = direction_secret(hash, &handshake, Direction::Request, th1);
        let response = direction_secret(hash, &handshake, Direction::Response, th1);
        HandshakeKeys {
            hash,
            aead,
            handshake,
            request,
            response,
        }
    }

    /// The verify data of PSK_EXCHANGE_RSP over the hash of a transcript, by the responder's finished key (DSP0274,
    /// "PSK_EXCHANGE_RSP"). The hash has the length that the hash function fixes.
    #[tactic(auto, unfolding(crate::specs::Schedule::secret_at))]
    pub fn responder_verify(&self, th: &HashBytes) -> HashBytes
        requires { length th.now ≡ hash_size self.now.hash }
        ensures value { result ≡ verify_data (hash_of self.now.hash) self.now.response th.now }
        ensures size { length result ≡ hash_size self.now.hash }
        ensures purpose { (psk t1 : List ℕ) → AreSecretsOf self.now psk t1
            → result ≡ hmac (hash_of self.now.hash) (key_of self.now.hash self.now.aead
            (verify psk t1 Response)) th.now }
    {
        verify_by(self.hash, &self.response, th)
    }

    /// The verify data of PSK_FINISH over the hash of a transcript, by the requester's finished key (DSP0274,
    /// "PSK_FINISH"). The hash has the length that the hash function fixes.
    #[tactic(auto, unfolding(crate::specs::Schedule::secret_at))]
    pub fn requester_verify(&self, th: &HashBytes) -> HashBytes
        requires { length th.now ≡ hash_size self.now.hash }
        ensures value { result ≡ verify_data (hash_of self.now.hash) self.now.request th.now }
        ensures size { length result ≡ hash_size self.now.hash }
        ensures purpose { (psk t1 : List ℕ) → AreSecretsOf self.now psk t1
            → result ≡ hmac (hash_of self.now.hash) (key_of self.now.hash self.now.aead
            (verify psk t1 Request)) th.now }
    {
        verify_by(self.hash, &self.request, th)
    }

    /// The key of the requester's records of the handshake.
    #[tactic(auto, unfolding(crate::specs::Schedule::secret_at))]
    pub fn request_key(&self) -> DirectionKey
        ensures value { result ≡ record {
          hash = self.now.hash;
          aead = self.now.aead;
          secret = self.now.request;
          epoch = 0;
        } }
        ensures purpose { (psk t1 : List ℕ) → AreSecretsOf self.now psk t1
            → IsSecretOf result (handshake_record psk t1 Request) }
    {
        DirectionKey::of_secret(self.hash, self.aead, self.request.clone().unwrap(), 0)
    }

    /// The key of the responder's records of the handshake.
    #[tactic(auto, unfolding(crate::specs::Schedule::secret_at))]
    pub fn response_key(&self) -> DirectionKey
        ensures value { result ≡ record {
          hash = self.now.hash;
          aead = self.now.aead;
          secret = self.now.response;
          epoch = 0;
        } }
        ensures purpose { (psk t1 : List ℕ) → AreSecretsOf self.now psk t1
            → IsSecretOf result (handshake_record psk t1 Response) }
    {
        DirectionKey::of_secret(self.hash, self.aead, self.response.clone().unwrap(), 0)
    }

    /// Three secrets of zeros, which stand where there is no handshake.
    pub fn of_zeros(hash: HashAlg, aead: AeadAlg) -> HandshakeKeys
        ensures { result ≡ record {
          hash = hash;
          aead = aead;
          handshake = zeros (hash_of hash);
          request = zeros (hash_of hash);
          response = zeros (hash_of hash);
        } }
    {
        HandshakeKeys {
            hash,
            aead,
            handshake: zero_bytes(hash),
            request: zero_bytes(hash),
            response: zero_bytes(hash),
        }
    }

    /// Overwrites the three secrets by zeros.
    pub fn wipe(&mut self)
        ensures { self.new ≡ record self.old {
          handshake = zeros (hash_of self.old.hash);
          request = zeros (hash_of self.old.hash);
          response = zeros (hash_of self.old.hash);
        } }
    {
        self.handshake = zero_bytes(self.hash);
        self.request = zero_bytes(self.hash);
        self.response = zero_bytes(self.hash);
    }

    // The hash function.
    pub(crate) fn hash(&self) -> HashAlg
        ensures { result ≡ self.now.hash }
    {
        self.hash
    }

    // The AEAD.
    pub(crate) fn aead(&self) -> AeadAlg
        ensures { result ≡ self.now.aead }
    {
        self.aead
    }

    // The handshake secret.
    pub(crate) fn secret(&self) -> &HashBytes
        ensures value { result.now ≡ self.now.handshake }
        ensures size { length result.now ≡ hash_size self.now.hash }
    {
        &self.handshake
    }
}

// The secret of a direction during the handshake.
fn direction_secret(
    hash: HashAlg,
    handshake: &HashBytes,
    direction: Direction,
    th1: &HashBytes,
) -> HashBytes
    requires secret { length handshake.now ≡ hash_size hash }
    requires th1 { length th1.now ≡ hash_size hash }
    ensures value { result ≡ handshake_direction_secret
        (hash_of hash) handshake.now direction th1.now }
    ensures size { length result ≡ hash_size hash }
{
    derive_secret(
        hash,
        handshake,
        Label::of_handshake(direction),
        th1.as_slice(),
    )
}

// The verify data over the hash of a transcript, by the finished key of a direction's secret.
fn verify_by(hash: HashAlg, secret: &HashBytes, th: &HashBytes) -> HashBytes
    requires { length secret.now ≡ hash_size hash }
    ensures value { result ≡ verify_data (hash_of hash) secret.now th.now }
    ensures size { length result ≡ hash_size hash }
{
    let finished = derive_secret(hash, secret, Label::Finished, &[]);
    hmac_by(hash, finished.as_slice(), th.as_slice())
}
