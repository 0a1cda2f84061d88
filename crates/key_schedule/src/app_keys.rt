ghost use Rattle.std.specs.Prelude.{◌≡◌, ℕ, List, length};
ghost use Rattle.spdm_basis.specs.Sizes.{hash_size};
ghost use Rattle.running_hash.specs.Hash.{hash_of};
ghost use Rattle.key_schedule.specs.Schedule.{master_secret, application_direction_secret};
ghost use Rattle.key_schedule.specs.Purpose.{IsSecretOf, AreSecretsOf, application_record};
ghost use Rattle.key_schedule.specs.declared.direction.Direction.TheVariants.{Request, Response};

use crate::derivation::{derive_secret, zero_bytes};
use crate::label::Label;
use crate::{Direction, DirectionKey, HandshakeKeys};
use hmac_hkdf::hmac_by;
use spdm_basis::{HashAlg, HashBytes};

/// The keys of the records after a handshake, one for each direction (DSP0274, "Key schedule").
#[derive(Drop)]
pub struct AppKeys {
    /// The key of the requester's records.
    pub request: DirectionKey,
    /// The key of the responder's records.
    pub response: DirectionKey,
}

impl AppKeys {
    /// The first keys after a handshake, from its secrets and the hash of the transcript up to PSK_FINISH_RSP. The hash
    /// has the length that the hash function fixes.
    #[tactic(auto, unfolding(crate::specs::Schedule::secret_at))]
    pub fn derive(handshake: &HandshakeKeys, th2: &HashBytes) -> AppKeys
        requires { length th2.now ≡ hash_size handshake.now.hash }
        ensures request { result.request ≡ record {
          hash = handshake.now.hash;
          aead = handshake.now.aead;
          secret = application_direction_secret (hash_of handshake.now.hash) (master_secret
              (hash_of handshake.now.hash) handshake.now.handshake) Request th2.now;
          epoch = 0;
        } }
        ensures response { result.response ≡ record {
          hash = handshake.now.hash;
          aead = handshake.now.aead;
          secret = application_direction_secret (hash_of handshake.now.hash) (master_secret
              (hash_of handshake.now.hash) handshake.now.handshake) Response th2.now;
          epoch = 0;
        } }

        // The hash may be that of any transcript.
        ensures request_purpose { (psk t1 t2 : List ℕ) → AreSecretsOf handshake.now psk t1
            → th2.now ≡ (hash_of handshake.now.hash).digest t2
            → IsSecretOf result.request (application_record psk t2 Request 0) }
        ensures response_purpose { (psk t1 t2 : List ℕ) → AreSecretsOf handshake.now psk t1
            → th2.now ≡ (hash_of handshake.now.hash).digest t2
            → IsSecretOf result.response (application_record psk t2 Response 0) }
    {
        let hash = handshake.hash();
        let aead = handshake.aead();
        let master = derive_master(hash, handshake.secret());
        let request = direction_secret(hash, &master, Direction::Request, th2);
        let response = direction_secret(hash, &master, Direction::Response, th2);
        AppKeys {
            request: DirectionKey::of_secret(hash, aead, request, 0),
            response: DirectionKey::of_secret(hash, aead, response, 0),
        }
    }
}

// The master secret, from the handshake secret.
fn derive_master(hash: HashAlg, handshake: &HashBytes) -> HashBytes
    requires { length handshake.now ≡ hash_size hash }
    ensures value { result ≡ master_secret (hash_of hash) handshake.now }
    ensures size { length result ≡ hash_size hash }
{
    let salt = derive_secret(hash, handshake, Label::Derived, &[]);
    hmac_by(hash, salt.as_slice(), zero_bytes(hash).as_slice())
}

// The first secret of a direction after the handshake.
fn direction_secret(
    hash: HashAlg,
    master: &HashBytes,
    direction: Direction,
    th2: &HashBytes,
) -> HashBytes
    requires secret { length master.now ≡ hash_size hash }
    requires th2 { length th2.now ≡ hash_size hash }
    ensures value { result ≡ application_direction_secret
        (hash_of hash) master.now direction th2.now }
    ensures size { length result ≡ hash_size hash }
{
    derive_secret(
        hash,
        master,
        Label::of_application(direction),
        th2.as_slice(),
    )
}
