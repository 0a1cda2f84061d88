ghost use Rattle.std.specs.Prelude.{◌≡◌, ◌<◌, ◌+◌, ◌-◌, ◌^◌, length};
ghost use Rattle.spdm_basis.specs.Sizes.{hash_size, key_size};
ghost use Rattle.running_hash.specs.Hash.{hash_of};
ghost use Rattle.key_schedule.specs.Schedule.{updated_secret, record_key, record_iv, zeros};
ghost use Rattle.key_schedule.specs.Purpose.{Purpose, IsSecretOf, key_of, iv_of};

use crate::derivation::{derive_into, derive_key, derive_secret, zero_bytes};
use crate::label::Label;
use arrayvec::ArrayVec;
use spdm_basis::{AeadAlg, HashAlg, HashBytes};
use std::marker::Model;

/// The key and the initialization vector of the records of one direction, and the secret from which they and their
/// successors come (DSP0274, "Key schedule"). Contracts see the hash function, the AEAD, the secret and the epoch.
#[derive(Drop)]
pub struct DirectionKey {
    hash: HashAlg,
    aead: AeadAlg,
    secret: HashBytes,
    key: ArrayVec<u8, 32>,
    iv: [u8; 12],
    epoch: u64,
}

impl Model for DirectionKey {
    ghost use Rattle.std.specs.Prelude.{◌≡◌, length};
    ghost use Rattle.spdm_basis.specs.Sizes.{hash_size, key_size};
    ghost use Rattle.running_hash.specs.Hash.{hash_of};
    ghost use Rattle.key_schedule.specs.Schedule.{record_key, record_iv};
    ghost use Rattle.key_schedule.specs.Keys.{DirectionSecret};

    ghost Value = { DirectionSecret };

    ghost view = { λ k. record {
      hash = k.hash;
      aead = k.aead;
      secret = k.secret;
      epoch = k.epoch;
    } };

    ghost invariant = { λ k. (length k.secret ≡ hash_size k.hash)
        × (length k.key.items ≡ key_size k.aead)
        × (k.key.items ≡ record_key (hash_of k.hash) k.aead k.secret)
        × (k.iv ≡ record_iv (hash_of k.hash) k.secret) };
}

impl DirectionKey {
    // The key of a direction's secret, after as many key updates as `epoch` counts.
    pub(crate) fn of_secret(
        hash: HashAlg,
        aead: AeadAlg,
        secret: HashBytes,
        epoch: u64,
    ) -> DirectionKey
        requires { length secret ≡ hash_size hash }
        ensures { result ≡ record { hash = hash; aead = aead; secret = secret; epoch = epoch } }
    {
        let key = derive_key(hash, aead, &secret);
        let mut iv = [0u8; 12];
        derive_into(hash, &secret, Label::Iv, &[], &mut iv);
        DirectionKey {
            hash,
            aead,
            secret,
            key,
            iv,
            epoch,
        }
    }

    /// The same key once more. Nothing is derived.
    pub fn copied(&self) -> DirectionKey
        ensures { result ≡ self.now }
    {
        DirectionKey {
            hash: self.hash,
            aead: self.aead,
            secret: self.secret.clone().unwrap(),
            key: self.key.clone().unwrap(),
            iv: self.iv,
            epoch: self.epoch,
        }
    }

    /// The key that follows by a key update (DSP0274, "KEY_UPDATE"), with the next epoch. The caller's epoch is below
    /// 2^64 - 1.
    pub fn next(mut self) -> DirectionKey
        requires { self.epoch < 2 ^ 64 - 1 }
        ensures value { result ≡ record self {
          secret = updated_secret
              (hash_of self.hash) self.secret;
          epoch = self.epoch + 1;
        } }
        ensures purpose { (p : Purpose) → IsSecretOf self p
            → IsSecretOf result (record p { epoch = p.epoch + 1 }) }
    {
        self.update();
        self
    }

    /// Steps to the key that follows by a key update, as `next` does, in place: the old secret, key and initialization
    /// vector are overwritten. The caller's epoch is below 2^64 - 1.
    #[tactic(auto, unfolding(crate::specs::Schedule::secret_at))]
    pub fn update(&mut self)
        requires { self.old.epoch < 2 ^ 64 - 1 }
        ensures value { self.new ≡ record self.old {
          secret = updated_secret
              (hash_of self.old.hash) self.old.secret;
          epoch = self.old.epoch + 1;
        } }
        ensures purpose { (p : Purpose) → IsSecretOf self.old p
            → IsSecretOf self.new (record p { epoch = p.epoch + 1 }) }
    {
        let secret = derive_secret(self.hash, &self.secret, Label::Update, &[]);
        *self = DirectionKey::of_secret(self.hash, self.aead, secret, self.epoch + 1);
    }

    /// The key of a secret of zeros, before any key update: a public constant of the hash function and the AEAD. It
    /// stands where there is no key.
    pub fn of_zeros(hash: HashAlg, aead: AeadAlg) -> DirectionKey
        ensures { result ≡ record {
          hash = hash;
          aead = aead;
          secret = zeros (hash_of hash);
          epoch = 0;
        } }
    {
        DirectionKey::of_secret(hash, aead, zero_bytes(hash), 0)
    }

    /// Overwrites the secret by zeros, and the key and the initialization vector by those that come of zeros, as in
    /// `of_zeros`.
    pub fn wipe(&mut self)
        ensures { self.new ≡ record self.old { secret = zeros (hash_of self.old.hash); epoch = 0 } }
    {
        *self = DirectionKey::of_zeros(self.hash, self.aead);
    }

    /// The key of the records: 16 or 32 bytes, by the AEAD.
    pub fn key(&self) -> &[u8]
        ensures value { result.now ≡ record_key
            (hash_of self.now.hash) self.now.aead self.now.secret }
        ensures size { length result.now ≡ key_size self.now.aead }
        ensures purpose { (p : Purpose) → IsSecretOf self.now p
            → result.now ≡ key_of self.now.hash self.now.aead p }
    {
        self.key.as_slice()
    }

    /// The initialization vector of the records.
    pub fn iv(&self) -> &[u8; 12]
        ensures value { result.now ≡ record_iv (hash_of self.now.hash) self.now.secret }
        ensures purpose { (p : Purpose) → IsSecretOf self.now p
            → result.now ≡ iv_of self.now.hash p }
    {
        &self.iv
    }

    /// How many key updates led to this key.
    pub fn epoch(&self) -> u64
        ensures value { result ≡ self.now.epoch }
        ensures purpose { (p : Purpose) → IsSecretOf self.now p → result ≡ p.epoch }
    {
        self.epoch
    }

    /// The AEAD that the key is for.
    pub fn aead(&self) -> AeadAlg
        ensures { result ≡ self.now.aead }
    {
        self.aead
    }
}
