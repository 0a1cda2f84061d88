ghost use Rattle.std.specs.Prelude.{◌≡◌, ◌≢◌, ◌<◌, ◌≤◌, ◌+◌, ◌-◌, ◌^◌, ◌↔◌, ℕ, List, None, Some, IsOk, OnOk, OnErr, IfErr, MatchResult, length};
ghost use Rattle.spdm_basis.specs.SessionIdBytes.{session_id_bytes};
ghost use Rattle.running_hash.specs.Hash.{hash_of};
ghost use Rattle.key_schedule.specs.Schedule.{updated_secret, zeros};
ghost use Rattle.key_schedule.specs.Purpose.{Purpose, IsSecretOf};
ghost use Rattle.secured_record.specs.Format.{key_of, iv_of, record_of};
ghost use Rattle.secured_record.specs.Contents.{IsRecordOf};
ghost use Rattle.secured_record.specs.Faults.{fault_of, inner_of, opened_text};
ghost use Rattle.secured_record.specs.declared.TheConstants.{MAX_RECORD_SIZE, MIN_RECORD_SIZE};

use crate::cipher::cipher_of;
use crate::opening::{decrypt_text, open_by};
use crate::sealing::seal_within;
use crate::{RecordFault, TooLong};
use aes_gcm::GcmKey;
use key_schedule::DirectionKey;
use spdm_basis::{AeadAlg, HashAlg, RecordFrame, SessionId};
use std::marker::Model;

/// The key of a direction with its cipher set up once, for many records. Contracts see what they see of the key of the
/// direction.
#[derive(Drop)]
pub struct RecordKey {
    direction: DirectionKey,
    cipher: GcmKey,
}

impl Model for RecordKey {
    ghost use Rattle.std.specs.Prelude.{◌≡◌};
    ghost use Rattle.key_schedule.specs.Keys.{DirectionSecret};
    ghost use Rattle.secured_record.specs.Format.{key_of};

    ghost Value = { DirectionSecret };

    ghost view = { λ k. k.direction };

    ghost invariant = { λ k. k.cipher ≡ key_of k.direction };
}

impl RecordKey {
    /// The key of a direction, with its cipher.
    pub fn new(direction: DirectionKey) -> RecordKey
        ensures { result ≡ direction }
    {
        let cipher = cipher_of(&direction);
        RecordKey { direction, cipher }
    }

    /// The same key once more, with its cipher.
    pub fn copied(&self) -> RecordKey
        ensures { result ≡ self.now }
    {
        RecordKey {
            direction: self.direction.copied(),
            cipher: self.cipher.copied(),
        }
    }

    /// The key that follows by a key update (DSP0274, "KEY_UPDATE"), with the next epoch. The caller's epoch is below
    /// 2^64 - 1.
    pub fn next(mut self) -> RecordKey
        requires { self.epoch < 2 ^ 64 - 1 }
        ensures value { result
            ≡ record self {
              secret = updated_secret (hash_of self.hash) self.secret;
              epoch = self.epoch + 1;
            } }
        ensures purpose { (p : Purpose) → IsSecretOf self p
            → IsSecretOf result (record p { epoch = p.epoch + 1 }) }
    {
        self.update();
        self
    }

    /// Steps to the key that follows by a key update, as `next` does, in place: the old key and its cipher are
    /// overwritten. The caller's epoch is below 2^64 - 1.
    pub fn update(&mut self)
        requires { self.old.epoch < 2 ^ 64 - 1 }
        ensures value { self.new
            ≡ record self.old {
              secret = updated_secret (hash_of self.old.hash) self.old.secret;
              epoch = self.old.epoch + 1;
            } }
        ensures purpose { (p : Purpose) → IsSecretOf self.old p
            → IsSecretOf self.new (record p { epoch = p.epoch + 1 }) }
    {
        self.direction.update();
        self.cipher = cipher_of(&self.direction);
    }

    /// The key of a secret of zeros, before any key update: a public constant of the hash function and the AEAD. It
    /// stands where there is no key.
    pub fn of_zeros(hash: HashAlg, aead: AeadAlg) -> RecordKey
        ensures { result ≡ record {
          hash = hash;
          aead = aead;
          secret = zeros (hash_of hash);
          epoch = 0;
        } }
    {
        RecordKey::new(DirectionKey::of_zeros(hash, aead))
    }

    /// Overwrites the secret by zeros, and the key, the initialization vector and the cipher by those that come of
    /// zeros, as in `of_zeros`.
    pub fn wipe(&mut self)
        ensures { self.new ≡ record self.old { secret = zeros (hash_of self.old.hash); epoch = 0 } }
    {
        self.direction.wipe();
        self.cipher = cipher_of(&self.direction);
    }

    /// How many key updates led to this key.
    pub fn epoch(&self) -> u64
        ensures { result ≡ self.now.epoch }
    {
        self.direction.epoch()
    }

    /// Writes the record of an inner message and padding, as `seal` does under this key.
    pub fn seal(
        &self,
        id: SessionId,
        number: u16,
        inner: &[u8],
        pad: &[u8],
        out: &mut RecordFrame,
    ) -> Result<(), TooLong>
        ensures fits { IsOk result ↔ (length inner.now + length pad.now + MIN_RECORD_SIZE ≤ MAX_RECORD_SIZE) }
        ensures record { OnOk result (out.new
            ≡ record_of (key_of self.now) (iv_of self.now)
            (session_id_bytes id.req id.rsp) number inner.now pad.now) }
        ensures unchanged { OnErr result (out.new ≡ out.old) }
    {
        seal_within(
            &self.cipher,
            self.direction.iv(),
            id,
            number,
            inner,
            pad,
            out,
        )
    }

    /// Opens a record and writes its inner message, as `open` does under this key.
    pub fn open(
        &self,
        id: SessionId,
        number: u16,
        sealed: &[u8],
        out: &mut RecordFrame,
    ) -> Result<(), RecordFault>
        ensures fault { MatchResult result
            (λ _. fault_of (key_of self.now) (iv_of self.now)
            (session_id_bytes id.req id.rsp) number sealed.now ≡ None)
            (λ e. fault_of (key_of self.now) (iv_of self.now)
            (session_id_bytes id.req id.rsp) number sealed.now ≡ Some e) }
        ensures inner { OnOk result (out.new
            ≡ inner_of (key_of self.now) (iv_of self.now) number sealed.now) }
        ensures unchanged { OnErr result (out.new ≡ out.old) }
        ensures not_spent { IfErr result (λ e. e ≢ RecordFault.KeySpent) }

        // What opens is a record of its inner message, and each record of at most 4,160 bytes opens.
        ensures record { OnOk result
            (IsRecordOf (key_of self.now) (iv_of self.now)
            (session_id_bytes id.req id.rsp) number sealed.now out.new) }
        ensures opens { (inner pad : List ℕ)
            → sealed.now ≡ record_of (key_of self.now) (iv_of self.now)
            (session_id_bytes id.req id.rsp) number inner pad
            → length sealed.now ≤ MAX_RECORD_SIZE → IsOk result × (out.new ≡ inner) }
    {
        open_by(&self.cipher, self.direction.iv(), id, number, sealed, out)
    }

    /// Overwrites `out` with the text of a record: the length of its inner message as two bytes, little-endian, that
    /// message, and the padding. Whether the record opens is not tested.
    pub fn text(&self, number: u16, sealed: &[u8], out: &mut RecordFrame)
        requires least { MIN_RECORD_SIZE ≤ length sealed.now }
        requires most { length sealed.now ≤ MAX_RECORD_SIZE }
        ensures { out.new ≡ opened_text (key_of self.now) (iv_of self.now) number sealed.now }
    {
        decrypt_text(&self.cipher, self.direction.iv(), number, sealed, out);
    }
}
