ghost use Rattle.std.specs.Prelude.{◌≡◌};
ghost use Rattle.std.specs.Result.{result_ok};
ghost use Rattle.spdm_grammar.specs.Message.{offer_message};
ghost use Rattle.negotiate.specs.Choosing.{has_small, has_large, has_room_for_sha_384, hash_choice, aead_choice, offered_aead, offered_key_schedule, selected};

use crate::NoChoice;
use crate::capabilities::has_all;
use crate::tables::value_of;
use spdm_grammar::names::{KEY_SCHEDULE_SPDM, MEASUREMENT_DMTF, aead, base_hash, table_type};
use spdm_grammar::{AeadAlg, AlgOffer, Choice, HashAlg, Pick, Suites};

/// The responder's policy for its choice.
#[derive(Clone, Copy, Debug, PartialEq, Eq)]
pub struct AlgPolicy {
    /// Whether it announced measurements.
    pub measure: bool,
    /// The algorithms that it supports.
    pub suites: Suites,
    /// Its own DataTransferSize.
    pub transfer: u32,
}

// The least DataTransferSize of a responder with which SHA-384 is used.
const SHA_384_TRANSFER: u32 = 52;

/// What a responder chooses of a sound offer (DSP0274, "NEGOTIATE_ALGORITHMS"). It uses an algorithm that is offered
/// and that it has, SHA-384 only with a DataTransferSize of at least 52, and prefers SHA-384 and AES-256-GCM. Returns
/// `NoChoice` exactly when no hash or no AEAD can be used, or the key schedule of SPDM is not offered.
pub fn select(offer: &AlgOffer<'_>, policy: &AlgPolicy) -> Result<Choice, NoChoice>
    ensures { result_ok result ≡ selected (offer_message offer.now) policy.now }
{
    if !has_all(offered_key_schedule(offer), u32::from(KEY_SCHEDULE_SPDM)) {
        return Err(NoChoice);
    }
    let Some(hash) = hash_choice(offer, policy) else {
        return Err(NoChoice);
    };
    let Some(aead) = aead_choice(offer, policy) else {
        return Err(NoChoice);
    };
    Ok(Choice {
        hash,
        aead,
        measure: policy.measure
            && has_all(u32::from(offer.measurement), u32::from(MEASUREMENT_DMTF)),
    })
}

// The hash to use, if there is one.
fn hash_choice(offer: &AlgOffer<'_>, policy: &AlgPolicy) -> Option<HashAlg>
    ensures { result ≡ hash_choice (offer_message offer.now) policy.now }
{
    if has_all(offer.hash, base_hash::SHA_384)
        && has_large(policy.suites.hash)
        && has_room_for_sha_384(policy.transfer)
    {
        return Some(HashAlg::Sha384);
    }
    if has_all(offer.hash, base_hash::SHA_256) && has_small(policy.suites.hash) {
        return Some(HashAlg::Sha256);
    }
    None
}

// The AEAD to use, if there is one.
fn aead_choice(offer: &AlgOffer<'_>, policy: &AlgPolicy) -> Option<AeadAlg>
    ensures { result ≡ aead_choice (offer_message offer.now) policy.now }
{
    let offered = offered_aead(offer);
    if has_all(offered, u32::from(aead::AES_256_GCM)) && has_large(policy.suites.aead) {
        return Some(AeadAlg::Aes256Gcm);
    }
    if has_all(offered, u32::from(aead::AES_128_GCM)) && has_small(policy.suites.aead) {
        return Some(AeadAlg::Aes128Gcm);
    }
    None
}

/// The AEADs of an offer.
pub fn offered_aead(offer: &AlgOffer<'_>) -> u32
    ensures { result ≡ offered_aead (offer_message offer.now) }
{
    u32::from(value_of(table_type::AEAD, offer.count, offer.tables))
}

/// The key schedules of an offer.
pub fn offered_key_schedule(offer: &AlgOffer<'_>) -> u32
    ensures { result ≡ offered_key_schedule (offer_message offer.now) }
{
    u32::from(value_of(table_type::KEY_SCHEDULE, offer.count, offer.tables))
}

/// Whether a pick has the algorithm of the lower bit.
pub fn has_small(pick: Pick) -> bool
    ensures { result ≡ has_small pick }
{
    matches!(pick, Pick::Small | Pick::Both)
}

/// Whether a pick has the algorithm of the higher bit.
pub fn has_large(pick: Pick) -> bool
    ensures { result ≡ has_large pick }
{
    matches!(pick, Pick::Large | Pick::Both)
}

/// Whether a responder of this DataTransferSize takes messages that SHA-384 needs.
pub fn has_room_for_sha_384(transfer: u32) -> bool
    ensures { result ≡ has_room_for_sha_384 transfer }
{
    transfer >= SHA_384_TRANSFER
}
