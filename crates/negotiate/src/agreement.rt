ghost use Rattle.std.specs.Prelude.{◌≡◌};
ghost use Rattle.std.specs.Result.{result_ok};
ghost use Rattle.spdm_grammar.specs.Message.{offer_message, reply_message};
ghost use Rattle.negotiate.specs.Choosing.{chosen_hash, chosen_aead, agreed};

use crate::NoChoice;
use crate::capabilities::has_all;
use crate::selection::{offered_aead, offered_key_schedule};
use crate::tables::value_of;
use spdm_grammar::names::{KEY_SCHEDULE_SPDM, MEASUREMENT_DMTF, aead, base_hash, table_type};
use spdm_grammar::{AeadAlg, AlgOffer, AlgReply, Choice, HashAlg};

/// The choice that a requester accepts from a sound reply to its sound offer (DSP0274, "ALGORITHMS"). Returns
/// `NoChoice` exactly when the hash, the AEAD or the key schedule of the reply is not exactly one known bit, or the
/// measurement specification is neither 0 nor 1, or one of these four has a bit that was not offered. The other fields
/// of the reply are ignored.
pub fn agrees(offer: &AlgOffer<'_>, reply: &AlgReply<'_>) -> Result<Choice, NoChoice>
    ensures { result_ok result ≡ agreed (offer_message offer.now) (reply_message reply.now) }
{
    let key_schedule = value_of(table_type::KEY_SCHEDULE, reply.count, reply.tables);
    if key_schedule != KEY_SCHEDULE_SPDM
        || !has_all(offered_key_schedule(offer), u32::from(KEY_SCHEDULE_SPDM))
    {
        return Err(NoChoice);
    }
    let measure = reply.measurement == MEASUREMENT_DMTF;
    let is_offered = has_all(u32::from(offer.measurement), u32::from(MEASUREMENT_DMTF));
    if reply.measurement != 0 && !(measure && is_offered) {
        return Err(NoChoice);
    }
    let Some(hash) = chosen_hash(offer.hash, reply.hash) else {
        return Err(NoChoice);
    };
    let aead_bits = u32::from(value_of(table_type::AEAD, reply.count, reply.tables));
    let Some(aead) = chosen_aead(offered_aead(offer), aead_bits) else {
        return Err(NoChoice);
    };
    Ok(Choice {
        hash,
        aead,
        measure,
    })
}

// The hash that these bits choose of those offered.
fn chosen_hash(offered: u32, bits: u32) -> Option<HashAlg>
    ensures { result ≡ chosen_hash offered bits }
{
    if bits == base_hash::SHA_256 && has_all(offered, base_hash::SHA_256) {
        return Some(HashAlg::Sha256);
    }
    if bits == base_hash::SHA_384 && has_all(offered, base_hash::SHA_384) {
        return Some(HashAlg::Sha384);
    }
    None
}

// The AEAD that these bits choose of those offered.
fn chosen_aead(offered: u32, bits: u32) -> Option<AeadAlg>
    ensures { result ≡ chosen_aead offered bits }
{
    let small = u32::from(aead::AES_128_GCM);
    let large = u32::from(aead::AES_256_GCM);
    if bits == small && has_all(offered, small) {
        return Some(AeadAlg::Aes128Gcm);
    }
    if bits == large && has_all(offered, large) {
        return Some(AeadAlg::Aes256Gcm);
    }
    None
}
