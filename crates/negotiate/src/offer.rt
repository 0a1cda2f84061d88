ghost use Rattle.std.specs.Prelude.{◌≡◌, IfSome};
ghost use Rattle.std.specs.Option.{option_map};
ghost use Rattle.spdm_grammar.specs.Message.{offer_message};
ghost use Rattle.spdm_grammar.specs.Requests.{IsSoundOffer};
ghost use Rattle.negotiate.specs.Offer.{pick_bits, hash_offer, offer_tables, offer_of};

use crate::selection::{has_large, has_room_for_sha_384, has_small};
use spdm_grammar::names::{MEASUREMENT_DMTF, base_hash};
use spdm_grammar::{AlgOffer, Pick, Suites};

// OtherParamsSupport: opaque data format 1.
const OPAQUE_FORMAT_1: u8 = 2;

/// The offer of a requester that has `suites`, to a responder whose DataTransferSize is `transfer`. It offers SHA-384
/// only where that is at least 52, and returns `None` exactly when no hash is left to offer. Four algorithm structures
/// stand in it, of DHE, AEAD, ReqBaseAsymAlg and KeySchedule.
pub fn own_offer(suites: Suites, transfer: u32) -> Option<AlgOffer<'static>>
    ensures value { option_map offer_message result ≡ offer_of suites transfer }
    ensures sound { IfSome result (λ offer. IsSoundOffer (offer_message offer)) }
{
    let hash = hash_offer(suites.hash, transfer);
    if hash == 0 {
        return None;
    }
    Some(AlgOffer {
        measurement: MEASUREMENT_DMTF,
        other: OPAQUE_FORMAT_1,
        asym: 0,
        hash,
        ext_asym: &[],
        ext_hash: &[],
        count: 4,
        tables: offer_tables(suites.aead),
    })
}

// The bits of the hashes that are offered.
fn hash_offer(pick: Pick, transfer: u32) -> u32
    ensures { result ≡ hash_offer pick transfer }
{
    let small = if has_small(pick) {
        base_hash::SHA_256
    } else {
        0
    };
    let large = if has_large(pick) && has_room_for_sha_384(transfer) {
        base_hash::SHA_384
    } else {
        0
    };
    small + large
}

// The algorithm structures: no DHE group, the AEADs of the pick, no signature algorithm of the requester, and the key
// schedule of SPDM.
fn offer_tables(pick: Pick) -> &'static [u8]
    ensures { result.now ≡ offer_tables (pick_bits pick) }
{
    match pick {
        Pick::Small => &[2, 0x20, 0, 0, 3, 0x20, 1, 0, 4, 0x20, 0, 0, 5, 0x20, 1, 0],
        Pick::Large => &[2, 0x20, 0, 0, 3, 0x20, 2, 0, 4, 0x20, 0, 0, 5, 0x20, 1, 0],
        Pick::Both => &[2, 0x20, 0, 0, 3, 0x20, 3, 0, 4, 0x20, 0, 0, 5, 0x20, 1, 0],
    }
}
