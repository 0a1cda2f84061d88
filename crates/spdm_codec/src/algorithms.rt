ghost use Rattle.std.specs.Prelude.{◌≡◌, ◌<◌, ◌≤◌, ◌+◌, ◌^◌, ◌∷◌, length, OnOk, OnErr};
ghost use Rattle.spdm_grammar.specs.Reading.{read};
ghost use Rattle.spdm_grammar.specs.Requests.{negotiate_algorithms_layout, offer_bytes};
ghost use Rattle.spdm_grammar.specs.Responses.{algorithms_layout, reply_bytes};
ghost use Rattle.spdm_grammar.specs.Message.{request_message, response_message, offer_message, reply_message};
ghost use Rattle.spdm_codec.specs.Answer.{Gives};

use crate::cursor::Cursor;
use crate::put::{TooLong, put, put_four, put_two};
use spdm_basis::Frame;
use spdm_grammar::names::MAX_MESSAGE_SIZE;
use spdm_grammar::names::request_code::NEGOTIATE_ALGORITHMS;
use spdm_grammar::names::response_code::ALGORITHMS;
use spdm_grammar::names::spdm_version::V1_2;
use spdm_grammar::{AlgOffer, AlgReply, Malformed, Request, Response};

/// NEGOTIATE_ALGORITHMS after its code.
#[tactic(auto, unfolding(spdm_grammar::specs::Requests::negotiate_algorithms_layout))]
pub fn read_negotiate_algorithms<'a>(cursor: &mut Cursor<'a>) -> Result<Request<'a>, Malformed>
    ensures { Gives request_message result (read negotiate_algorithms_layout cursor.old) }
{
    let count = cursor.byte()?;
    cursor.field(1)?;
    let told = cursor.two()?;
    let measurement = cursor.byte()?;
    let other = cursor.byte()?;
    let asym = cursor.four()?;
    let hash = cursor.four()?;
    cursor.field(12)?;
    let ext_asym_count = cursor.byte()?;
    let ext_hash_count = cursor.byte()?;
    cursor.field(2)?;
    let ext_asym = cursor.field(4 * usize::from(ext_asym_count))?;
    let ext_hash = cursor.field(4 * usize::from(ext_hash_count))?;
    let tables = cursor.tables(count)?;
    cursor.sized(told)?;
    Ok(Request::NegotiateAlgorithms(AlgOffer {
        measurement,
        other,
        asym,
        hash,
        ext_asym,
        ext_hash,
        count,
        tables,
    }))
}

/// ALGORITHMS after its code.
#[tactic(auto, unfolding(spdm_grammar::specs::Responses::algorithms_layout))]
pub fn read_algorithms<'a>(cursor: &mut Cursor<'a>) -> Result<Response<'a>, Malformed>
    ensures { Gives response_message result (read algorithms_layout cursor.old) }
{
    let count = cursor.byte()?;
    cursor.field(1)?;
    let told = cursor.two()?;
    let measurement = cursor.byte()?;
    let other = cursor.byte()?;
    let measurement_hash = cursor.four()?;
    let asym = cursor.four()?;
    let hash = cursor.four()?;
    cursor.field(12)?;
    let ext_asym_count = cursor.byte()?;
    let ext_hash_count = cursor.byte()?;
    cursor.field(2)?;
    let ext_asym = cursor.field(4 * usize::from(ext_asym_count))?;
    let ext_hash = cursor.field(4 * usize::from(ext_hash_count))?;
    let tables = cursor.tables(count)?;
    cursor.sized(told)?;
    Ok(Response::Algorithms(AlgReply {
        measurement,
        other,
        measurement_hash,
        asym,
        hash,
        ext_asym,
        ext_hash,
        count,
        tables,
    }))
}

/// Overwrites `out` with NEGOTIATE_ALGORITHMS.
pub fn write_negotiate_algorithms(offer: &AlgOffer<'_>, out: &mut Frame) -> Result<(), TooLong>
    requires ext_asym { length offer.now.ext_asym.now ≤ 1020 }
    requires ext_hash { length offer.now.ext_hash.now ≤ 1020 }
    requires told { 32 + length offer.now.ext_asym.now + length offer.now.ext_hash.now
        + length offer.now.tables.now < 2 ^ 16 }
    ensures ok { OnOk result (out.new
        ≡ V1_2 ∷ NEGOTIATE_ALGORITHMS ∷ offer_bytes (offer_message offer.now)) }
    ensures fits { OnOk result (length out.new ≤ MAX_MESSAGE_SIZE) }
    ensures err { OnErr result (MAX_MESSAGE_SIZE < length
        (V1_2 ∷ NEGOTIATE_ALGORITHMS ∷ offer_bytes (offer_message offer.now))) }
{
    out.clear();
    put(out, &[V1_2, NEGOTIATE_ALGORITHMS, offer.count, 0])?;
    put_two(
        out,
        (32 + offer.ext_asym.len() + offer.ext_hash.len() + offer.tables.len()) as u16,
    )?;
    put(out, &[offer.measurement, offer.other])?;
    put_four(out, offer.asym)?;
    put_four(out, offer.hash)?;
    put(out, &[0; 12])?;
    put(
        out,
        &[
            (offer.ext_asym.len() / 4) as u8,
            (offer.ext_hash.len() / 4) as u8,
            0,
            0,
        ],
    )?;
    put(out, offer.ext_asym)?;
    put(out, offer.ext_hash)?;
    put(out, offer.tables)
}

/// Overwrites `out` with ALGORITHMS.
pub fn write_algorithms(reply: &AlgReply<'_>, out: &mut Frame) -> Result<(), TooLong>
    requires ext_asym { length reply.now.ext_asym.now ≤ 1020 }
    requires ext_hash { length reply.now.ext_hash.now ≤ 1020 }
    requires told { 36 + length reply.now.ext_asym.now + length reply.now.ext_hash.now
        + length reply.now.tables.now < 2 ^ 16 }
    ensures ok { OnOk result (out.new ≡ V1_2 ∷ ALGORITHMS ∷ reply_bytes (reply_message reply.now)) }
    ensures fits { OnOk result (length out.new ≤ MAX_MESSAGE_SIZE) }
    ensures err { OnErr result (MAX_MESSAGE_SIZE < length (V1_2 ∷ ALGORITHMS ∷ reply_bytes
        (reply_message reply.now))) }
{
    out.clear();
    put(out, &[V1_2, ALGORITHMS, reply.count, 0])?;
    put_two(
        out,
        (36 + reply.ext_asym.len() + reply.ext_hash.len() + reply.tables.len()) as u16,
    )?;
    put(out, &[reply.measurement, reply.other])?;
    put_four(out, reply.measurement_hash)?;
    put_four(out, reply.asym)?;
    put_four(out, reply.hash)?;
    put(out, &[0; 12])?;
    put(
        out,
        &[
            (reply.ext_asym.len() / 4) as u8,
            (reply.ext_hash.len() / 4) as u8,
            0,
            0,
        ],
    )?;
    put(out, reply.ext_asym)?;
    put(out, reply.ext_hash)?;
    put(out, reply.tables)
}
