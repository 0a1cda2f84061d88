ghost use Rattle.std.specs.Prelude.{◌≡◌, ◌<◌, ◌≤◌, ◌^◌, ◌∷◌, length, OnOk, OnErr};
ghost use Rattle.spdm_grammar.specs.Reading.{read};
ghost use Rattle.spdm_grammar.specs.Responses.{psk_exchange_rsp_layout, summary_len as spec_summary_len, exchange_rsp_bytes};
ghost use Rattle.spdm_grammar.specs.Message.{response_message, exchange_rsp_message};
ghost use Rattle.spdm_codec.specs.Answer.{Gives};
ghost use Rattle.spdm_grammar.specs.declared.names.TheConstants.{MAX_OPAQUE_LEN};

use crate::cursor::{Cursor, not_allowed};
use crate::put::{TooLong, put, put_two};
use spdm_basis::Frame;
use spdm_grammar::names::response_code::PSK_EXCHANGE_RSP;
use spdm_grammar::names::spdm_version::V1_2;
use spdm_grammar::names::{MAX_MESSAGE_SIZE, MAX_OPAQUE_LEN};
use spdm_grammar::{ExchangeRsp, Malformed, Response};

/// PSK_EXCHANGE_RSP after its code.
#[tactic(auto, unfolding(spdm_grammar::specs::Responses::psk_exchange_rsp_layout))]
pub fn read_psk_exchange_rsp<'a>(
    cursor: &mut Cursor<'a>,
    hash_len: usize,
    has_summary: bool,
) -> Result<Response<'a>, Malformed>
    ensures { Gives response_message result (read
        (psk_exchange_rsp_layout hash_len has_summary) cursor.old) }
{
    let heartbeat = cursor.byte()?;
    cursor.field(1)?;
    let rsp_id = cursor.two()?;
    cursor.field(2)?;
    let at = cursor.at();
    let context_len = cursor.two()?;
    if usize::from(context_len) < hash_len {
        return Err(not_allowed(at));
    }
    let at = cursor.at();
    let opaque_len = cursor.two()?;
    if usize::from(opaque_len) > MAX_OPAQUE_LEN {
        return Err(not_allowed(at));
    }
    let summary = cursor.field(summary_len(hash_len, has_summary))?;
    let context = cursor.field(usize::from(context_len))?;
    let opaque = cursor.field(usize::from(opaque_len))?;
    let verify = cursor.field(hash_len)?;
    cursor.end()?;
    Ok(Response::PskExchangeRsp(ExchangeRsp {
        heartbeat,
        rsp_id,
        summary,
        context,
        opaque,
        verify,
    }))
}

// The length of the measurement summary hash.
fn summary_len(hash_len: usize, has_summary: bool) -> usize
    ensures { result ≡ spec_summary_len hash_len has_summary }
{
    if has_summary { hash_len } else { 0 }
}

/// Overwrites `out` with PSK_EXCHANGE_RSP.
pub fn write_psk_exchange_rsp(exchange: &ExchangeRsp<'_>, out: &mut Frame) -> Result<(), TooLong>
    requires context { length exchange.now.context.now < 2 ^ 16 }
    requires opaque { length exchange.now.opaque.now ≤ MAX_OPAQUE_LEN }
    ensures ok { OnOk result (out.new
        ≡ V1_2 ∷ PSK_EXCHANGE_RSP ∷ exchange_rsp_bytes (exchange_rsp_message exchange.now)) }
    ensures fits { OnOk result (length out.new ≤ MAX_MESSAGE_SIZE) }
    ensures err { OnErr result (MAX_MESSAGE_SIZE < length
        (V1_2 ∷ PSK_EXCHANGE_RSP ∷ exchange_rsp_bytes (exchange_rsp_message exchange.now))) }
{
    out.clear();
    put(out, &[V1_2, PSK_EXCHANGE_RSP, exchange.heartbeat, 0])?;
    put_two(out, exchange.rsp_id)?;
    put(out, &[0, 0])?;
    put_two(out, exchange.context.len() as u16)?;
    put_two(out, exchange.opaque.len() as u16)?;
    put(out, exchange.summary)?;
    put(out, exchange.context)?;
    put(out, exchange.opaque)?;
    put(out, exchange.verify)
}
