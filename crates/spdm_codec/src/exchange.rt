ghost use Rattle.std.specs.Prelude.{◌≡◌, ◌<◌, ◌≤◌, ◌^◌, ◌∷◌, length, OnOk, OnErr};
ghost use Rattle.spdm_grammar.specs.Reading.{read};
ghost use Rattle.spdm_grammar.specs.Requests.{psk_exchange_layout, exchange_bytes};
ghost use Rattle.spdm_grammar.specs.Message.{request_message, exchange_message};
ghost use Rattle.spdm_codec.specs.Answer.{Gives};
ghost use Rattle.spdm_grammar.specs.declared.names.TheConstants.{MAX_OPAQUE_LEN};

use crate::cursor::{Cursor, not_allowed};
use crate::put::{TooLong, put, put_two};
use spdm_basis::Frame;
use spdm_grammar::names::request_code::PSK_EXCHANGE;
use spdm_grammar::names::spdm_version::V1_2;
use spdm_grammar::names::{MAX_MESSAGE_SIZE, MAX_OPAQUE_LEN};
use spdm_grammar::{Exchange, Malformed, Request};

/// PSK_EXCHANGE after its code.
#[tactic(auto, unfolding(spdm_grammar::specs::Requests::psk_exchange_layout))]
pub fn read_psk_exchange<'a>(
    cursor: &mut Cursor<'a>,
    hash_len: usize,
) -> Result<Request<'a>, Malformed>
    ensures { Gives request_message result (read (psk_exchange_layout hash_len) cursor.old) }
{
    let at = cursor.at();
    let summary = cursor.byte()?;
    if !matches!(summary, 0 | 1 | 255) {
        return Err(not_allowed(at));
    }
    cursor.field(1)?;
    let req_id = cursor.two()?;
    let hint_len = cursor.two()?;
    let at = cursor.at();
    let context_len = cursor.two()?;
    if usize::from(context_len) < hash_len {
        return Err(not_allowed(at));
    }
    let at = cursor.at();
    let opaque_len = cursor.two()?;
    if usize::from(opaque_len) > MAX_OPAQUE_LEN {
        return Err(not_allowed(at));
    }
    let hint = cursor.field(usize::from(hint_len))?;
    let context = cursor.field(usize::from(context_len))?;
    let opaque = cursor.field(usize::from(opaque_len))?;
    cursor.end()?;
    Ok(Request::PskExchange(Exchange {
        summary,
        req_id,
        hint,
        context,
        opaque,
    }))
}

/// Overwrites `out` with PSK_EXCHANGE.
pub fn write_psk_exchange(exchange: &Exchange<'_>, out: &mut Frame) -> Result<(), TooLong>
    requires hint { length exchange.now.hint.now < 2 ^ 16 }
    requires context { length exchange.now.context.now < 2 ^ 16 }
    requires opaque { length exchange.now.opaque.now ≤ MAX_OPAQUE_LEN }
    ensures ok { OnOk result (out.new
        ≡ V1_2 ∷ PSK_EXCHANGE ∷ exchange_bytes (exchange_message exchange.now)) }
    ensures fits { OnOk result (length out.new ≤ MAX_MESSAGE_SIZE) }
    ensures err { OnErr result (MAX_MESSAGE_SIZE < length (V1_2 ∷ PSK_EXCHANGE ∷ exchange_bytes
        (exchange_message exchange.now))) }
{
    out.clear();
    put(out, &[V1_2, PSK_EXCHANGE, exchange.summary, 0])?;
    put_two(out, exchange.req_id)?;
    put_two(out, exchange.hint.len() as u16)?;
    put_two(out, exchange.context.len() as u16)?;
    put_two(out, exchange.opaque.len() as u16)?;
    put(out, exchange.hint)?;
    put(out, exchange.context)?;
    put(out, exchange.opaque)
}
