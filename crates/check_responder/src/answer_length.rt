ghost use Rattle.std.specs.Prelude.{◌≡◌, ◌≤◌, ◌==◌, ◌||◌, if◌then◌else◌, nat_lt, ℕ, List, length};
ghost use Rattle.responder_core.specs.Free.{IsFree};
ghost use Rattle.responder_core.specs.Setup.{IsSetUp};
ghost use Rattle.measurements.specs.Blocks.{record_of};
ghost use Rattle.measurements.specs.Records.{asked};
ghost use Rattle.responder_machine.specs.Answer.{Free, answer_bytes, exchange_answer, measurements_answer};
ghost use Rattle.responder_machine.specs.Place.{Place, place_terms};
ghost use Rattle.responder_machine.specs.Setup.{RspSetup, inventory_of};
ghost use Rattle.spdm_basis.specs.Sizes.{hash_size};
ghost use Rattle.spdm_grammar.specs.Message.{exchange_message, request_message};
ghost use Rattle.spdm_grammar.specs.Responses.{canonical_response};
ghost use Rattle.spdm_grammar.specs.declared.names.TheConstants.{MAX_MESSAGE_SIZE};
ghost use Rattle.check_responder.specs.JudgedResponder.{free_length};

use crate::shown_values::{MOST_BYTES, request_of};
use measurements::Inventory;
use responder_core::{FreeValues, Setup};
use spdm_basis::Frame;
use spdm_grammar::names::PSK_EXCHANGE_RSP_FIELDS_LEN;
use spdm_grammar::{Exchange, HashAlg, Request};

// What stands in MEASUREMENTS beside its blocks and opaque data.
const MEASUREMENTS_FIELDS_LEN: usize = 42;

// The length of a summary of a kind: there are two kinds, and no other asks for one.
fn summary_length(hash: HashAlg, kind: u8) -> usize
    ensures value { result ≡ (if kind == 1 || kind == 255 then hash_size hash else 0) }
    ensures most { result ≤ 48 }
{
    if kind == 1 || kind == 255 {
        hash.size()
    } else {
        0
    }
}

// The length of the blocks that an operation asks for.
#[tactic(auto, using(crate::proofs::ReadLengths::missing_none))]
pub(crate) fn blocks_length(inventory: &Inventory, op: u8) -> usize
    ensures value { result ≡ length (record_of (asked op inventory.now)) }
    ensures most { result ≤ 4054 }
{
    let mut record = Frame::new();
    match inventory.record(op, &mut record) {
        Ok(_) => record.as_slice().len(),
        Err(_) => 0,
    }
}

// The length of the PSK_EXCHANGE_RSP to an exchange.
fn exchange_length(hash: HashAlg, exchange: &Exchange<'_>, values: &FreeValues<'_>) -> usize
    ensures { (r : RspSetup) (p : Place) (m : List ℕ) (f : Free) → (place_terms p).choice.hash ≡ hash
        → IsFree values.now f → result ≡ length (canonical_response
        (exchange_answer r p m f (exchange_message exchange.now))) }
{
    let hash_len = hash.size();
    let summary_len = summary_length(hash, exchange.summary);
    PSK_EXCHANGE_RSP_FIELDS_LEN
        + summary_len
        + values.context.len()
        + values.exchange_opaque.len()
        + hash_len
}

// The length of the MEASUREMENTS for an operation.
fn measurements_length(inventory: &Inventory, op: u8, values: &FreeValues<'_>) -> usize
    ensures { (r : RspSetup) (f : Free) → inventory_of r ≡ inventory.now
        → IsFree values.now f → length f.nonce ≡ 32
        → result ≡ length (canonical_response (measurements_answer r f op)) }
{
    let blocks_len = blocks_length(inventory, op);
    MEASUREMENTS_FIELDS_LEN + blocks_len + values.measured_opaque.len()
}

/// The length of the answer to a request, in bytes, if values are free in it, and 0 for any other, at a place where
/// this hash was chosen.
pub(crate) fn free_length(
    setup: &Setup<'_>,
    hash: HashAlg,
    request: &Request<'_>,
    values: &FreeValues<'_>,
) -> usize
    ensures value { (r : RspSetup) (p : Place) (m : List ℕ) (f : Free) → IsSetUp setup.now r
        → (place_terms p).choice.hash ≡ hash → IsFree values.now f → length f.nonce ≡ 32
        → result ≡ free_length r p m f (request_message request.now) }
{
    match request {
        Request::PskExchange(exchange) => exchange_length(hash, exchange, values),
        Request::GetMeasurements { op } => measurements_length(setup.inventory, *op, values),
        _ => 0,
    }
}

/// Whether the answer to a request passes 4,096 bytes, at a place where this hash was chosen.
pub(crate) fn is_too_long(
    setup: &Setup<'_>,
    hash: HashAlg,
    message: &[u8],
    values: &FreeValues<'_>,
) -> bool
    ensures { (r : RspSetup) (p : Place) (f : Free) → IsSetUp setup.now r
        → (place_terms p).choice.hash ≡ hash → IsFree values.now f → length f.nonce ≡ 32
        → result ≡ nat_lt MAX_MESSAGE_SIZE (length (answer_bytes r p message.now f)) }
{
    match request_of(message, hash.size()) {
        Some(request) => free_length(setup, hash, &request, values) > MOST_BYTES,
        None => false,
    }
}
