ghost use Rattle.std.specs.Prelude.{◌≡◌, ◌≤◌, MatchOption, length};
ghost use Rattle.responder_rules.specs.LargeAnswer as large_answers;
ghost use Rattle.responder_rules.specs.Place.{IsPlace};
ghost use Rattle.responder_machine.specs.Answer.{Free};
ghost use Rattle.responder_machine.specs.Place.{session_place};
ghost use Rattle.responder_machine.specs.Refusal as refusal;
ghost use Rattle.responder_machine.specs.Session.{Events, session_terms, stage_of, turns_of};
ghost use Rattle.responder_machine.specs.Setup.{RspSetup, inventory_of};
ghost use Rattle.spdm_grammar.specs.Message.RequestMessage.{ChunkGet, GetMeasurements, KeyUpdate};
ghost use Rattle.spdm_grammar.specs.declared.told.phase.Stage.TheVariants.{Open};
ghost use Rattle.responder_session.specs.RequestEffects.{AreFree, AreGiven, IsAllowed, IsDeed};
ghost use Rattle.responder_session.specs.Updates.{HasEpochs};
ghost use Rattle.spdm_grammar.specs.declared.names.TheConstants.{MAX_OPAQUE_LEN};

use crate::ResponseValues;
use crate::answers::{write_chunk, write_update_answer};
use crate::judging::refused;
use crate::request_effect::RequestEffect;
use measurements::Inventory;
use responder_rules::{LargeAnswer, Place, write_measurements};
use spdm_basis::Frame;
use spdm_grammar::{ErrorCode, Stage};

// The operations of KEY_UPDATE that update the keys of both directions, and by which new keys are verified (DSP0274,
// "KEY_UPDATE operations").
pub const UPDATE_ALL_KEYS: u8 = 2;

const VERIFY_NEW_KEY: u8 = 3;

// Whether an operation of KEY_UPDATE comes in a stage.
pub fn fits_stage(stage: Stage, op: u8) -> bool
    ensures { result ≡ refusal.fits_stage stage op }
{
    match stage {
        Stage::Handshake => true,
        Stage::Open => op != VERIFY_NEW_KEY,
        Stage::Verifying => op == VERIFY_NEW_KEY,
    }
}

// What KEY_UPDATE does.
pub fn update<'a>(
    place: &Place,
    message: &'a [u8],
    op: u8,
    tag: u8,
    out: &mut Frame,
) -> RequestEffect<'a>
    ensures { (r : RspSetup) (s : Events) (f : Free) → 1 ≤ op → op ≤ 3
        → IsPlace place.now (session_place s) → (stage_of s ≡ Open → HasEpochs s)
        → IsAllowed r s message.now (KeyUpdate op tag)
        → IsDeed r s f message.now out.new result }
{
    if fits_stage(place.stage, op) {
        write_update_answer(op, tag, out);
        if op == VERIFY_NEW_KEY {
            RequestEffect::Verified { tag }
        } else {
            RequestEffect::Update {
                all: op == UPDATE_ALL_KEYS,
                tag,
            }
        }
    } else {
        refused(place, ErrorCode::UnexpectedRequest, message, out)
    }
}

// What GET_MEASUREMENTS does. There is an inventory wherever the session is open.
pub fn measure<'a>(
    place: &Place,
    message: &'a [u8],
    op: u8,
    inventory: Option<&Inventory>,
    free: &ResponseValues<'_>,
    out: &mut Frame,
) -> RequestEffect<'a>
    requires nonce { length free.now.nonce.now ≡ 32 }
    requires opaque { length free.now.opaque.now ≤ MAX_OPAQUE_LEN }
    ensures { (r : RspSetup) (s : Events) (f : Free)
        → (stage_of s ≡ Open → MatchOption inventory.entry ⊥ (λ i. inventory_of r ≡ i.now))
        → (stage_of s ≡ Open → AreGiven free.now f s) → IsPlace place.now (session_place s)
        → IsAllowed r s message.now (GetMeasurements op)
        → IsDeed r s f message.now out.new result }
{
    match inventory {
        Some(inventory) => measure_of(place, message, op, inventory, free, out),
        None => refused(place, ErrorCode::InvalidRequest, message, out),
    }
}

// What it does with these blocks.
fn measure_of<'a>(
    place: &Place,
    message: &'a [u8],
    op: u8,
    inventory: &Inventory,
    free: &ResponseValues<'_>,
    out: &mut Frame,
) -> RequestEffect<'a>
    requires nonce { length free.now.nonce.now ≡ 32 }
    requires opaque { length free.now.opaque.now ≤ MAX_OPAQUE_LEN }
    ensures { (r : RspSetup) (s : Events) (f : Free) → inventory_of r ≡ inventory.now
        → AreFree free.now f → IsPlace place.now (session_place s)
        → IsAllowed r s message.now (GetMeasurements op)
        → IsDeed r s f message.now out.new result }
{
    if inventory.record(op, out).is_err() {
        return refused(place, ErrorCode::InvalidRequest, message, out);
    }
    let len = write_measurements(inventory, op, free.nonce, free.opaque, out);
    if place.is_too_long(len as usize) {
        place.write_error(ErrorCode::ResponseTooLarge, message, len, out);
        return RequestEffect::Refused(ErrorCode::ResponseTooLarge);
    }
    if place.goes_large(len as usize) {
        return RequestEffect::Large {
            op,
            handle: free.handle,
        };
    }
    RequestEffect::Measured { op }
}

// What CHUNK_GET does.
pub fn give<'a>(
    large: &LargeAnswer,
    place: &Place,
    message: &'a [u8],
    handle: u8,
    number: u16,
    out: &mut Frame,
) -> RequestEffect<'a>
    ensures { (r : RspSetup) (s : Events) (f : Free)
        → large_answers.StandsFor large.now (session_terms s).common.to_requester.transfer
        (turns_of s) → IsPlace place.now (session_place s)
        → IsAllowed r s message.now (ChunkGet handle number)
        → IsDeed r s f message.now out.new result }
{
    match large.asked(handle, number) {
        None => refused(place, ErrorCode::InvalidRequest, message, out),
        Some(chunk) => {
            write_chunk(chunk, out);
            RequestEffect::Chunk { handle, number }
        }
    }
}
