ghost use Rattle.std.specs.Prelude.{◌≡◌, ℕ, List, map, IfOk, OnOk};
ghost use Rattle.capture_bodies.specs.Answers.{came_as, part_as};
ghost use Rattle.capture_records.specs.Hearing.{after_body, after_large, after_message, after_packet, after_typed, answer_in, fresh, seen_by, seen_typed, unheard};
ghost use Rattle.capture_records.specs.Showing.{seen_as};

use crate::ends::way_of;
use crate::{Dialogue, RecordShown, Way};
use capture_bodies::{Came, LargePart};
use key_schedule::Direction;
use script_text::{ReqPart, ScriptConfig};
use spdm_basis::{OutOfMemory, RecordFrame};
use spdm_codec::read_response;
use spdm_grammar::Response;
use spdm_grammar::names::message_type::{SECURED, SPDM};
use std::alloc::Global;
use std::marker::Model;

// How long a hash is taken to be where CHUNK_SEND_ACK is read, which does not depend on it.
const ANY_HASH: usize = 32;

/// What a packet completes, and what it does to a large message in the clear.
#[derive(Clone, Copy, Debug, PartialEq, Eq)]
pub struct Gathered<'a> {
    pub came: Came,
    /// The body that it completes; of any length where it completes none.
    pub body: &'a [u8],
    pub part: LargePart,
    /// The large message that is whole with it; of any length where none is.
    pub whole: &'a [u8],
}

/// What the packets of a capture show of the sessions of each requester. In contracts, what was heard of each.
#[derive(Drop)]
pub struct Hearing {
    dialogues: Vec<Dialogue>,
}

impl Model for Hearing {
    ghost use Rattle.std.specs.Prelude.{List};
    ghost use Rattle.capture_records.specs.Heard.{Heard};

    ghost Value = { List Heard };

    ghost view = { λ s. s.dialogues.items };
}

// A requester of which no packet came yet.
fn fresh(alloc: Global, q: &ReqPart) -> Result<Dialogue, OutOfMemory>
    ensures { IfOk result (λ dialogue. dialogue ≡ fresh q.now) }
{
    match q.psk.clone() {
        Ok(psk) => Ok(Dialogue::new(alloc, psk)),
        Err(_) => Err(OutOfMemory),
    }
}

// All requesters, of which no packet came yet.
fn all_fresh(alloc: Global, config: &ScriptConfig) -> Result<Vec<Dialogue>, OutOfMemory>
    ensures { IfOk result (λ all. all.items ≡ map fresh config.now.requesters) }
{
    let requesters = config.requesters.as_slice();
    let mut all = Vec::new(alloc);
    for q in requesters {
        let dialogue = fresh(alloc, q)?;
        let Ok(()) = all.push(dialogue) else {
            return Err(OutOfMemory);
        };
    }
    Ok(all)
}

// The answer to a large request that CHUNK_SEND_ACK carries, or the message itself.
fn answer_in(message: &[u8]) -> &[u8]
    ensures { result.now ≡ answer_in message.now }
{
    match read_response(message, ANY_HASH, false) {
        Ok(Response::ChunkSendAck { response, .. }) => response,
        _ => message,
    }
}

// A message in the clear, whole.
fn hear_message(
    alloc: Global,
    dialogue: &mut Dialogue,
    direction: Direction,
    message: &[u8],
) -> Result<(), OutOfMemory>
    ensures { OnOk result (dialogue.new ≡ after_message dialogue.old direction message.now) }
{
    match direction {
        Direction::Request => dialogue.hear_request(message),
        Direction::Response => dialogue.hear_answer(alloc, answer_in(message)),
    }
}

// A whole body with a type.
fn hear_typed(
    alloc: Global,
    dialogue: &mut Dialogue,
    direction: Direction,
    body_type: u8,
    message: &[u8],
    inner: &mut RecordFrame,
) -> Result<RecordShown, OutOfMemory>
    ensures shown { IfOk result (λ shown. seen_as shown inner.new
        ≡ seen_typed dialogue.old direction body_type message.now) }
    ensures after { OnOk result (dialogue.new
        ≡ after_typed dialogue.old direction body_type message.now) }
{
    match body_type {
        SPDM => {
            hear_message(alloc, dialogue, direction, message)?;
            Ok(RecordShown::NoRecord)
        }
        SECURED => dialogue.show(direction, message, inner),
        _ => Ok(RecordShown::NoRecord),
    }
}

// What a packet completes.
#[tactic(auto, unfolding(crate::specs::Hearing::seen_by))]
fn hear_body(
    alloc: Global,
    dialogue: &mut Dialogue,
    direction: Direction,
    came: Came,
    body: &[u8],
    inner: &mut RecordFrame,
) -> Result<RecordShown, OutOfMemory>
    ensures shown { IfOk result (λ shown. seen_as shown inner.new
        ≡ seen_by dialogue.old direction (came_as came body.now)) }
    ensures after { OnOk result (dialogue.new
        ≡ after_body dialogue.old direction (came_as came body.now)) }
{
    let Came::Body(_) = came else {
        return Ok(RecordShown::NoRecord);
    };
    match body {
        [] => Ok(RecordShown::NoRecord),
        [body_type, message @ ..] => {
            hear_typed(alloc, dialogue, direction, *body_type, message, inner)
        }
    }
}

// What a packet does to a large message.
fn hear_large(
    alloc: Global,
    dialogue: &mut Dialogue,
    direction: Direction,
    part: LargePart,
    whole: &[u8],
) -> Result<(), OutOfMemory>
    ensures { OnOk result (dialogue.new
        ≡ after_large dialogue.old direction (part_as part whole.now)) }
{
    match part {
        LargePart::Whole => hear_message(alloc, dialogue, direction, whole),
        _ => Ok(()),
    }
}

// A packet between a requester and the responder.
#[tactic(auto, unfolding(crate::specs::Hearing::after_packet))]
fn hear_packet(
    alloc: Global,
    dialogue: &mut Dialogue,
    direction: Direction,
    gathered: &Gathered<'_>,
    inner: &mut RecordFrame,
) -> Result<RecordShown, OutOfMemory>
    ensures shown { IfOk result (λ shown. seen_as shown inner.new
        ≡ seen_by dialogue.old direction (came_as gathered.now.came gathered.now.body.now)) }
    ensures after { OnOk result (dialogue.new ≡ after_packet dialogue.old direction
        (came_as gathered.now.came gathered.now.body.now) (part_as gathered.now.part gathered.now.whole.now)) }
{
    let shown = hear_body(
        alloc,
        dialogue,
        direction,
        gathered.came,
        gathered.body,
        inner,
    )?;
    hear_large(alloc, dialogue, direction, gathered.part, gathered.whole)?;
    Ok(shown)
}

// A packet between other ends.
fn unheard(came: Came, body: &[u8]) -> RecordShown
    ensures { (inner : List ℕ) → seen_as result inner ≡ unheard (came_as came body.now) }
{
    match (came, body) {
        (Came::Body(_), [SECURED, ..]) => RecordShown::NoSession,
        _ => RecordShown::NoRecord,
    }
}

impl Hearing {
    ghost use Rattle.std.specs.Prelude.{◌≡◌, map, IfOk, OnOk};
    ghost use Rattle.capture_bodies.specs.Answers.{came_as, part_as};
    ghost use Rattle.capture_records.specs.Ends.{way_in};
    ghost use Rattle.capture_records.specs.Hearing.{all_after, fresh, seen_among};
    ghost use Rattle.capture_records.specs.Showing.{seen_as};
    ghost use Rattle.mctp_framing.specs.Packet.{parsed};

    /// Where no packet came yet.
    pub fn new(alloc: Global, config: &ScriptConfig) -> Result<Hearing, OutOfMemory>
        ensures { IfOk result (λ hearing. hearing ≡ map fresh config.now.requesters) }
    {
        Ok(Hearing {
            dialogues: all_fresh(alloc, config)?,
        })
    }

    /// The next packet, which completes and does this: what is shown of a record. Of one that opens, overwrites `inner` with
    /// its inner message.
    pub fn follow(
        &mut self,
        alloc: Global,
        way: Option<Way>,
        gathered: &Gathered<'_>,
        inner: &mut RecordFrame,
    ) -> Result<RecordShown, OutOfMemory>
        ensures shown { IfOk result (λ shown. seen_as shown inner.new
            ≡ seen_among self.old way (came_as gathered.now.came gathered.now.body.now)) }
        ensures after { OnOk result (self.new ≡ all_after self.old way
            (came_as gathered.now.came gathered.now.body.now)
            (part_as gathered.now.part gathered.now.whole.now)) }
    {
        let Some(way) = way else {
            return Ok(unheard(gathered.came, gathered.body));
        };
        if way.place >= self.dialogues.len() {
            return Ok(unheard(gathered.came, gathered.body));
        }
        let dialogue = &mut self.dialogues[way.place];
        hear_packet(alloc, dialogue, way.direction, gathered, inner)
    }
}
