ghost use Rattle.std.specs.Prelude.{◌≡◌, ◌≤◌, ◌++◌, ◌∷◌, ◌+◌, suc, [], IfOk, OnOk};
ghost use Rattle.script_text.specs.EndPoints.{eid_of};
ghost use Rattle.script_text.specs.Generator.{eight_bytes, four_times, generated_responder, generated_block, generated_requester, generated_config, entry_at, opening, next_drawn, event_of_kind, generated_event, generated, drawn, events_up_to};

use crate::configuration::config::{Blocks, ReqPart, ReqParts, RspPart, ScriptConfig};
use crate::configuration::partial_config::SMALL_SUITES;
use crate::events::event::{Entry, Events, LinkEvent};
use crate::texts::script::Script;
use arrayvec::ArrayVec;
use spdm_basis::{Bytes, Eid, OutOfMemory, Psk};
use spdm_grammar::names::MAX_MESSAGE_SIZE;
use spdm_grammar::{BlockSpec, FlagSet};
use std::alloc::Global;

/// The most events of a generated script, after those that open its sessions.
pub const MOST_GENERATED: u32 = 20_000;

// The endpoint of a number.
fn end_point(number: u8) -> Eid
    requires low { 8 ≤ number }
    requires high { number ≤ 254 }
    ensures { result ≡ eid_of number }
{
    Eid::new(number).unwrap()
}

#[tactic(auto, unfolding(crate::specs::Generator::generated_responder))]
fn responder(alloc: Global) -> RspPart
    ensures { result ≡ generated_responder }
{
    RspPart {
        eid: end_point(8),
        transfer: 1_024,
        max: MAX_MESSAGE_SIZE,
        unit: 64,
        beat: 30,
        flags: FlagSet {
            measure: true,
            heartbeat: true,
            key_update: true,
            chunk: true,
        },
        opaque: Bytes::new(alloc),
        suites: SMALL_SUITES,
    }
}

#[tactic(auto, unfolding(crate::specs::Generator::generated_block))]
fn block(alloc: Global, index: u8, value_type: u8, tcb: bool) -> Result<BlockSpec, OutOfMemory>
    ensures { IfOk result (λ block. block ≡ generated_block index value_type tcb) }
{
    Ok(BlockSpec {
        index,
        value_type,
        tcb,
        value: Bytes::copy(alloc, &[0xaa; 32])?,
    })
}

#[tactic(auto, unfolding(crate::specs::Generator::generated_requester))]
fn requester(alloc: Global, eid: u8, hint: u8, key: u8) -> Result<ReqPart, OutOfMemory>
    requires low { 8 ≤ eid }
    requires high { eid ≤ 254 }
    ensures { IfOk result (λ requester. requester ≡ generated_requester eid hint key) }
{
    Ok(ReqPart {
        eid: end_point(eid),
        transfer: 1_024,
        max: MAX_MESSAGE_SIZE,
        unit: 64,
        pad: 0,
        flags: FlagSet {
            measure: false,
            heartbeat: true,
            key_update: true,
            chunk: true,
        },
        hint: Bytes::copy(alloc, &[hint])?,
        psk: Psk::new(&[key; 16]).unwrap(),
        opaque: Bytes::new(alloc),
        suites: SMALL_SUITES,
    })
}

// The seed of a script: eight bytes four times over.
fn script_seed(seed: u64) -> [u8; 32]
    ensures { result ≡ four_times seed }
{
    let bytes = seed.to_le_bytes();
    let mut whole: ArrayVec<u8, 32> = ArrayVec::new();
    whole.try_extend_from_slice(&bytes).unwrap();
    whole.try_extend_from_slice(&bytes).unwrap();
    whole.try_extend_from_slice(&bytes).unwrap();
    whole.try_extend_from_slice(&bytes).unwrap();
    whole.into_inner().unwrap()
}

#[tactic(auto, unfolding(crate::specs::Generator::generated_block))]
fn config(alloc: Global, seed: u64) -> Result<ScriptConfig, OutOfMemory>
    ensures { IfOk result (λ config. config ≡ generated_config seed) }
{
    let mut blocks = Blocks::new(alloc);
    blocks.push(block(alloc, 1, 0, true)?)?;
    blocks.push(block(alloc, 2, 129, false)?)?;
    let mut requesters = ReqParts::new(alloc);
    requesters.push(requester(alloc, 9, 0x71, 0x11)?)?;
    requesters.push(requester(alloc, 10, 0x72, 0x22)?)?;
    Ok(ScriptConfig {
        seed: Some(script_seed(seed)),
        responder: responder(alloc),
        blocks,
        requesters,
    })
}

// Adds the event of a line.
fn push(events: &mut Events, line: u32, event: LinkEvent) -> Result<(), OutOfMemory>
    ensures { OnOk result (events.new ≡ events.old ++ entry_at line event ∷ []) }
{
    events.push(Entry { line, event })
}

// The events with which each requester opens a session.
fn opening(alloc: Global) -> Result<Events, OutOfMemory>
    ensures { IfOk result (λ events. events ≡ opening) }
{
    let mut events = Events::new(alloc);
    push(&mut events, 8, LinkEvent::Connect { q: 1 })?;
    push(&mut events, 9, LinkEvent::Pump { count: 100 })?;
    push(&mut events, 10, LinkEvent::Open { q: 1, summary: 0 })?;
    push(&mut events, 11, LinkEvent::Pump { count: 100 })?;
    push(&mut events, 12, LinkEvent::Connect { q: 2 })?;
    push(&mut events, 13, LinkEvent::Pump { count: 100 })?;
    push(&mut events, 14, LinkEvent::Open { q: 2, summary: 0 })?;
    push(&mut events, 15, LinkEvent::Pump { count: 100 })?;
    Ok(events)
}

// The number that is drawn next.
fn next_drawn(x: u64) -> u64
    ensures { result ≡ next_drawn x }
{
    x.wrapping_mul(6_364_136_223_846_793_005)
        .wrapping_add(1_442_695_040_888_963_407)
}

// Event `i` of a kind.
fn event_of_kind(
    alloc: Global,
    i: u32,
    q: u8,
    kind: u64,
    packet: u32,
) -> Result<LinkEvent, OutOfMemory>
    ensures { IfOk result (λ event. event ≡ event_of_kind i q kind packet) }
{
    if kind <= 6 {
        let bytes = Bytes::copy(alloc, &u64::from(i).to_le_bytes())?;
        if kind <= 5 {
            return Ok(LinkEvent::Send {
                q,
                session: 1,
                bytes,
            });
        }
        return Ok(LinkEvent::Reply { q, bytes });
    }
    if kind <= 13 {
        return Ok(LinkEvent::Pump { count: 1 });
    }
    Ok(match kind {
        14 => LinkEvent::Lose { number: packet },
        15 => LinkEvent::Deliver { number: packet },
        16 => LinkEvent::Retry { q },
        17 => LinkEvent::Update {
            q,
            session: 1,
            all: packet % 2 == 0,
        },
        18 => LinkEvent::Beat { q, session: 1 },
        _ => LinkEvent::Measure {
            q,
            session: Some(1),
            op: 255,
        },
    })
}

// Event `i` for a number that was drawn.
#[tactic(auto, unfolding(crate::specs::Generator::generated_event))]
fn event(alloc: Global, i: u32, x: u64) -> Result<LinkEvent, OutOfMemory>
    requires { i ≤ MOST_GENERATED }
    ensures { IfOk result (λ event. event ≡ generated_event i x) }
{
    let q = 1 + (x / 0x1_0000_0000 % 2) as u8;
    let kind = x / 0x2_0000_0000 % 20;
    let packet = 1 + (x / 0x100_0000_0000 % (4 * u64::from(i) + 16)) as u32;
    event_of_kind(alloc, i, q, kind, packet)
}

/// The script of a seed and a count of events.
#[tactic(auto, unfolding(crate::specs::Generator::drawn, crate::specs::Generator::events_up_to))]
pub fn generate(alloc: Global, seed: u64, count: u32) -> Result<Script, OutOfMemory>
    requires { count ≤ MOST_GENERATED }
    ensures { IfOk result (λ script. script ≡ generated seed count) }
{
    let config = config(alloc, seed)?;
    let mut events = opening(alloc)?;
    let mut x = seed;
    for i in 0..count {
        x = next_drawn(x);
        push(&mut events, 16 + i, event(alloc, i + 1, x)?)?;
    }
    Ok(Script { config, events })
}
