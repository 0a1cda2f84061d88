ghost use Rattle.std.specs.Prelude.{◌≡◌, ◌<◌, ◌+◌, ◌-◌, ◌^◌, length};
ghost use Rattle.capture_records.specs.Keyed.{data_purpose, handshake_purpose, t1_in, t2_in};
ghost use Rattle.key_schedule.specs.Purpose.{Purpose};
ghost use Rattle.running_hash.specs.Hash.{hash_of};
ghost use Rattle.session_keys.specs.Handshake.{IsHandshakeOf};
ghost use Rattle.session_keys.specs.Keys.{IsKeyOf};
ghost use Rattle.spdm_basis.specs.Sizes.{hash_size};
ghost use Rattle.spdm_grammar.specs.declared.messages.choice.Choice.{Choice};

use crate::KeyedSession;
use key_schedule::{Direction, DirectionKey};
use secured_record::RecordKey;
use session_keys::{Handshake, without_verify};
use spdm_basis::{HashBytes, Psk};
use transcript::Lane;

// The handshake that the messages of a session fix.
pub(crate) fn handshake_of(session: &KeyedSession, psk: &Psk) -> Handshake
    ensures stands { IsHandshakeOf result session.now.choice psk.now (t1_in session.now) }
    ensures hash { result.keys.hash ≡ session.now.choice.hash }
{
    let choice = session.choice();
    let mut lane = Lane::new(choice.hash);
    lane.push(session.vca());
    lane.push(session.exchange());
    lane.push(without_verify(choice.hash, session.answer()));
    Handshake::new(choice.hash, choice.aead, psk, lane.finish())
}

// The hash of T2.
fn th2_of(session: &KeyedSession) -> HashBytes
    ensures value { result ≡ (hash_of session.now.choice.hash).digest (t2_in session.now) }
    ensures size { length result ≡ hash_size session.now.choice.hash }
{
    let mut lane = Lane::new(session.choice().hash);
    lane.push(session.vca());
    lane.push(session.exchange());
    lane.push(session.answer());
    lane.push(session.finish());
    lane.push(session.finished());
    lane.finish()
}

/// The key of a direction's records of the handshake.
pub(crate) fn handshake_key(session: &KeyedSession, psk: &Psk, direction: Direction) -> RecordKey
    ensures { IsKeyOf result session.now.choice (handshake_purpose session.now psk.now direction) }
{
    let handshake = handshake_of(session, psk);
    match direction {
        Direction::Request => handshake.request_key(),
        Direction::Response => handshake.response_key(),
    }
}

// The first key of a direction after the handshake.
fn first_key(session: &KeyedSession, psk: &Psk, direction: Direction) -> DirectionKey
    ensures { IsKeyOf result session.now.choice (data_purpose session.now psk.now direction 0) }
{
    let keys = handshake_of(session, psk).app_keys(&th2_of(session));
    match direction {
        Direction::Request => keys.request,
        Direction::Response => keys.response,
    }
}

// Steps to the key after a key update, which is that of the next epoch.
fn step(key: &mut DirectionKey)
    requires { key.old.epoch < 2 ^ 64 - 1 }
    ensures { (choice : Choice) (p : Purpose) → IsKeyOf key.old choice p
        → IsKeyOf key.new choice (record p { epoch = p.epoch + 1 }) }
{
    key.update();
}

/// The key of a direction's records after the handshake and so many key updates.
pub(crate) fn data_key(
    session: &KeyedSession,
    psk: &Psk,
    direction: Direction,
    epoch: u64,
) -> RecordKey
    ensures { IsKeyOf result session.now.choice
        (data_purpose session.now psk.now direction epoch) }
{
    let mut key = first_key(session, psk, direction);
    for _ in 0..epoch {
        step(&mut key);
    }
    RecordKey::new(key)
}
