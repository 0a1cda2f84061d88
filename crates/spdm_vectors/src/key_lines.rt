ghost use Rattle.std.specs.Prelude.{◌≡◌, length, IfSome};
ghost use Rattle.spdm_basis.specs.Sizes.{hash_size};

use crate::words::{Words, aead_of, bytes_of, hash_of, hex_of};
use key_schedule::{AppKeys, DirectionKey, HandshakeKeys};
use spdm_basis::{HashAlg, HashBytes, Psk};
use std::alloc::Global;
use transcript::Lane;

// The pre-shared key of all lines.
const PSK: &[u8; 16] = b"1234567890123456";

/// The key schedule, over given transcripts.
pub fn told(alloc: Global, words: &Words<'_>) -> Option<String> {
    match words.at(0) {
        "handshake" => handshake(alloc, words.at(1), words.at(2)),
        "responder" => responder(alloc, words.at(1), words.at(2)),
        "requester" => requester(alloc, words.at(1), words.at(2), words.at(3)),
        "requests" => requests(alloc, words.at(1), words.at(2), words.at(3)),
        "responses" => responses(alloc, words.at(1), words.at(2), words.at(3)),
        _ => None,
    }
}

// The hash of a transcript, in two pieces with `+` between them.
fn hash_of_pieces(alloc: Global, hash: HashAlg, pieces: &str) -> Option<HashBytes>
    ensures { IfSome result (λ bytes. length bytes ≡ hash_size hash) }
{
    let (first, second) = pieces.split_once('+')?;
    let mut lane = Lane::new(hash);
    lane.push(&bytes_of(alloc, first)?);
    lane.push(&bytes_of(alloc, second)?);
    Some(lane.finish())
}

/// The keys of a handshake over the hash of a transcript.
pub fn handshake_over(hash: HashAlg, th1: &HashBytes) -> Option<HandshakeKeys>
    requires { length th1.now ≡ hash_size hash }
    ensures { IfSome result (λ keys. keys.hash ≡ hash) }
{
    Some(HandshakeKeys::derive(hash, aead_of(hash), &Psk::new(PSK)?, th1))
}

/// The keys of a handshake behind a transcript.
pub fn handshake_behind(alloc: Global, hash: &str, th1: &str) -> Option<HandshakeKeys> {
    let hash = hash_of(hash)?;
    handshake_over(hash, &hash_of_pieces(alloc, hash, th1)?)
}

// A key and its initialization vector.
fn pair(alloc: Global, key: &DirectionKey) -> Option<String> {
    let (bytes, iv) = (hex_of(alloc, key.key())?, hex_of(alloc, key.iv())?);
    format!(in alloc; "{bytes} {iv}").ok()
}

// The AEAD, and the keys of both directions.
fn handshake(alloc: Global, hash: &str, th1: &str) -> Option<String> {
    let keys = handshake_behind(alloc, hash, th1)?;
    let (request, response) = (keys.request_key(), keys.response_key());
    let aead = request.aead();
    let (request, response) = (pair(alloc, &request)?, pair(alloc, &response)?);
    format!(in alloc; "{aead:?} {request} {response}").ok()
}

// The verify data of the responder.
fn responder(alloc: Global, hash: &str, th1: &str) -> Option<String> {
    let hash = hash_of(hash)?;
    let th1 = hash_of_pieces(alloc, hash, th1)?;
    let keys = handshake_over(hash, &th1)?;
    hex_of(alloc, keys.responder_verify(&th1).as_slice())
}

// The verify data of the requester.
fn requester(alloc: Global, hash: &str, th1: &str, th: &str) -> Option<String> {
    let hash = hash_of(hash)?;
    let keys = handshake_over(hash, &hash_of_pieces(alloc, hash, th1)?)?;
    let th = hash_of_pieces(alloc, hash, th)?;
    hex_of(alloc, keys.requester_verify(&th).as_slice())
}

// The keys behind a handshake.
fn application(alloc: Global, hash: &str, th1: &str, th2: &str) -> Option<AppKeys> {
    let hash = hash_of(hash)?;
    let keys = handshake_over(hash, &hash_of_pieces(alloc, hash, th1)?)?;
    Some(AppKeys::derive(&keys, &hash_of_pieces(alloc, hash, th2)?))
}

fn requests(alloc: Global, hash: &str, th1: &str, th2: &str) -> Option<String> {
    updates(alloc, application(alloc, hash, th1, th2)?.request)
}

fn responses(alloc: Global, hash: &str, th1: &str, th2: &str) -> Option<String> {
    updates(alloc, application(alloc, hash, th1, th2)?.response)
}

// A key and those that follow it by two key updates, each behind its epoch.
fn updates(alloc: Global, mut key: DirectionKey) -> Option<String> {
    let mut told = String::new(alloc);
    for _ in 0..3 {
        let (epoch, pair) = (key.epoch(), pair(alloc, &key)?);
        told.push_str(format!(in alloc; "{epoch} {pair};").ok()?.as_str())
            .ok()?;
        if epoch > 2 {
            return None;
        }
        key = key.next();
    }
    Some(told)
}
