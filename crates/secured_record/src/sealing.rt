ghost use Rattle.std.specs.Prelude.{◌≡◌, ◌≤◌, ◌+◌, ◌++◌, ◌↔◌, IsOk, OnOk, OnErr, length, take, drop};
ghost use Rattle.spdm_basis.specs.Sizes.{key_size};
ghost use Rattle.spdm_basis.specs.SessionIdBytes.{session_id_bytes};
ghost use Rattle.aes_gcm.specs.Gcm.{crypt, tag_of};
ghost use Rattle.secured_record.specs.Format.{plain_text, record_of, sealed_text, key_of, iv_of};
ghost use Rattle.secured_record.specs.declared.TheConstants.{MAX_RECORD_SIZE, MIN_RECORD_SIZE};

use crate::cipher::cipher_of;
use crate::format::{header, nonce, two_bytes};
use crate::{MAX_RECORD_SIZE, MIN_RECORD_SIZE};
use aes_gcm::GcmKey;
use key_schedule::DirectionKey;
use spdm_basis::{RecordFrame, SessionId};
use thiserror::Error;

/// The record would have more than 4,160 bytes.
#[derive(Clone, Copy, Debug, PartialEq, Eq, Error)]
#[error("the record would have more than 4,160 bytes")]
pub struct TooLong;

// The most bytes of inner message and padding in a record.
const CONTENT_LIMIT: usize = MAX_RECORD_SIZE - MIN_RECORD_SIZE;

// Writes a header and the plain text after it.
fn write_plain(out: &mut RecordFrame, header: &[u8; 8], inner: &[u8], pad: &[u8])
    requires { length inner.now + length pad.now ≤ 4134 }
    ensures value { out.new ≡ header.now ++ plain_text inner.now pad.now }
    ensures size { length out.new ≡ length inner.now + length pad.now + 10 }
{
    out.clear();
    let _ = out.extend(header);
    let _ = out.extend(&two_bytes(inner.len() as u16));
    let _ = out.extend(inner);
    let _ = out.extend(pad);
}

// Encrypts in place what follows a header, and gives the tag of both.
fn seal_behind_header(cipher: &GcmKey, iv: &[u8; 12], bytes: &mut [u8]) -> [u8; 16]
    requires header { 8 ≤ length bytes.old }
    requires most { length bytes.old ≤ MAX_RECORD_SIZE }
    ensures text { bytes.new
        ≡ take 8 bytes.old ++ crypt cipher.now iv.now (drop 8 bytes.old) }
    ensures tag { result ≡ tag_of cipher.now iv.now (take 8 bytes.old)
        (crypt cipher.now iv.now (drop 8 bytes.old)) }
{
    let (header, text) = bytes.split_at_mut(8);
    cipher.seal(iv, header, text)
}

// Writes the record of an inner message and padding under a cipher.
fn seal_by(
    cipher: &GcmKey,
    iv: &[u8; 12],
    id: &[u8; 4],
    number: u16,
    inner: &[u8],
    pad: &[u8],
    out: &mut RecordFrame,
)
    requires { length inner.now + length pad.now ≤ 4134 }
    ensures { out.new ≡ sealed_text cipher.now iv.now id.now number
        (plain_text inner.now pad.now) }
{
    let header = header(id, number, (inner.len() + pad.len() + 18) as u16);
    let nonce = nonce(iv, number);
    write_plain(out, &header, inner, pad);
    let tag = seal_behind_header(cipher, &nonce, out.as_mut_slice());
    let _ = out.extend(&tag);
}

// Writes the record of an inner message and padding under a cipher, where it has at most 4,160 bytes.
#[tactic(auto, unfolding(crate::specs::Format::record_of))]
pub fn seal_within(
    cipher: &GcmKey,
    iv: &[u8; 12],
    id: SessionId,
    number: u16,
    inner: &[u8],
    pad: &[u8],
    out: &mut RecordFrame,
) -> Result<(), TooLong>
    ensures fits { IsOk result ↔ (length inner.now + length pad.now + MIN_RECORD_SIZE ≤ MAX_RECORD_SIZE) }
    ensures record { OnOk result (out.new
        ≡ record_of cipher.now iv.now
        (session_id_bytes id.req id.rsp) number inner.now pad.now) }
    ensures unchanged { OnErr result (out.new ≡ out.old) }
{
    if inner.len() > CONTENT_LIMIT || pad.len() > CONTENT_LIMIT - inner.len() {
        return Err(TooLong);
    }
    seal_by(cipher, iv, &id.bytes(), number, inner, pad, out);
    Ok(())
}

/// Writes the record of an inner message and padding, under the key of a direction, a session id and a number (DSP0277,
/// "Secured Message format"). Returns `TooLong` exactly when the record would have more than 4,160 bytes, and leaves
/// `out` as it was. A number serves once under a key.
pub fn seal(
    key: &DirectionKey,
    id: SessionId,
    number: u16,
    inner: &[u8],
    pad: &[u8],
    out: &mut RecordFrame,
) -> Result<(), TooLong>
    ensures fits { IsOk result ↔ (length inner.now + length pad.now + MIN_RECORD_SIZE ≤ MAX_RECORD_SIZE) }
    ensures record { OnOk result (out.new
        ≡ record_of (key_of key.now) (iv_of key.now)
        (session_id_bytes id.req id.rsp) number inner.now pad.now) }
    ensures unchanged { OnErr result (out.new ≡ out.old) }
{
    let cipher = cipher_of(key);
    seal_within(&cipher, key.iv(), id, number, inner, pad, out)
}
