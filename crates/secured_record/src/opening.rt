ghost use Rattle.std.specs.Prelude.{◌≡◌, ◌≢◌, ◌≤◌, ◌+◌, ◌-◌, ◌++◌, ℕ, List, None, Some, true, false, nat_lt, min, IsOk, OnOk, OnErr, IfOk, IfErr, MatchResult, is_ok, length, bytes_eq, take, drop};
ghost use Rattle.byteorder.specs.Endian.{little_bytes, little_number};
ghost use Rattle.spdm_basis.specs.Sizes.{key_size};
ghost use Rattle.aes_gcm.specs.Gcm.{crypt};
ghost use Rattle.aes_gcm.specs.Behind.{crypt_behind};
ghost use Rattle.spdm_basis.specs.SessionIdBytes.{session_id_bytes};
ghost use Rattle.secured_record.specs.Format.{key_of, iv_of, nonce, record_of};
ghost use Rattle.secured_record.specs.Contents.{IsRecordOf};
ghost use Rattle.secured_record.specs.Faults.{header_fault, is_authentic, opened_text, text_part, fault_of, inner_of};
ghost use Rattle.secured_record.specs.declared.TheConstants.{MAX_RECORD_SIZE, MIN_RECORD_SIZE};

use crate::cipher::cipher_of;
use crate::format::{nonce, two_bytes};
use crate::{MAX_RECORD_SIZE, MIN_RECORD_SIZE, RecordFault};
use aes_gcm::{BadTag, GcmKey};
use arrayvec::ArrayVec;
use byte_compare::same_bytes;
use byteorder::{ByteOrder, LittleEndian};
use key_schedule::DirectionKey;
use spdm_basis::{RecordFrame, SessionId};

// The fault of a record that its header shows.
#[tactic(auto, unfolding(crate::specs::Faults::header_fault))]
fn header_fault(id: &[u8; 4], number: u16, sealed: &[u8]) -> Option<RecordFault>
    ensures value { result ≡ header_fault id.now number sealed.now }
    ensures least { result ≡ None → MIN_RECORD_SIZE ≤ length sealed.now }
    ensures most { result ≡ None → length sealed.now ≤ MAX_RECORD_SIZE }
{
    if sealed.len() < MIN_RECORD_SIZE {
        return Some(RecordFault::Short);
    }
    if !same_bytes(&sealed[..4], id) {
        return Some(RecordFault::WrongId);
    }
    if !same_bytes(&sealed[4..6], &two_bytes(number)) {
        return Some(RecordFault::WrongNumber);
    }
    if sealed.len() > MAX_RECORD_SIZE
        || !same_bytes(&sealed[6..8], &two_bytes((sealed.len() - 8) as u16))
    {
        return Some(RecordFault::WrongLength);
    }
    None
}

// The encrypted text of a record.
fn text_part(sealed: &[u8]) -> &[u8]
    requires least { MIN_RECORD_SIZE ≤ length sealed.now }
    ensures value { result.now ≡ text_part sealed.now }
    ensures size { length result.now ≡ length sealed.now - 24 }
{
    let rest = sealed.split_at(8).1;
    rest.split_at(rest.len() - 16).0
}

// Tests the tag of a record, and gives the first 48 bytes of its text decrypted, or all where there are fewer.
#[tactic(auto, unfolding(crate::specs::Faults::is_authentic))]
fn open_first(
    cipher: &GcmKey,
    iv: &[u8; 12],
    number: u16,
    sealed: &[u8],
) -> Result<ArrayVec<u8, 48>, BadTag>
    requires least { MIN_RECORD_SIZE ≤ length sealed.now }
    requires most { length sealed.now ≤ MAX_RECORD_SIZE }
    ensures authentic { is_ok result ≡ is_authentic cipher.now iv.now number sealed.now }
    ensures first { IfOk result (λ b. b.items
        ≡ take 48 (crypt cipher.now (nonce iv.now number) (text_part sealed.now))) }
{
    let (header, rest) = sealed.split_at(8);
    let tag = rest.split_at(rest.len() - 16).1;
    let mut expected = [0u8; 16];
    expected.copy_from_slice(tag);
    cipher.open_first(&nonce(iv, number), header, text_part(sealed), &expected)
}

// The length of the inner message, the first two bytes of a text.
fn inner_length(text: &[u8]) -> u16
    requires { 2 ≤ length text.now }
    ensures value { result ≡ little_number 2 text.now }
    ensures bytes { little_bytes 2 result ≡ take 2 text.now }
{
    LittleEndian::read_u16(text)
}

// Decrypts in place what follows the first 46 bytes: the rest of a text after its first three blocks, which have two
// bytes more in front.
fn decrypt_rest(cipher: &GcmKey, iv: &[u8; 12], bytes: &mut [u8])
    requires first { 46 ≤ length bytes.old }
    requires most { length bytes.old ≤ MAX_RECORD_SIZE }
    ensures { bytes.new ≡ take 46 bytes.old ++ crypt_behind 3 cipher.now iv.now
        (drop 46 bytes.old) }
{
    let rest = bytes.split_at_mut(46).1;
    cipher.crypt_behind(iv, 3, rest);
}

// Writes an inner message that stands in the first three blocks.
fn write_short(first: &[u8], size: usize, out: &mut RecordFrame)
    requires within { size + 2 ≤ length first.now }
    requires most { size ≤ 46 }
    ensures { out.new ≡ take size (drop 2 first.now) }
{
    let _ = out.replace(first.split_at(2).1.split_at(size).0);
}

// Writes what the first three blocks have after the length of the inner message, and the encrypted rest.
fn write_encrypted(first: &[u8], rest: &[u8], out: &mut RecordFrame)
    requires first { length first.now ≡ 48 }
    requires most { length rest.now ≤ 4088 }
    ensures value { out.new ≡ drop 2 first.now ++ rest.now }
    ensures size { length out.new ≡ length rest.now + 46 }
{
    out.clear();
    let _ = out.extend(first.split_at(2).1);
    let _ = out.extend(rest);
}

// Writes an inner message that goes on after the first three blocks, with its encrypted rest.
fn write_long(cipher: &GcmKey, iv: &[u8; 12], first: &[u8], rest: &[u8], out: &mut RecordFrame)
    requires first { length first.now ≡ 48 }
    requires most { length rest.now ≤ 4088 }
    ensures { out.new ≡ drop 2 first.now ++ crypt_behind 3 cipher.now iv.now rest.now }
{
    write_encrypted(first, rest, out);
    decrypt_rest(cipher, iv, out.as_mut_slice());
}

// Writes the inner message of an encrypted text whose first three blocks were decrypted.
fn write_inner(
    cipher: &GcmKey,
    iv: &[u8; 12],
    first: &[u8],
    text: &[u8],
    size: usize,
    out: &mut RecordFrame,
)
    requires first { first.now ≡ take 48 (crypt cipher.now iv.now text.now) }
    requires long { length first.now ≡ min 48 (length text.now) }
    requires within { size + 2 ≤ length text.now }
    requires most { length text.now ≤ 4136 }
    ensures { out.new ≡ take size (drop 2 (crypt cipher.now iv.now text.now)) }
{
    if size <= 46 {
        write_short(first, size, out);
    } else {
        let rest = text.split_at(48).1.split_at(size - 46).0;
        write_long(cipher, iv, first, rest, out);
    }
}

// Opens a text whose tag was tested, and whose first three blocks were decrypted.
fn open_text(
    cipher: &GcmKey,
    iv: &[u8; 12],
    first: &[u8],
    text: &[u8],
    out: &mut RecordFrame,
) -> Result<(), RecordFault>
    requires first { first.now ≡ take 48 (crypt cipher.now iv.now text.now) }
    requires least { 2 ≤ length text.now }
    requires most { length text.now ≤ 4136 }
    ensures fault { MatchResult result
        (λ _. nat_lt (length text.now - 2)
        (little_number 2 (crypt cipher.now iv.now text.now)) ≡ false)
        (λ e. (e ≡ RecordFault.BadInnerLength)
        × (nat_lt (length text.now - 2)
        (little_number 2 (crypt cipher.now iv.now text.now)) ≡ true)) }
    ensures inner { OnOk result (out.new
        ≡ take (little_number 2 (crypt cipher.now iv.now text.now))
        (drop 2 (crypt cipher.now iv.now text.now))) }
    ensures bytes { OnOk result
        (little_bytes 2 (little_number 2 (crypt cipher.now iv.now text.now))
        ≡ take 2 (crypt cipher.now iv.now text.now)) }
    ensures unchanged { OnErr result (out.new ≡ out.old) }
{
    let size = inner_length(first) as usize;
    if text.len() - 2 < size {
        return Err(RecordFault::BadInnerLength);
    }
    write_inner(cipher, iv, first, text, size, out);
    Ok(())
}

// Overwrites `out` with Decrypts the text of a record.
#[tactic(auto, unfolding(crate::specs::Faults::opened_text))]
pub fn decrypt_text(
    cipher: &GcmKey,
    iv: &[u8; 12],
    number: u16,
    sealed: &[u8],
    out: &mut RecordFrame,
)
    requires least { MIN_RECORD_SIZE ≤ length sealed.now }
    requires most { length sealed.now ≤ MAX_RECORD_SIZE }
    ensures { out.new ≡ opened_text cipher.now iv.now number sealed.now }
{
    let _ = out.replace(text_part(sealed));
    cipher.crypt(&nonce(iv, number), out.as_mut_slice());
}

// Opens a record under a cipher.
#[tactic(auto, unfolding(crate::specs::Faults::fault_of, crate::specs::Faults::inner_of, crate::specs::Faults::opened_text))]
fn open_record(
    cipher: &GcmKey,
    iv: &[u8; 12],
    id: &[u8; 4],
    number: u16,
    sealed: &[u8],
    out: &mut RecordFrame,
) -> Result<(), RecordFault>
    ensures fault { MatchResult result
        (λ _. fault_of cipher.now iv.now id.now number sealed.now ≡ None)
        (λ e. fault_of cipher.now iv.now id.now number sealed.now ≡ Some e) }
    ensures inner { OnOk result (out.new
        ≡ inner_of cipher.now iv.now number sealed.now) }
    ensures bytes { OnOk result
        (little_bytes 2 (little_number 2
        (opened_text cipher.now iv.now number sealed.now))
        ≡ take 2 (opened_text cipher.now iv.now number sealed.now)) }
    ensures unchanged { OnErr result (out.new ≡ out.old) }
{
    if let Some(fault) = header_fault(id, number, sealed) {
        return Err(fault);
    }
    let Ok(first) = open_first(cipher, iv, number, sealed) else {
        return Err(RecordFault::BadTag);
    };
    open_text(
        cipher,
        &nonce(iv, number),
        first.as_slice(),
        text_part(sealed),
        out,
    )
}

// The same, with what it means for records.
pub fn open_by(
    cipher: &GcmKey,
    iv: &[u8; 12],
    id: SessionId,
    number: u16,
    sealed: &[u8],
    out: &mut RecordFrame,
) -> Result<(), RecordFault>
    ensures fault { MatchResult result
        (λ _. fault_of cipher.now iv.now
        (session_id_bytes id.req id.rsp) number sealed.now ≡ None)
        (λ e. fault_of cipher.now iv.now
        (session_id_bytes id.req id.rsp) number sealed.now ≡ Some e) }
    ensures inner { OnOk result (out.new
        ≡ inner_of cipher.now iv.now number sealed.now) }
    ensures unchanged { OnErr result (out.new ≡ out.old) }
    ensures not_spent { IfErr result (λ e. e ≢ RecordFault.KeySpent) }
    ensures record { OnOk result
        (IsRecordOf cipher.now iv.now
        (session_id_bytes id.req id.rsp) number sealed.now out.new) }
    ensures opens { (inner pad : List ℕ)
        → sealed.now ≡ record_of cipher.now iv.now
        (session_id_bytes id.req id.rsp) number inner pad
        → length sealed.now ≤ MAX_RECORD_SIZE → IsOk result × (out.new ≡ inner) }
{
    open_record(cipher, iv, &id.bytes(), number, sealed, out)
}

/// Opens a record under the key of a direction, a session id and a number, and writes its inner message (DSP0277,
/// "Secured Message format"). A fault is the first of `RecordFault` that holds, and leaves `out` as it was; `KeySpent`
/// is not given.
pub fn open(
    key: &DirectionKey,
    id: SessionId,
    number: u16,
    sealed: &[u8],
    out: &mut RecordFrame,
) -> Result<(), RecordFault>
    ensures fault { MatchResult result
        (λ _. fault_of (key_of key.now) (iv_of key.now)
        (session_id_bytes id.req id.rsp) number sealed.now ≡ None)
        (λ e. fault_of (key_of key.now) (iv_of key.now)
        (session_id_bytes id.req id.rsp) number sealed.now ≡ Some e) }
    ensures inner { OnOk result (out.new
        ≡ inner_of (key_of key.now) (iv_of key.now) number sealed.now) }
    ensures unchanged { OnErr result (out.new ≡ out.old) }
    ensures not_spent { IfErr result (λ e. e ≢ RecordFault.KeySpent) }

    // What opens is a record of its inner message, and each record of at most 4,160 bytes opens.
    ensures record { OnOk result
        (IsRecordOf (key_of key.now) (iv_of key.now)
        (session_id_bytes id.req id.rsp) number sealed.now out.new) }
    ensures opens { (inner pad : List ℕ)
        → sealed.now ≡ record_of (key_of key.now) (iv_of key.now)
        (session_id_bytes id.req id.rsp) number inner pad
        → length sealed.now ≤ MAX_RECORD_SIZE → IsOk result × (out.new ≡ inner) }
{
    let cipher = cipher_of(key);
    open_by(&cipher, key.iv(), id, number, sealed, out)
}
