ghost use Rattle.std.specs.Prelude.{◌≡◌, ◌≤◌, ℕ, length};
ghost use Rattle.spdm_basis.specs.declared.values.aead_alg.AeadAlg.{AeadAlg};
ghost use Rattle.spdm_grammar.specs.Message.{offer_message};
ghost use Rattle.negotiate.specs.Reply.{is_answered, answered_kinds, answer_bits, answer_tables, measurement_hash_bit};
ghost use Rattle.negotiate.specs.Choosing.{hash_bit, aead_bit};

use crate::tables::{behind_front, byte_at};
use arrayvec::ArrayVec;
use spdm_basis::Buffer;
use spdm_grammar::names::{
    KEY_SCHEDULE_SPDM, MEASUREMENT_DMTF, aead, base_hash, measurement_hash, table_type,
};
use spdm_grammar::{AeadAlg, AlgOffer, AlgReply, Choice, HashAlg};
use std::marker::Model;

/// The reply of a responder to an offer, with the algorithm structures that `AlgReply` lends. In contracts, the
/// message.
#[derive(Clone, Debug, Drop)]
pub struct Reply {
    choice: Choice,
    other: u8,
    count: u8,
    tables: Buffer<16>,
}

impl Model for Reply {
    ghost use Rattle.std.specs.Prelude.{[], if◌then◌else◌};
    ghost use Rattle.spdm_grammar.specs.Message.{ReplyMessage};
    ghost use Rattle.negotiate.specs.Choosing.{hash_bit};
    ghost use Rattle.negotiate.specs.Reply.{measurement_hash_bit};

    ghost Value = { ReplyMessage };

    ghost view = { λ r. record {
      measurement = if r.choice.measure then 1 else 0;
      other = r.other;
      measurement_hash = if r.choice.measure then measurement_hash_bit r.choice.hash else 0;
      asym = 0;
      hash = hash_bit r.choice.hash;
      ext_asym = [];
      ext_hash = [];
      count = r.count;
      tables = r.tables;
    } };
}

impl Reply {
    ghost use Rattle.std.specs.Prelude.{◌≡◌};
    ghost use Rattle.spdm_grammar.specs.Message.{offer_message, reply_message};
    ghost use Rattle.negotiate.specs.Reply.{reply_of};

    /// The reply to a sound offer with this choice (DSP0274, "ALGORITHMS"): one algorithm structure for the first
    /// structure of each known type in the offer, in the offer's order.
    pub fn new(offer: &AlgOffer<'_>, choice: Choice) -> Reply
        ensures { result ≡ reply_of (offer_message offer.now) choice }
    {
        let kinds = answered_kinds(offer);
        Reply {
            choice,
            other: offer.other & OPAQUE_FORMAT_1,
            count: kinds.len() as u8,
            tables: answer_tables(choice, kinds.as_slice()),
        }
    }

    /// The message.
    pub fn message(&self) -> AlgReply<'_>
        ensures { reply_message result ≡ self.now }
    {
        let measurement_hash = measurement_hash_bit(self.choice.hash);
        let measure = self.choice.measure;
        AlgReply {
            measurement: if measure { MEASUREMENT_DMTF } else { 0 },
            other: self.other,
            measurement_hash: if measure { measurement_hash } else { 0 },
            asym: 0,
            hash: hash_bit(self.choice.hash),
            ext_asym: &[],
            ext_hash: &[],
            count: self.count,
            tables: self.tables.as_slice(),
        }
    }
}

// OtherParamsSelection: opaque data format 1.
const OPAQUE_FORMAT_1: u8 = 2;

// The types of the algorithm structures that are answered, in the offer's order.
fn answered_kinds(offer: &AlgOffer<'_>) -> ArrayVec<u8, 4>
    ensures { result.items ≡ answered_kinds (offer_message offer.now) }
{
    let mut kinds = ArrayVec::<u8, 4>::new();
    let mut rest = offer.tables;
    for i in 0..offer.count {
        let kind = byte_at(rest, 0);
        if is_answered(kind) && !kinds.as_slice().contains(&kind) {
            kinds.push(kind);
        }
        rest = behind_front(rest);
    }
    kinds
}

// Whether an algorithm structure of this type is answered.
fn is_answered(kind: u8) -> bool
    ensures { result ≡ is_answered kind }
{
    kind >= table_type::DHE && kind <= table_type::KEY_SCHEDULE
}

// The algorithm structures that answer these types.
fn answer_tables(choice: Choice, kinds: &[u8]) -> Buffer<16>
    requires { length kinds.now ≤ 4 }
    ensures { result ≡ answer_tables choice kinds.now }
{
    let mut tables = Buffer::<16>::new();
    for kind in kinds {
        let _ = tables.extend(&[*kind, 0x20, answer_bits(choice, *kind), 0]);
    }
    tables
}

// The bits that answer a type.
fn answer_bits(choice: Choice, kind: u8) -> u8
    ensures { result ≡ answer_bits choice kind }
{
    match kind {
        table_type::AEAD => aead_bit(choice.aead),
        table_type::KEY_SCHEDULE => KEY_SCHEDULE_SPDM as u8,
        _ => 0,
    }
}

fn hash_bit(hash: HashAlg) -> u32
    ensures { result ≡ hash_bit hash }
{
    match hash {
        HashAlg::Sha256 => base_hash::SHA_256,
        HashAlg::Sha384 => base_hash::SHA_384,
    }
}

fn aead_bit(alg: AeadAlg) -> u8
    ensures { result ≡ aead_bit alg }
{
    match alg {
        AeadAlg::Aes128Gcm => aead::AES_128_GCM as u8,
        AeadAlg::Aes256Gcm => aead::AES_256_GCM as u8,
    }
}

fn measurement_hash_bit(hash: HashAlg) -> u32
    ensures { result ≡ measurement_hash_bit hash }
{
    match hash {
        HashAlg::Sha256 => measurement_hash::SHA_256,
        HashAlg::Sha384 => measurement_hash::SHA_384,
    }
}
