ghost use Rattle.std.specs.Prelude.{◌≡◌, OnOk};
ghost use Rattle.capture_records.specs.Keyed.{has_code};

use crate::RecordKeys;
use key_schedule::Direction;
use session_keys::{behind_type, byte_at};
use spdm_basis::{Bytes, OutOfMemory, SessionId};
use spdm_grammar::Choice;
use spdm_grammar::names::{message_type, request_code, response_code};
use std::alloc::Global;
use std::marker::Model;

/// Overwrites a message.
pub(crate) fn set(kept: &mut Bytes, message: &[u8]) -> Result<(), OutOfMemory>
    ensures { OnOk result (kept.new ≡ message.now) }
{
    kept.clear();
    kept.extend(message)
}

// Whether an inner message is an SPDM message with this code, behind its type.
fn has_code(inner: &[u8], code: u8) -> bool
    ensures { result ≡ has_code inner.now code }
{
    byte_at(inner, 0) == message_type::SPDM && byte_at(inner, 2) == code
}

/// How many key updates of each direction the records of a session show.
#[derive(Clone, Copy, Debug, PartialEq, Eq)]
pub struct RecordCount {
    pub request: u64,
    pub response: u64,
}

/// What packets show of a session: the messages from which its keys follow, each as it was sent. PSK_FINISH and
/// PSK_FINISH_RSP are empty as long as no record showed them. In contracts, their lists.
#[derive(Drop)]
pub struct KeyedSession {
    choice: Choice,
    id: SessionId,
    vca: Bytes,
    exchange: Bytes,
    answer: Bytes,
    finish: Bytes,
    finished: Bytes,
    epochs: RecordCount,
}

impl Model for KeyedSession {
    ghost use Rattle.capture_records.specs.Keyed.{Keyed};

    ghost Value = { Keyed };

    ghost view = { λ s. record {
      choice = s.choice;
      id = s.id;
      vca = s.vca;
      exchange = s.exchange;
      answer = s.answer;
      finish = s.finish;
      finished = s.finished;
      request_epoch = s.epochs.request;
      response_epoch = s.epochs.response;
    } };
}

impl KeyedSession {
    ghost use Rattle.std.specs.Prelude.{◌≡◌, [], IfOk, OnOk};
    ghost use Rattle.capture_records.specs.Keyed.{Keyed, epoch_of, noted, shown_by, with_epoch};

    /// The session that PSK_EXCHANGE and PSK_EXCHANGE_RSP begin behind a negotiation.
    pub fn new(
        alloc: Global,
        choice: Choice,
        id: SessionId,
        vca: &[u8],
        exchange: &[u8],
        answer: &[u8],
    ) -> Result<KeyedSession, OutOfMemory>
        ensures { IfOk result (λ s. s ≡ record {
          choice = choice;
          id = id;
          vca = vca.now;
          exchange = exchange.now;
          answer = answer.now;
          finish = [];
          finished = [];
          request_epoch = 0;
          response_epoch = 0;
        }) }
    {
        Ok(KeyedSession {
            choice,
            id,
            vca: Bytes::copy(alloc, vca)?,
            exchange: Bytes::copy(alloc, exchange)?,
            answer: Bytes::copy(alloc, answer)?,
            finish: Bytes::new(alloc),
            finished: Bytes::new(alloc),
            epochs: RecordCount {
                request: 0,
                response: 0,
            },
        })
    }

    /// The algorithms that were chosen.
    pub fn choice(&self) -> Choice
        ensures { result ≡ self.now.choice }
    {
        self.choice
    }

    /// Both halves of its id.
    pub fn id(&self) -> SessionId
        ensures { result ≡ self.now.id }
    {
        self.id
    }

    pub(crate) fn vca(&self) -> &[u8]
        ensures { result.now ≡ self.now.vca }
    {
        self.vca.as_slice()
    }

    pub(crate) fn exchange(&self) -> &[u8]
        ensures { result.now ≡ self.now.exchange }
    {
        self.exchange.as_slice()
    }

    pub(crate) fn answer(&self) -> &[u8]
        ensures { result.now ≡ self.now.answer }
    {
        self.answer.as_slice()
    }

    pub(crate) fn finish(&self) -> &[u8]
        ensures { result.now ≡ self.now.finish }
    {
        self.finish.as_slice()
    }

    pub(crate) fn finished(&self) -> &[u8]
        ensures { result.now ≡ self.now.finished }
    {
        self.finished.as_slice()
    }

    /// How many key updates of a direction its records show.
    pub fn epoch(&self, direction: Direction) -> u64
        ensures { result ≡ epoch_of self.now direction }
    {
        match direction {
            Direction::Request => self.epochs.request,
            Direction::Response => self.epochs.response,
        }
    }

    // A record of a direction opened under the keys after so many key updates.
    fn set_epoch(&mut self, direction: Direction, epoch: u64)
        ensures { self.new ≡ with_epoch self.old direction epoch }
    {
        match direction {
            Direction::Request => self.epochs.request = epoch,
            Direction::Response => self.epochs.response = epoch,
        }
    }

    // A record of the handshake, before PSK_FINISH_RSP, showed this inner message.
    fn set_message(&mut self, direction: Direction, inner: &[u8]) -> Result<(), OutOfMemory>
        ensures { OnOk result (self.new ≡ shown_by self.old direction inner.now) }
    {
        match direction {
            Direction::Request => {
                if has_code(inner, request_code::PSK_FINISH) {
                    set(&mut self.finish, behind_type(inner))?;
                }
            }
            Direction::Response => {
                if has_code(inner, response_code::PSK_FINISH_RSP) {
                    set(&mut self.finished, behind_type(inner))?;
                }
            }
        }
        Ok(())
    }

    /// A record of a direction opened under these keys, and holds this inner message.
    pub fn note(
        &mut self,
        direction: Direction,
        keys: RecordKeys,
        inner: &[u8],
    ) -> Result<(), OutOfMemory>
        ensures { OnOk result (self.new ≡ noted self.old direction keys inner.now) }
    {
        match keys {
            RecordKeys::Handshake => {
                if self.finished.as_slice().is_empty() {
                    self.set_message(direction, inner)?;
                }
            }
            RecordKeys::Data { epoch } => self.set_epoch(direction, epoch),
        }
        Ok(())
    }
}
