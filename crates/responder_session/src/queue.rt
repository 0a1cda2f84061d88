ghost use Rattle.std.specs.Prelude.{◌≡◌, []};
ghost use Rattle.spdm_grammar.specs.declared.names.TheConstants.{MAX_APP_DATA_LEN};

use arrayvec::ArrayVec;
use spdm_basis::Buffer;
use spdm_grammar::names::MAX_APP_DATA_LEN;
use std::marker::Model;
use thiserror::Error;

/// Why application data is not queued, in the order of the checks.
#[derive(Clone, Copy, Debug, PartialEq, Eq, Error)]
pub enum QueueFault {
    /// There are more than 1,024 bytes.
    #[error("more than 1,024 bytes")]
    TooLong,
    /// 16 messages are queued.
    #[error("16 messages wait")]
    Full,
}

// As many messages may wait.
const MOST_WAITING: usize = 16;

// Application data that waits.
#[derive(Drop)]
struct Reply {
    bytes: Buffer<MAX_APP_DATA_LEN>,
}

impl Default for Reply {
    ghost is_default = { λ reply. reply.bytes ≡ [] };

    fn default() -> Reply {
        Reply {
            bytes: Buffer::new(),
        }
    }
}

impl Reply {
    ghost use Rattle.std.specs.Prelude.{◌≡◌, ◌≤◌, length};

    // A copy of application data.
    fn of(bytes: &[u8]) -> Reply
        requires { length bytes.now ≤ MAX_APP_DATA_LEN }
        ensures { result.bytes ≡ bytes.now }
    {
        let mut reply = Reply::default();
        let _ = reply.bytes.extend(bytes);
        reply
    }
}

/// The queue of application data to send in reply, oldest first: up to 16 messages of up to 1,024 bytes, stored inline.
/// In contracts, the list of the messages.
#[derive(Drop)]
pub struct AppQueue {
    replies: ArrayVec<Reply, 16>,
}

impl Model for AppQueue {
    ghost use Rattle.std.specs.Prelude.{ℕ, List, map};

    ghost Value = { List (List ℕ) };

    ghost view = { λ q. map (λ r. r.bytes) q.replies.items };
}

impl AppQueue {
    ghost use Rattle.std.specs.Prelude.{◌≡◌, ◌≤◌, ◌++◌, ◌∷◌, [], None, Some, MatchResult, drop, length};
    ghost use Rattle.responder_machine.specs.Does.{first_queued};
    ghost use Rattle.responder_session.specs.Queue.{queue_fault};

    /// An empty queue.
    pub fn new() -> AppQueue
        ensures { result ≡ [] }
    {
        AppQueue {
            replies: ArrayVec::new(),
        }
    }

    /// Enqueues application data. On an error nothing changes.
    pub fn push(&mut self, bytes: &[u8]) -> Result<(), QueueFault>
        ensures fault { MatchResult result (λ _. queue_fault self.old bytes.now ≡ None)
            (λ fault. queue_fault self.old bytes.now ≡ Some fault) }
        ensures ok { MatchResult result (λ _. self.new ≡ self.old ++ bytes.now ∷ [])
            (λ _. self.new ≡ self.old) }
    {
        if bytes.len() > MAX_APP_DATA_LEN {
            return Err(QueueFault::TooLong);
        }
        if self.replies.len() >= MOST_WAITING {
            return Err(QueueFault::Full);
        }
        self.replies.push(Reply::of(bytes));
        Ok(())
    }

    /// The first message; empty if there is none.
    pub fn first(&self) -> &[u8]
        ensures value { result.now ≡ first_queued self.now }
        ensures fits { length result.now ≤ MAX_APP_DATA_LEN }
    {
        match self.replies.first() {
            Some(reply) => reply.bytes.as_slice(),
            None => &[],
        }
    }

    /// Removes the first message.
    pub fn advance(&mut self)
        ensures { self.new ≡ drop 1 self.old }
    {
        let _ = self.replies.pop_at(0);
    }
}
