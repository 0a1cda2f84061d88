use crate::wiping::wipe_queue;
use responder_session::{AppQueue, QueueFault};
use spdm_basis::OutOfMemory;
use std::alloc::Global;
use std::marker::Model;

/// The queue of application data to send in reply, which stays on the heap: it has 16 KB. Allocates only when
/// constructed (read, not proved). In contracts, the list of the messages.
#[derive(Drop)]
pub struct ReplyQueue {
    inner: Box<AppQueue>,
}

impl Model for ReplyQueue {
    ghost use Rattle.std.specs.Prelude.{ℕ, List};

    ghost Value = { List (List ℕ) };

    ghost view = { λ q. q.inner.value };
}

impl ReplyQueue {
    ghost use Rattle.std.specs.Prelude.{◌≡◌, ◌≤◌, ◌++◌, ◌∷◌, [], None, Some, IfOk, MatchResult, drop, length, replicate};
    ghost use Rattle.responder_machine.specs.Does.{first_queued};
    ghost use Rattle.responder_session.specs.Queue.{queue_fault};
    ghost use Rattle.spdm_grammar.specs.declared.names.TheConstants.{MAX_APP_DATA_LEN};

    /// An empty queue.
    pub fn new(alloc: Global) -> Result<ReplyQueue, OutOfMemory>
        ensures { IfOk result (λ queue. queue ≡ []) }
    {
        match Box::new(alloc, AppQueue::new()) {
            Ok(inner) => Ok(ReplyQueue { inner }),
            Err(_) => Err(OutOfMemory),
        }
    }

    /// Enqueues application data. On an error nothing changes.
    pub fn push(&mut self, bytes: &[u8]) -> Result<(), QueueFault>
        ensures fault { MatchResult result (λ _. queue_fault self.old bytes.now ≡ None)
            (λ fault. queue_fault self.old bytes.now ≡ Some fault) }
        ensures ok { MatchResult result (λ _. self.new ≡ self.old ++ bytes.now ∷ [])
            (λ _. self.new ≡ self.old) }
    {
        self.inner.push(bytes)
    }

    /// The first message; empty if there is none.
    pub fn first(&self) -> &[u8]
        ensures value { result.now ≡ first_queued self.now }
        ensures fits { length result.now ≤ MAX_APP_DATA_LEN }
    {
        self.inner.first()
    }

    /// Removes the first message.
    pub fn advance(&mut self)
        ensures { self.new ≡ drop 1 self.old }
    {
        self.inner.advance();
    }

    /// Overwrites the messages that wait, or did, by as many messages of zeros as may wait, each as long as one may be.
    pub fn wipe(&mut self)
        ensures { self.new ≡ replicate 16 (replicate MAX_APP_DATA_LEN 0) }
    {
        wipe_queue(self.inner.as_mut());
    }
}
