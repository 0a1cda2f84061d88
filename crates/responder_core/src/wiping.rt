ghost use Rattle.std.specs.Prelude.{◌≡◌, replicate};
ghost use Rattle.spdm_grammar.specs.declared.names.TheConstants.{MAX_APP_DATA_LEN};

use responder_session::AppQueue;
use spdm_grammar::names::MAX_APP_DATA_LEN;

// Overwrites the application data that wait, or did, by as many messages of zeros as may wait, each as long as one may be.
pub fn wipe_queue(queue: &mut AppQueue)
    ensures { queue.new ≡ replicate 16 (replicate MAX_APP_DATA_LEN 0) }
{
    *queue = AppQueue::new();
    for _n in 0..16usize {
        let _ = queue.push(&[0u8; MAX_APP_DATA_LEN]);
    }
}
