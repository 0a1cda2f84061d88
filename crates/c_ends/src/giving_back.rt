//! Ends whose memory is given back. What is secret in them is overwritten before.
ghost use Rattle.requester.specs.Wiped as requesters;
ghost use Rattle.responder.specs.Wiped as responders;

use crate::open_requester::OpenRequester;
use crate::open_responder::OpenResponder;
use requester_core::wipe_psk;
use responder::Known;
use std::alloc::Global;

// Gives the memory of a responder back, in which nothing is secret any more.
fn free_responder(end: Box<OpenResponder, Global>)
    requires { responders.IsWiped end.value.responder }
{
    drop(end);
}

// The same of a requester.
fn free_requester(end: Box<OpenRequester, Global>)
    requires { requesters.IsWiped end.value.requester }
{
    drop(end);
}

/// Overwrites what is secret in a responder, and gives its memory back.
pub fn end_responder(mut end: Box<OpenResponder, Global>) {
    end.responder.wipe();
    free_responder(end);
}

/// Overwrites what is secret in a requester, and gives its memory back.
pub fn end_requester(mut end: Box<OpenRequester, Global>) {
    end.requester.wipe();
    free_requester(end);
}

/// Overwrites the pre-shared keys of these requesters, and gives their memory back.
pub fn end_known(mut known: Vec<Known>) {
    for one in known.iter_mut() {
        wipe_psk(&mut one.psk);
    }
}
