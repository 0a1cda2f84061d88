//! An attestor whose memory is given back. What is secret in it is overwritten before.
ghost use Rattle.attestor.specs.Wiped.{IsWiped};

use crate::open_attestor::OpenAttestor;
use std::alloc::Global;

// Gives the memory of an attestor back, in which nothing is secret any more.
fn free_attestor(end: Box<OpenAttestor, Global>)
    requires { IsWiped end.value.attestor }
{
    drop(end);
}

/// Overwrites what is secret in an attestor, and gives its memory back.
pub fn end_attestor(mut end: Box<OpenAttestor, Global>) {
    end.attestor.wipe();
    free_attestor(end);
}
