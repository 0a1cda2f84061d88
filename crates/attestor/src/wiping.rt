use crate::Attestor;

impl Attestor {
    ghost use Rattle.attestor.specs.Wiped.{IsWiped};

    /// Overwrites in place what is secret, before the memory of the attestor is given back: all that is secret in its
    /// requester. A policy is none. Not to be gone on with.
    pub fn wipe(&mut self)
        ensures { IsWiped self.new }
    {
        self.requester.wipe();
    }
}
