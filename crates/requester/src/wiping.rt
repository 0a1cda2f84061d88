use crate::Requester;
use hmac_hkdf::DrawStream;
use requester_core::wipe_psk;

impl Requester {
    ghost use Rattle.requester.specs.Wiped.{IsWiped};

    /// Overwrites in place what is secret, before the memory of the requester is given back: the pre-shared key, the keys
    /// and the plaintexts of each session, and the seed. Not to be gone on with.
    pub fn wipe(&mut self)
        ensures { IsWiped self.new }
    {
        wipe_psk(&mut self.part.psk);
        self.asking.wipe();
        self.draws = DrawStream::new([0u8; 32]);
    }
}
