ghost use Rattle.std.specs.Prelude.{◌≡◌, length};
ghost use Rattle.session_keys.specs.Drawing.{draw_as};
ghost use Rattle.spdm_basis.specs.Sizes.{hash_size};
ghost use Rattle.spdm_machine.specs.Keys.{context_of};

use byteorder::{ByteOrder, LittleEndian};
use hmac_hkdf::Drawn;
use spdm_basis::{Buffer, HashAlg};

/// RequesterContext of PSK_EXCHANGE, or ResponderContext of PSK_EXCHANGE_RSP: 32 or 48 bytes.
pub type Context = Buffer<48>;

/// The context of a draw, as long as the hash: it holds the number of the draw, so that no two are equal.
pub fn context_of(hash: HashAlg, drawn: &Drawn) -> Context
    ensures value { result ≡ context_of hash (draw_as drawn.now) }
    ensures long { length result ≡ hash_size hash }
{
    let mut number = [0; 8];
    LittleEndian::write_u64(&mut number, drawn.number);
    let mut context = Context::new();
    match hash {
        HashAlg::Sha256 => {
            let _ = context.extend(&drawn.bytes[..24]);
            let _ = context.extend(&number);
        }
        HashAlg::Sha384 => {
            let _ = context.extend(&drawn.bytes);
            let _ = context.extend(&number);
            let _ = context.extend(&[0; 8]);
        }
    }
    context
}
