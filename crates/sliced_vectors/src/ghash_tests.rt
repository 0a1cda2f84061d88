use ghash::{TablelessHashKey, block_bytes, multiply};

// Test case 2 of "The Galois/Counter Mode of Operation" by McGrew and Viega, appendix B: the hash key H, the
// block C, X1, their product, and the hash of C and of the block of the lengths.
const H: u128 = 0x66e94bd4ef8a2c3b884cfa59ca342b2e;

const C: u128 = 0x0388dace60b6a392f328c2b971b2fe78;

const PRODUCT: u128 = 0x5e2ec746917062882c85b0685353deb7;

const LENGTHS: u128 = 0x80;

const HASH: u128 = 0xf38cbb1ad69223dcc3457ae5b6b0f885;

#[test]
fn hash_without_a_table(rt: HostRuntime) {
    let key = TablelessHashKey::new(H);
    assert_eq!(rt; key.times(C), PRODUCT);
    let hash = key.absorb(0, &block_bytes(C));
    assert_eq!(rt; key.absorb_block(hash, LENGTHS), HASH);
}

// Where all bits are set, as many come together at each place as ever do.
#[test]
fn all_bits_set(rt: HostRuntime) {
    let all = u128::MAX;
    assert_eq!(rt; TablelessHashKey::new(all).times(all), multiply(all, all));
}
