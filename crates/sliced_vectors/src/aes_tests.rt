use aes::{Aes, SlicedAes};

// The block of FIPS 197, appendix C, and what it is enciphered to under the keys of C.1 and C.3.
const BLOCK: u128 = 0x00112233445566778899aabbccddeeff;

const UNDER_SMALL_KEY: u128 = 0x69c4e0d86a7b0430d8cdb78070b4c55a;

const UNDER_LARGE_KEY: u128 = 0x8ea2b7ca516745bfeafc49904b496089;

// The bytes 0, 1, 2 and so on, as the keys of that appendix are.
const KEY: [u8; 32] = [
    0, 1, 2, 3, 4, 5, 6, 7, 8, 9, 10, 11, 12, 13, 14, 15, 16, 17, 18, 19, 20, 21, 22, 23, 24, 25,
    26, 27, 28, 29, 30, 31,
];

#[test]
fn four_blocks_of_fips_197(rt: HostRuntime) {
    let small = SlicedAes::new(&KEY[..16]).encrypt_four(&[BLOCK, 0, 1, BLOCK]);
    assert_eq!(rt; small[0], UNDER_SMALL_KEY);
    assert_eq!(rt; small[3], UNDER_SMALL_KEY);
    let large = SlicedAes::new(&KEY).encrypt_four(&[0, BLOCK, BLOCK, 1]);
    assert_eq!(rt; large[1], UNDER_LARGE_KEY);
    assert_eq!(rt; large[2], UNDER_LARGE_KEY);
}

// Four different blocks at once, and one by one by tables.
#[test]
fn slices_do_as_the_tables(rt: HostRuntime) {
    let blocks = [1, BLOCK, u128::MAX, UNDER_LARGE_KEY];
    let four = SlicedAes::new(&KEY).encrypt_four(&blocks);
    let table = Aes::new(&KEY);
    for n in 0..4usize {
        assert_eq!(rt; four[n], table.encrypt_number(blocks[n]));
    }
}

// A block begun without its last byte, here 0xff.
#[test]
fn begun_block_of_fips_197(rt: HostRuntime) {
    let small = Aes::new(&KEY[..16]);
    assert_eq!(rt;
        small.encrypt_begun(&small.begin(BLOCK - 0xff), 0xff),
        UNDER_SMALL_KEY
    );
    let large = Aes::new(&KEY);
    assert_eq!(rt;
        large.encrypt_begun(&large.begin(BLOCK), 0xff),
        UNDER_LARGE_KEY
    );
}
