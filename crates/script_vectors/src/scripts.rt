// A script with each kind of line, and what is printed of it; and generated scripts. The printed forms are those of
// another implementation.
pub const SCRIPT: &str = "\
# a comment
suite r both 256
block 254 255 0 -
block 1 0 1 aAbB
requester 254 42 42 1024 16 - - 01 -
responder 8 4096 4096 64 0 -
suite q1 384 both

opaque CAFE
seed 000102030405060708090a0b0c0d0e0f101112131415161718191A1B1C1D1E1F
requester 9 1024 2048 65 0 mhkc 71 31323334 0Aff
requester 10 1024 4096 64 1 hkc - 22 -
suite q3 256 256
end
q1 connect
# between
q2 retry
q3 open 0
q1 open 255
q1 send 4 -
q1 send 1 00ffAb
q2 beat 2
q2 end 3
q1 update 1 key
q1 update 4 all
q1 measure - 0
q1 measure 3 255
reply q3 -
reply q1 0102
deliver 4294967295
lose 0

inject -
inject 010809
pump 65536
tick 1000000
show";

pub const PRINTED: &str = "\
seed 000102030405060708090a0b0c0d0e0f101112131415161718191a1b1c1d1e1f
responder 8 4096 4096 64 0 -
opaque cafe
block 254 255 0 -
block 1 0 1 aabb
requester 254 42 42 1024 16 - - 01 -
requester 9 1024 2048 65 0 mhkc 71 31323334 0aff
requester 10 1024 4096 64 1 hkc - 22 -
suite r both 256
suite q1 384 both
suite q3 256 256
end
q1 connect
q2 retry
q3 open 0
q1 open 255
q1 send 4 -
q1 send 1 00ffab
q2 beat 2
q2 end 3
q1 update 1 key
q1 update 4 all
q1 measure - 0
q1 measure 3 255
reply q3 -
reply q1 0102
deliver 4294967295
lose 0
inject -
inject 010809
pump 65536
tick 1000000
show
";

// Of the seed 0, with 4 events.
pub const FOUR: &str = "\
seed 0000000000000000000000000000000000000000000000000000000000000000
responder 8 1024 4096 64 30 mhkc
block 1 0 1 aaaaaaaaaaaaaaaaaaaaaaaaaaaaaaaaaaaaaaaaaaaaaaaaaaaaaaaaaaaaaaaa
block 2 129 0 aaaaaaaaaaaaaaaaaaaaaaaaaaaaaaaaaaaaaaaaaaaaaaaaaaaaaaaaaaaaaaaa
requester 9 1024 4096 64 0 hkc 71 11111111111111111111111111111111 -
requester 10 1024 4096 64 0 hkc 72 22222222222222222222222222222222 -
end
q1 connect
pump 100
q1 open 0
pump 100
q2 connect
pump 100
q2 open 0
pump 100
pump 1
q2 send 1 0200000000000000
q1 update 1 key
q2 retry
";

// Of the seed 2^64 - 1, with 60 events.
pub const SIXTY: &str = "\
seed ffffffffffffffffffffffffffffffffffffffffffffffffffffffffffffffff
responder 8 1024 4096 64 30 mhkc
block 1 0 1 aaaaaaaaaaaaaaaaaaaaaaaaaaaaaaaaaaaaaaaaaaaaaaaaaaaaaaaaaaaaaaaa
block 2 129 0 aaaaaaaaaaaaaaaaaaaaaaaaaaaaaaaaaaaaaaaaaaaaaaaaaaaaaaaaaaaaaaaa
requester 9 1024 4096 64 0 hkc 71 11111111111111111111111111111111 -
requester 10 1024 4096 64 0 hkc 72 22222222222222222222222222222222 -
end
q1 connect
pump 100
q1 open 0
pump 100
q2 connect
pump 100
q2 open 0
pump 100
pump 1
q2 send 1 0200000000000000
q2 update 1 key
q2 send 1 0400000000000000
q1 send 1 0500000000000000
pump 1
q2 send 1 0700000000000000
pump 1
q2 send 1 0900000000000000
pump 1
q1 send 1 0b00000000000000
q1 send 1 0c00000000000000
q2 send 1 0d00000000000000
q2 beat 1
q1 beat 1
q1 send 1 1000000000000000
q1 send 1 1100000000000000
pump 1
q1 beat 1
q1 send 1 1400000000000000
q2 send 1 1500000000000000
q2 send 1 1600000000000000
q1 send 1 1700000000000000
deliver 79
q1 update 1 all
q2 update 1 all
q2 send 1 1b00000000000000
pump 1
pump 1
deliver 117
reply q1 1f00000000000000
q1 send 1 2000000000000000
pump 1
pump 1
q1 send 1 2300000000000000
q1 update 1 key
q1 send 1 2500000000000000
q1 send 1 2600000000000000
pump 1
pump 1
q1 send 1 2900000000000000
deliver 177
pump 1
q2 send 1 2c00000000000000
q1 send 1 2d00000000000000
pump 1
q2 beat 1
pump 1
q2 send 1 3100000000000000
q2 beat 1
q2 send 1 3300000000000000
pump 1
reply q1 3500000000000000
pump 1
q2 update 1 key
pump 1
q1 send 1 3900000000000000
q2 retry
q2 send 1 3b00000000000000
pump 1
";
