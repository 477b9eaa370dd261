//! Checksums that are known elsewhere: those of RFC 3720, B.4, of the catalogues of checksums, and of
//! a model that was written by hand, bit by bit.
use crate::checks::is;
use zarrs_crc32c::checksum_of;

/// Bytes and their checksum.
struct Vector {
    name: &'static str,
    bytes: &'static [u8],
    checksum: u32,
}

const VECTORS: &'static [Vector] = &[
    Vector {
        name: "no bytes",
        bytes: &[],
        checksum: 0x0000_0000,
    },
    Vector {
        name: "a byte of zeros",
        bytes: &[0],
        checksum: 0x527d_5351,
    },
    Vector {
        name: "eight bytes",
        bytes: &[0, 1, 2, 3, 4, 5, 6, 7],
        checksum: 0x8a2c_bc3b,
    },
    Vector {
        name: "the check value of the catalogues",
        bytes: b"123456789",
        checksum: 0xe306_9283,
    },
    Vector {
        name: "the alphabet, three words and two bytes",
        bytes: b"abcdefghijklmnopqrstuvwxyz",
        checksum: 0x9ee6_ef25,
    },
    Vector {
        name: "RFC 3720: 32 bytes of zeros",
        bytes: &[0; 32],
        checksum: 0x8a91_36aa,
    },
    Vector {
        name: "RFC 3720: 32 bytes of ones",
        bytes: &[255; 32],
        checksum: 0x62a8_ab43,
    },
    Vector {
        name: "RFC 3720: 32 bytes that rise",
        bytes: &[
            0, 1, 2, 3, 4, 5, 6, 7, 8, 9, 10, 11, 12, 13, 14, 15, 16, 17, 18, 19, 20, 21, 22, 23,
            24, 25, 26, 27, 28, 29, 30, 31,
        ],
        checksum: 0x46dd_794e,
    },
    Vector {
        name: "RFC 3720: 32 bytes that fall",
        bytes: &[
            31, 30, 29, 28, 27, 26, 25, 24, 23, 22, 21, 20, 19, 18, 17, 16, 15, 14, 13, 12, 11, 10,
            9, 8, 7, 6, 5, 4, 3, 2, 1, 0,
        ],
        checksum: 0x113f_db5c,
    },
    Vector {
        name: "RFC 3720: a command of 48 bytes",
        bytes: &[
            0x01, 0xc0, 0, 0, 0, 0, 0, 0, 0, 0, 0, 0, 0, 0, 0, 0, 0x14, 0, 0, 0, 0, 0, 0x04, 0, 0,
            0, 0, 0x14, 0, 0, 0, 0x18, 0x28, 0, 0, 0, 0, 0, 0, 0, 0x02, 0, 0, 0, 0, 0, 0, 0,
        ],
        checksum: 0xd996_3a56,
    },
    Vector {
        name: "1,500 bytes of ones, which are divided",
        bytes: &[255; 1500],
        checksum: 0x4d1a_8959,
    },
];

#[test]
fn checksums_are_the_known_ones(rt: HostRuntime) {
    for vector in VECTORS.iter() {
        is(
            &rt,
            vector.name,
            &checksum_of(vector.bytes),
            &vector.checksum,
        );
    }
}
