//! Hashes beside those of the program xxhsum.
use soxchain_xxh64::{Xxh64, xxh64};
use std::alloc::{AllocError, Global};
use std::test::Fail;

/// The lengths of bytes, of which the one at i is 7 i modulo 256, and what `xxhsum -H1` makes of them.
const HASHES: [(usize, u64); 22] = [
    (0, 0xef46_db37_51d8_e999),
    (1, 0xe934_a84a_db05_2768),
    (3, 0x9ff7_0a63_5a62_09ab),
    (4, 0xae5a_cdc0_0a55_ac41),
    (5, 0x8ad5_8ce1_8a6f_d093),
    (7, 0xd734_a6b2_6f3d_a63e),
    (8, 0x8711_6b33_65b9_24eb),
    (9, 0x3406_67a9_2c43_24ff),
    (12, 0x14b8_433b_9a14_e611),
    (15, 0x02c5_3ab1_e360_882f),
    (16, 0xed1d_d2fa_c0a3_1fbc),
    (31, 0x0f18_7c62_b1e7_22b7),
    (32, 0x91b0_cb09_31a8_c629),
    (33, 0x931b_043c_f8d6_5b94),
    (36, 0xff88_9616_afdd_68c2),
    (40, 0x6bc9_2727_9e6a_3044),
    (63, 0x2191_10bf_13e2_fa26),
    (64, 0xbf30_52e3_4457_75d0),
    (65, 0xed65_e351_0df3_611d),
    (100, 0x8e22_72c0_8247_d5db),
    (256, 0x2104_9918_04cc_ea01),
    (300, 0x240b_95ed_f72f_18e0),
];

/// So many bytes, of which the one at i is 7 i modulo 256.
pub fn sevens(alloc: Global, size: usize) -> Result<Vec<u8>, AllocError> {
    let mut bytes = Vec::new(alloc);
    let mut byte = 0u8;
    for _ in 0..size {
        bytes.push(byte)?;
        byte = byte.wrapping_add(7);
    }
    Ok(bytes)
}

#[test]
fn texts(rt: HostRuntime) {
    assert_eq!(rt; xxh64(b""), 0xef46_db37_51d8_e999);
    assert_eq!(rt; xxh64(b"a"), 0xd24e_c4f1_a98c_6e5b);
    assert_eq!(rt; xxh64(b"abc"), 0x44bc_2cf5_ad77_0999);
    let text = b"Nobody inspects the spammish repetition";
    assert_eq!(rt; xxh64(text), 0xfbce_a83c_8a37_8bf1);
}

#[test]
fn lengths(rt: HostRuntime) -> Result<(), Fail> {
    for (size, hash) in &HASHES {
        let bytes = sevens(rt.alloc(), *size)?;
        assert_eq!(rt; xxh64(&bytes), *hash, "of {size} bytes");
    }
    Ok(())
}

#[test]
fn odd_pieces(rt: HostRuntime) -> Result<(), Fail> {
    for size in 0..101usize {
        let bytes = sevens(rt.alloc(), size)?;
        for step in 1..41usize {
            let mut state = Xxh64::new();
            for piece in bytes.chunks(step) {
                state.update(piece);
            }
            assert_eq!(rt; state.digest(), xxh64(&bytes), "{size} bytes by {step}");
        }
    }
    Ok(())
}
