//! Chains and hashes in lanes.
use hex::FromHex;
use lms_lanes::{hash_chains, hash_ends};
use sha2::{Digest, Sha256};
use std::test::Fail;

/// The bytes of the first steps of eight chains, of which the last eight bits count. Chain k has
/// head k and value k.
const FIRSTS: [u16; 8] = [7, 0, 255, 250, 128, 1, 255, 65535];

/// How many steps each chain takes.
const STEPS: [u16; 8] = [0, 1, 2, 15, 100, 255, 256, 300];

/// Where each chain ends: digests of Python's hashlib, but for the chain without a step, which ends
/// in its value.
const ENDS: [&str; 8] = [
    "000102030405060708090a0b0c0d0e0f101112131415161718191a1b1c1d1e1f",
    "e1e3419238801260afa92f90099b81574ba66c93ac9cda635b8f5adfba97090f",
    "edfc1c829003f6bad00a06d414fd73e259a0795445241f7c382323de27535c6f",
    "e6e9805caf4687f08843d64f14aa18bb7427812ac72202f41026d31e70bc5142",
    "30b021428720e14fe93d2c45c7ccee04c9513c9a9ee6a1f58cf74602c1ad0df6",
    "8f65a4887f247f6b3c3be8f31f5c889843846b318b58ca6d92b25231fc22ef7a",
    "f0d8d5f95e00c3cb9d2b12ac9e6ad2c5c6dffb524f71d6eb923c9e2c6f66a4e5",
    "4060fff8ad6676980ee3b8f4130d1b39b5bc5d2cb63282455f093f07468a6d31",
];

/// Head k: the 22 bytes from 22 k on, each one more than the one before it.
fn head(k: usize) -> [u8; 22] {
    let mut head = [0; 22];
    for j in 0..22 {
        head[j] = (k % 8 * 22 + j) as u8;
    }
    head
}

/// Value k: the 32 bytes from 32 k on, each one more than the one before it.
fn value(k: usize) -> [u8; 32] {
    let mut value = [0; 32];
    for j in 0..32 {
        value[j] = (k % 8 * 32 + j) as u8;
    }
    value
}

/// Whether all chains end where they should, chain k in the lane `by` lanes after its own.
fn ends_in_lanes_from(by: usize) -> Result<bool, Fail> {
    let mut heads = [[0; 22]; 8];
    let mut firsts = [0; 8];
    let mut steps = [0; 8];
    let mut values = [[0; 32]; 8];
    let mut ends = [[0; 32]; 8];
    for k in 0..8 {
        let lane = (k + by % 8) % 8;
        heads[lane] = head(k);
        firsts[lane] = FIRSTS[k];
        steps[lane] = STEPS[k];
        values[lane] = value(k);
        ends[lane] = FromHex::from_hex(ENDS[k])?;
    }
    Ok(hash_chains(&heads, &firsts, &steps, &values) == ends)
}

#[test]
fn hashes_each_chain_in_each_lane(rt: HostRuntime) -> Result<(), Fail> {
    for by in 0..8 {
        assert!(rt; ends_in_lanes_from(by)?, "{by}");
    }
    Ok(())
}

/// One chain, step by step.
fn bare(head: [u8; 22], first: u16, steps: u16, start: [u8; 32]) -> [u8; 32] {
    let mut value = start;
    for i in 0..steps {
        let mut text = [(first.wrapping_add(i) % 256) as u8; 55];
        text[..22].copy_from_slice(&head);
        text[23..].copy_from_slice(&value);
        value = Sha256::digest(text);
    }
    value
}

/// Whether each lane ends where its chain does.
fn ends_as_bare(firsts: [u16; 8], steps: [u16; 8]) -> bool {
    let mut heads = [[0; 22]; 8];
    let mut values = [[0; 32]; 8];
    for k in 0..8 {
        heads[k] = head(k);
        values[k] = value(7 - k);
    }
    let ends = hash_chains(&heads, &firsts, &steps, &values);
    let mut same = true;
    for k in 0..8 {
        same &= ends[k] == bare(heads[k], firsts[k], steps[k], values[k]);
    }
    same
}

#[test]
fn stops_each_lane_at_its_own_end(rt: HostRuntime) -> Result<(), Fail> {
    assert!(rt; ends_as_bare([0; 8], [0; 8]));
    assert!(rt; ends_as_bare([255; 8], [256; 8]));
    assert!(rt;
        ends_as_bare(
            [255, 0, 7, 255, 128, 1, 254, 3],
            [1, 0, 2, 16, 127, 300, 1, 15]
        )
    );
    assert!(rt; ends_as_bare([0, 1, 2, 3, 4, 5, 6, 65535], [0, 0, 0, 0, 0, 0, 0, 2]));
    Ok(())
}

/// The digest over a front, a mark and the ends of its chains, chain by chain.
fn bare_ends(
    front: [u8; 20],
    mark: u16,
    chains: u16,
    first: u16,
    steps: u16,
    start: [u8; 32],
) -> [u8; 32] {
    let mut hasher = Sha256::new();
    hasher.update(front);
    hasher.update(mark.to_be_bytes());
    for number in 0..chains {
        let mut head = [0; 22];
        head[..20].copy_from_slice(&front);
        head[20..].copy_from_slice(&number.to_be_bytes());
        hasher.update(bare(head, first, steps, start));
    }
    hasher.finalize()
}

#[test]
fn hashes_the_ends_of_each_key(rt: HostRuntime) -> Result<(), Fail> {
    let mut fronts = [[0; 20]; 8];
    for k in 0..8 {
        let front = head(k);
        fronts[k].copy_from_slice(&front[..20]);
    }
    for (chains, first, steps) in [
        (0, 255, 3),
        (1, 0, 3),
        (2, 7, 0),
        (3, 255, 300),
        (4, 65535, 2),
        (34, 254, 5),
        (300, 255, 1),
    ] {
        let hashes = hash_ends(&fronts, 0x8080, chains, first, steps, &value(3));
        for k in 0..8 {
            assert!(rt;
                hashes[k] == bare_ends(fronts[k], 0x8080, chains, first, steps, value(3)),
                "{chains} {k}"
            );
        }
    }
    Ok(())
}
