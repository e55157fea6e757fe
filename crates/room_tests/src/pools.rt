use block_pool::*;
use std::test::Fail;

// SHA-256 of "abc", from the examples of FIPS 180-4.
const ABC: [u8; 32] = [
    0xba, 0x78, 0x16, 0xbf, 0x8f, 0x01, 0xcf, 0xea, 0x41, 0x41, 0x40, 0xde, 0x5d, 0xae, 0x22, 0x23,
    0xb0, 0x03, 0x61, 0xa3, 0x96, 0x17, 0x7a, 0x9c, 0xb4, 0x10, 0xff, 0x61, 0xf2, 0x00, 0x15, 0xad,
];

// SHA-256 of a million times "a", from the same examples.
const MILLION: [u8; 32] = [
    0xcd, 0xc7, 0x6e, 0x5c, 0x99, 0x14, 0xfb, 0x92, 0x81, 0xa1, 0xc7, 0xe2, 0x84, 0xd7, 0x3e, 0x67,
    0xf1, 0x80, 0x9a, 0x48, 0xa4, 0x97, 0x20, 0x0e, 0x04, 0x6d, 0x39, 0xcc, 0xc7, 0x11, 0x2c, 0xd0,
];

#[test]
fn a_payload_is_sealed_and_its_blocks_come_back(rt: HostRuntime) -> Result<(), Fail> {
    let mut pool = Pool::new(rt.alloc(), 2)?;
    let mut blocks = pool.take(2)?;
    assert_eq!(rt; blocks.count(), 2);
    blocks.fill(0, b"abc");
    match blocks.seal(3, &ABC) {
        Ok(payload) => {
            let (head, known) = payload.head();
            assert_eq!(rt; known, 3);
            assert!(rt; head.starts_with(b"abc"));
            assert_eq!(rt; payload.len(), 3);
            assert!(rt; payload.digest() == ABC);
            pool.give(payload.into_blocks());
        }
        Err(bad) => {
            let BadBlocks { found: _, blocks } = bad;
            pool.give(blocks);
            assert!(rt; false, "the digest of abc");
        }
    }
    let again = pool.take(2)?;
    pool.give(again);
    Ok(())
}

#[test]
fn a_wrong_digest_hands_the_blocks_back(rt: HostRuntime) -> Result<(), Fail> {
    let mut pool = Pool::new(rt.alloc(), 1)?;
    let mut blocks = pool.take(1)?;
    blocks.fill(0, b"abc");
    match blocks.seal(3, &MILLION) {
        Ok(payload) => {
            pool.give(payload.into_blocks());
            assert!(rt; false, "abc has another digest");
        }
        Err(bad) => {
            let found = bad.found;
            let BadBlocks { found: _, blocks } = bad;
            assert!(rt; found == ABC);
            assert_eq!(rt; blocks.count(), 1);
            pool.give(blocks);
        }
    }
    Ok(())
}

#[test]
fn more_than_lies_in_the_pool_is_refused(rt: HostRuntime) -> Result<(), Fail> {
    let mut pool = Pool::new(rt.alloc(), 3)?;
    let out = pool.take(2)?;
    match pool.take(2) {
        Ok(more) => {
            pool.give(more);
            assert!(rt; false, "two of one block");
        }
        Err(refused) => {
            assert_eq!(rt; refused, NoRoom { need: 2, free: 1 });
        }
    }
    pool.give(out);
    let text = NoRoom { need: 2, free: 1 }.to_string(rt.alloc())?;
    assert_eq!(rt; text.as_str(), "2 blocks are needed, and 1 are free");
    Ok(())
}

// A piece that begins in one block and ends in the third, written twice, once backwards.
#[test]
fn a_piece_may_lie_across_blocks(rt: HostRuntime) -> Result<(), Fail> {
    let mut pool = Pool::new(rt.alloc(), 245)?;
    let mut blocks = pool.take(245)?;
    for k in 0..100u32 {
        blocks.fill(10_000 * (99 - k), &[b'a'; 10_000]);
    }
    match blocks.seal(1_000_000, &MILLION) {
        Ok(payload) => pool.give(payload.into_blocks()),
        Err(BadBlocks { found: _, blocks }) => {
            pool.give(blocks);
            assert!(rt; false, "a million times a");
        }
    }
    Ok(())
}

// Each walk and each drop is a loop, so the largest pool fits a test's stack.
#[test]
fn the_largest_pool_is_made_filled_and_dropped(rt: HostRuntime) -> Result<(), Fail> {
    let mut pool = Pool::new(rt.alloc(), POOL_BLOCKS)?;
    let mut blocks = pool.take(POOL_BLOCKS)?;
    for k in 0..POOL_BLOCKS {
        blocks.fill(4096 * k, &[0; BLOCK_BYTES]);
    }
    pool.give(blocks);
    Ok(())
}

// What waits behind a lock goes from thread to thread.
fn crosses_threads<T: Send>() {}

#[test]
fn pools_and_blocks_cross_threads() {
    crosses_threads::<Pool>();
    crosses_threads::<Blocks>();
    crosses_threads::<Payload>();
}
