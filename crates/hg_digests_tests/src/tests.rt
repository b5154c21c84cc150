//! Messages of many lengths, side by side. The digests are compared with those of the toolchain's `sha1`, which takes
//! one message at a time.

use hg_digests::{Place, digests};
use sha1::Sha1;
use std::alloc::AllocError;
use std::test::Fail;

/// SHA-1 of forty zeros and `abc`.
const KNOWN: [u8; 20] = [
    0xf6, 0xd8, 0x64, 0x03, 0x9d, 0x10, 0xa8, 0x93, 0x4d, 0x0d, 0x58, 0x1d, 0x34, 0x27, 0x80, 0x29,
    0x8a, 0xa9, 0xfb, 0x28,
];

/// The next number of a series (Marsaglia's xorshift).
fn next(seed: u64) -> u64 {
    let seed = seed ^ (seed << 13);
    let seed = seed ^ (seed >> 7);
    seed ^ (seed << 17)
}

/// So many bytes of a series.
fn bytes(rt: &HostRuntime, count: usize) -> Result<Vec<u8>, AllocError> {
    let mut bytes = Vec::new(rt.alloc());
    let mut seed = 88_172_645_463_325_252;
    for _ in 0..count {
        seed = next(seed);
        bytes.push((seed % 256) as u8)?;
    }
    Ok(bytes)
}

/// The digest of a message, by itself.
fn digest(bytes: &[u8], place: &Place) -> Option<[u8; 20]> {
    let (first, second) = (place.first as usize, place.second as usize);
    let mut hasher = Sha1::new();
    hasher.update(bytes.get(first..first + 20)?);
    hasher.update(bytes.get(second..second + 20)?);
    hasher.update(bytes.get(place.from as usize..place.to as usize)?);
    Some(hasher.finalize())
}

/// Whether the digests of the messages are those that they have by themselves.
fn agree(rt: &HostRuntime, bytes: &[u8], places: &[Place]) -> Result<bool, AllocError> {
    for place in places {
        if !place.is_within(bytes.len()) {
            return Ok(false);
        }
    }
    let all = digests(rt.alloc(), bytes, places)?;
    let mut agree = all.len() == places.len();
    for (place, found) in places.iter().zip(all.iter()) {
        agree = agree && digest(bytes, place) == Some(*found);
    }
    Ok(agree)
}

// 0 to 40 messages with texts of 0 to 300 bytes anywhere, 200 times. Result: the digests of `sha1`.
#[test]
fn random_messages(rt: HostRuntime) -> Result<(), Fail> {
    let bytes = bytes(&rt, 4096)?;
    let mut seed = 1;
    for round in 0..200 {
        let mut places = Vec::new(rt.alloc());
        for _ in 0..round % 41 {
            seed = next(seed);
            let from = (seed >> 8) % 3700;
            places.push(Place {
                first: ((seed >> 24) % 4000) as u32,
                second: ((seed >> 40) % 4000) as u32,
                from: from as u32,
                to: (from + (seed >> 52) % 301) as u32,
            })?;
        }
        assert!(rt; agree(&rt, &bytes, &places)?);
    }
    Ok(())
}

// Texts of each length from 0 to 300, and those with each of four lengths about which a block ends, in each of the four
// lanes: 14, 15, 16, 23, 24, 25, 78, 79, 80, 87, 88. Result: the digests of `sha1`.
#[test]
fn every_length(rt: HostRuntime) -> Result<(), Fail> {
    let bytes = bytes(&rt, 1024)?;
    let mut places = Vec::new(rt.alloc());
    for size in 0..301 {
        places.push(Place {
            first: 5,
            second: 60,
            from: 100,
            to: 100 + size,
        })?;
    }
    assert!(rt; agree(&rt, &bytes, &places)?);
    for size in [14, 15, 16, 23, 24, 25, 78, 79, 80, 87, 88] {
        for before in 0..4 {
            let mut places = Vec::new(rt.alloc());
            for number in 0..=before + 4 {
                places.push(Place {
                    first: number,
                    second: 20,
                    from: 40,
                    to: 40 + if number == before { size } else { 100 * number },
                })?;
            }
            assert!(rt; agree(&rt, &bytes, &places)?);
        }
    }
    Ok(())
}

// `abc` after forty zeros. Result: the digest of `sha1sum`.
#[test]
fn a_known_digest(rt: HostRuntime) -> Result<(), Fail> {
    let mut bytes = [0; 43];
    bytes[40..].copy_from_slice(b"abc");
    let place = Place {
        first: 0,
        second: 20,
        from: 40,
        to: 43,
    };
    let all = digests(rt.alloc(), &bytes, &[place])?;
    let wanted = KNOWN;
    assert!(rt; all.as_slice() == [wanted].as_slice());
    Ok(())
}
