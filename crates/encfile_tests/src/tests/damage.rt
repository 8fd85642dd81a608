//! The file of `hello` in each damaged form, in pieces of 1 byte, of 31, and whole: cut to each length,
//! with each bit changed, and with zero bytes added.
use super::{HELLO_FILE, Outcome, outcome_of};
use encfile::HeaderFault;
use std::alloc::Global;

// Sizes of pieces; the last is more than any file here has.
const PIECES: &[usize] = &[1, 31, 300];

// What is released of the file with 100 zero bytes more, by Python's `hashlib.scrypt` and `openssl enc -d
// -aes-256-ctr`: it begins with `hello`.
const TEXT_OF_LONGER: &[u8; 105] = &[
    0x68, 0x65, 0x6c, 0x6c, 0x6f, 0x09, 0x74, 0xc4, 0x76, 0xa1, 0xca, 0xc1, 0x03, 0xd8, 0xd0, 0xa4,
    0x42, 0xf6, 0xb5, 0x46, 0x3f, 0x97, 0x08, 0xb7, 0x07, 0x59, 0x32, 0x09, 0xc5, 0xbc, 0x55, 0xe9,
    0x0f, 0xd9, 0xf6, 0xf3, 0x00, 0x2c, 0xb7, 0xfd, 0xe6, 0x9f, 0x92, 0x98, 0x98, 0x9b, 0x99, 0xa1,
    0xbc, 0x6e, 0xf3, 0xed, 0xcb, 0xe6, 0xb1, 0x0d, 0x0a, 0x23, 0x56, 0xf4, 0x36, 0x45, 0x77, 0x48,
    0xb2, 0x2e, 0xfa, 0x39, 0x7a, 0x19, 0x7f, 0x45, 0x8c, 0xfd, 0xab, 0x35, 0xea, 0xdd, 0x1c, 0xa6,
    0x80, 0xdc, 0x6c, 0x8f, 0x6e, 0xa6, 0xe5, 0x14, 0xa9, 0x0e, 0x4a, 0xc0, 0x73, 0xb4, 0x6a, 0x77,
    0x5c, 0x4c, 0x3f, 0xee, 0x25, 0x93, 0xd6, 0x2a, 0x98,
];

// The outcome of a file that is cut.
fn of_length(len: usize) -> Outcome {
    match len {
        0..=95 => Outcome::NoFront,
        96..=132 => Outcome::Damaged,
        _ => Outcome::Whole,
    }
}

// The first length to which it is cut and has not that outcome, or does not release all but the last 32 bytes of its
// text, in pieces of this size.
fn first_wrong_length(alloc: Global, size: usize) -> Option<usize> {
    for len in 0..=HELLO_FILE.len() {
        let text = &TEXT_OF_LONGER[..len.saturating_sub(128)];
        if outcome_of(alloc, &HELLO_FILE[..len], b"pw", size, 1, text) != of_length(len) {
            return Some(len);
        }
    }
    None
}

#[test]
fn file_cut_to_each_length(rt: HostRuntime) {
    for size in PIECES {
        assert_eq!(rt; first_wrong_length(rt.alloc(), *size), None);
    }
}

// The outcome where a byte is changed.
fn of_changed(place: usize) -> Outcome {
    match place {
        0..=5 => Outcome::Refused(HeaderFault::Magic),
        6 => Outcome::Refused(HeaderFault::Version),
        7..=63 => Outcome::Refused(HeaderFault::Checksum),
        64..=95 => Outcome::WrongPassphrase,
        _ => Outcome::Damaged,
    }
}

// Whether a file with these bits of a byte changed has that outcome, and releases the text with the same bits changed.
fn is_damage(alloc: Global, place: usize, bits: u8, size: usize) -> bool {
    let (mut file, mut text) = (*HELLO_FILE, *b"hello");
    if let Some(byte) = file.get_mut(place) {
        *byte ^= bits;
    }
    if let Some(byte) = text.get_mut(place.wrapping_sub(96)) {
        *byte ^= bits;
    }
    outcome_of(alloc, &file, b"pw", size, 1, &text) == of_changed(place)
}

// The first byte and its bit of which that is not so, in pieces of this size.
fn first_wrong_bit(alloc: Global, size: usize) -> Option<(usize, u8)> {
    for place in 0..HELLO_FILE.len() {
        for bits in &[1, 2, 4, 8, 16, 32, 64, 128] {
            if !is_damage(alloc, place, *bits, size) {
                return Some((place, *bits));
            }
        }
    }
    None
}

#[test]
fn file_with_each_bit_changed(rt: HostRuntime) {
    for size in PIECES {
        assert_eq!(rt; first_wrong_bit(rt.alloc(), *size), None);
    }
}

// The first count of zero bytes with which a file does not release `hello` and as many bytes more, in pieces of this
// size.
fn first_wrong_count(alloc: Global, size: usize) -> Option<usize> {
    let mut file = [0u8; 233];
    file[..133].copy_from_slice(HELLO_FILE);
    for added in 1..=100usize {
        let text = &TEXT_OF_LONGER[..5 + added];
        if outcome_of(alloc, &file[..133 + added], b"pw", size, 1, text) != Outcome::Damaged {
            return Some(added);
        }
    }
    None
}

#[test]
fn file_with_zero_bytes_added(rt: HostRuntime) {
    for size in PIECES {
        assert_eq!(rt; first_wrong_count(rt.alloc(), *size), None);
    }
}
