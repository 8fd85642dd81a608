//! Passwords of lengths that `Params::with_any_password_length` takes and `Params::new` does not.
use super::rows::right_rows;
use std::alloc::Global;

// The length of a password whose bytes are all `p`, and a row of its tag with the salt `somesalt`,
// in one pass over 8 KiB in one lane, by Debian's libargon2 (0~20171227) and by the `cryptography` module of Python (48.0.0).
static TAGS: [(usize, &str); 9] = [
    (
        0,
        "id 1 8 1 65eeedf51f4006be43eb26d1214182a97d5087767e3487bfbc849dd328145651",
    ),
    (
        1,
        "id 1 8 1 512a8b1202a5b26e1a9b540b4b5214d72ffb9f561b653b0e7163c2514944600a",
    ),
    (
        127,
        "id 1 8 1 5fb5037e0100d74f76f00fbc80e5d8c8476abbc59731f753ec1650fd4753b05e",
    ),
    (
        128,
        "id 1 8 1 953e71e79a87901ee8d16403655349ddb4a1d41aa4c78a7df627bf4820bcce9c",
    ),
    (
        200,
        "id 1 8 1 ded6cd46f57bb192a98e47f6503eadf1ee961c890673db8865dd26b79e802725",
    ),
    (
        1_000_000,
        "id 1 8 1 b422046702f1427a082ad54a4757b20a5af571fe3b11d8ed51d03bd6c12861da",
    ),
    (
        200,
        "d 1 8 1 03fc0fa2964b6a4e9a5374482aec976e1dc8b6e323e12d94a4c44a2c7e0728fd",
    ),
    (
        0,
        "i 1 8 1 0d927fb44ea7602633b15ed2f53ed7ce245d9ba9e5aef67e5e7612ea75426de1",
    ),
    (
        129,
        "i 1 8 1 7b29f2571ce28458f16796d6c5bdd2e1129281d05df91cb4ee72683c83cb597e",
    ),
];

// How many rows have the tag of a password of so many bytes, and 0 where memory is refused.
fn right_rows_of_length(alloc: Global, len: usize, rows: &str) -> u32 {
    match vec![in alloc; b'p'; len] {
        Ok(password) => right_rows(alloc, 0x13, &password, b"somesalt", rows),
        Err(_) => 0,
    }
}

// How many rows of the table have their tag.
fn right_lengths(alloc: Global) -> u32 {
    let mut right = 0u32;
    for (len, row) in &TAGS {
        right = right.wrapping_add(right_rows_of_length(alloc, *len, row));
    }
    right
}

#[test]
fn tags_of_any_password(rt: HostRuntime) {
    assert!(rt; right_lengths(rt.alloc()) == 9);
}
