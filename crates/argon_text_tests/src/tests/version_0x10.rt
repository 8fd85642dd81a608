//! Texts of version 0x10, with the version and without it.
use super::joined;
use super::verifying::{answered, takes};
use std::alloc::Global;

/// What `printf password | argon2 somesalt -t 2 -m 8 -v 10 -e` of the reference program writes, as it
/// was written before texts had versions.
pub const SHORT: &[u8] =
    b"$argon2i$m=256,t=2,p=1$c29tZXNhbHQ$/U3YPXYsSb3q9XxHvc0MLxur+GP960kN9j7emXX8zwY";

/// A text of version 0x10 in two parts, between which the version may stand, and its password.
pub struct VersionlessText {
    pub name: &'static str,
    pub rest: &'static str,
    pub password: &'static str,
}

// Texts of the reference program, as Debian packs it (argon2 0~20171227); the words are beside.
static ROWS: [VersionlessText; 6] = [
    // somesalt -t 2 -m 8 -v 10 -e
    VersionlessText {
        name: "$argon2i",
        rest: "$m=256,t=2,p=1$c29tZXNhbHQ$/U3YPXYsSb3q9XxHvc0MLxur+GP960kN9j7emXX8zwY",
        password: "password",
    },
    // somesalt -d -t 1 -k 8 -l 4 -v 10 -e
    VersionlessText {
        name: "$argon2d",
        rest: "$m=8,t=1,p=1$c29tZXNhbHQ$lnZLpg",
        password: "password",
    },
    // saltsalt9 -i -t 2 -k 16 -p 2 -l 5 -v 10 -e
    VersionlessText {
        name: "$argon2i",
        rest: "$m=16,t=2,p=2$c2FsdHNhbHQ5$ScXHvOA",
        password: "password",
    },
    // 0123456789 -id -t 3 -k 64 -p 4 -l 6 -v 10 -e
    VersionlessText {
        name: "$argon2id",
        rest: "$m=64,t=3,p=4$MDEyMzQ1Njc4OQ$l0s3pn7A",
        password: "password",
    },
    // somesalt -i -t 3 -k 37 -p 3 -l 16 -v 10 -e
    VersionlessText {
        name: "$argon2i",
        rest: "$m=37,t=3,p=3$c29tZXNhbHQ$3YWS19VWaem1d5Y3iB7IJA",
        password: "password",
    },
    // somesalt -d -t 2 -k 40 -v 10 -e
    VersionlessText {
        name: "$argon2d",
        rest: "$m=40,t=2,p=1$c29tZXNhbHQ$/pFMcWoVk6sy4PzdA9MUM8XoaRr5a93xkqdxMenijTY",
        password: "password",
    },
];

// Whether both texts of a row are read as one value, which is written with its version and fits its password alone.
fn are_one(alloc: Global, row: &VersionlessText) -> bool {
    let (name, rest) = (row.name.as_bytes(), row.rest.as_bytes());
    let short = joined(alloc, &[name, rest]);
    let whole = joined(alloc, &[name, b"$v=16", rest]);
    match (short, whole) {
        (Ok(short), Ok(whole)) => {
            takes(alloc, &short, &whole, row.password) && takes(alloc, &whole, &whole, row.password)
        }
        _ => false,
    }
}

/// Of how many rows, from the first on, that is so.
pub fn right_pairs(alloc: Global, rows: &[VersionlessText]) -> u32 {
    let mut right = 0u32;
    for row in rows {
        if !are_one(alloc, row) {
            return right;
        }
        right = right.wrapping_add(1);
    }
    right
}

#[test]
fn reads_both_texts_and_writes_one(rt: HostRuntime) {
    assert!(rt; right_pairs(rt.alloc(), &ROWS) == 6);
}

/// The known text, which lost its version.
pub const LOST: &[u8] =
    b"$argon2i$m=256,t=2,p=1$c29tZXNhbHQ$iekCn0Y3spW+sCcFanM2xBT63UP2sghkUoHLIUpWRS8";

// What its value is written as.
const LOST_WRITTEN: &[u8] =
    b"$argon2i$v=16$m=256,t=2,p=1$c29tZXNhbHQ$iekCn0Y3spW+sCcFanM2xBT63UP2sghkUoHLIUpWRS8";

// It is a text of version 0x10, and its tag is another.
#[test]
fn text_that_lost_its_version(rt: HostRuntime) {
    assert!(rt; answered(rt.alloc(), LOST, LOST_WRITTEN, b"password", 256, 526) == 0);
}
