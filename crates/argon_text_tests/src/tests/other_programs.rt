//! Texts that other programs made of the reference library of Argon2, with salts, lengths and passwords of their own.
use super::verifying::takes;
use super::version_0x10::{VersionlessText, right_pairs};
use std::alloc::Global;

// Texts and passwords of python3-argon2 21.1.0:
// low_level.hash_secret(password, salt, t, m, p, length, type, version)
static WHOLE: [(&str, &str); 12] = [
    (
        "$argon2i$v=16$m=32,t=1,p=2$c2FsdHlzYWx0$B4xgENicBeE",
        "password",
    ),
    (
        "$argon2i$v=16$m=64,t=3,p=4$MDEyMzQ1Njc4OWFiY2RlZg$015SBP9WLUtfT5vMh8bx9w",
        "pass word",
    ),
    (
        "$argon2i$v=19$m=32,t=1,p=2$c2FsdHlzYWx0$HcstO9j67oA",
        "password",
    ),
    (
        "$argon2i$v=19$m=64,t=3,p=4$MDEyMzQ1Njc4OWFiY2RlZg$TnyjeaWvjpBQJUa5wysFqw",
        "pass word",
    ),
    (
        "$argon2d$v=16$m=32,t=1,p=2$c2FsdHlzYWx0$7p7mGGUDUzk",
        "password",
    ),
    (
        "$argon2d$v=16$m=64,t=3,p=4$MDEyMzQ1Njc4OWFiY2RlZg$zTTLzSY+tqMVV0+9qaHaXg",
        "pass word",
    ),
    (
        "$argon2d$v=19$m=32,t=1,p=2$c2FsdHlzYWx0$Jca3Ejg1B0c",
        "password",
    ),
    (
        "$argon2d$v=19$m=64,t=3,p=4$MDEyMzQ1Njc4OWFiY2RlZg$7csid8B9RrIdFbzOwfRCDQ",
        "pass word",
    ),
    (
        "$argon2id$v=16$m=32,t=1,p=2$c2FsdHlzYWx0$gehROf718xM",
        "password",
    ),
    (
        "$argon2id$v=16$m=64,t=3,p=4$MDEyMzQ1Njc4OWFiY2RlZg$fF8PKYs3iRmgR7dzHcQdbg",
        "pass word",
    ),
    (
        "$argon2id$v=19$m=32,t=1,p=2$c2FsdHlzYWx0$8zI7x9PbVbU",
        "password",
    ),
    (
        "$argon2id$v=19$m=64,t=3,p=4$MDEyMzQ1Njc4OWFiY2RlZg$gfmOe72Zi6ujj5wyl0cDqg",
        "pass word",
    ),
];

// Texts of passlib 1.7.4, which writes no version of 0x10: hash.argon2.genhash(password, text with another tag)
static VERSIONLESS: [VersionlessText; 9] = [
    VersionlessText {
        name: "$argon2i",
        rest: "$m=48,t=2,p=3$cGFzc2xpYi1zYWx0$ESNWSC1hulX5QgYXt+N/pOBacFE",
        password: "password",
    },
    VersionlessText {
        name: "$argon2i",
        rest: "$m=8,t=1,p=1$b3RoZXJsb25nc2FsdDEyMw$xS5XAWvNPqhvqTWL95Tp4qK+JyiaqqREsJZG5bKJVPg",
        password: "geheim",
    },
    VersionlessText {
        name: "$argon2i",
        rest: "$m=40,t=4,p=2$c29tZXNhbHQ$IWltbsJ6D7dzvBSpavaaKg",
        password: "pass word",
    },
    VersionlessText {
        name: "$argon2d",
        rest: "$m=48,t=2,p=3$cGFzc2xpYi1zYWx0$wnIAQ4Akmf5NdPiVrNSgjbP2DV8",
        password: "password",
    },
    VersionlessText {
        name: "$argon2d",
        rest: "$m=8,t=1,p=1$b3RoZXJsb25nc2FsdDEyMw$HkLIiKpUyNFpRrtiPS/FRYlyX9gh/PvWGiv6xA1fdQU",
        password: "geheim",
    },
    VersionlessText {
        name: "$argon2d",
        rest: "$m=40,t=4,p=2$c29tZXNhbHQ$dZO341Hs08ZHF/W+3Z8PTA",
        password: "pass word",
    },
    VersionlessText {
        name: "$argon2id",
        rest: "$m=48,t=2,p=3$cGFzc2xpYi1zYWx0$DtKM1t6Mhx95kWBNlW5mWoBV91U",
        password: "password",
    },
    VersionlessText {
        name: "$argon2id",
        rest: "$m=8,t=1,p=1$b3RoZXJsb25nc2FsdDEyMw$pPf232/RAq/bUHBurK6Rop9KAiqFe/bF/d2zeWuiCOM",
        password: "geheim",
    },
    VersionlessText {
        name: "$argon2id",
        rest: "$m=40,t=4,p=2$c29tZXNhbHQ$T6sxX+i5Oawd3BZkUs65SQ",
        password: "pass word",
    },
];

// How many whole texts, from the first on, are written again as they were and take their password alone.
fn right_texts(alloc: Global) -> u32 {
    let mut right = 0u32;
    for (text, password) in &WHOLE {
        if !takes(alloc, text.as_bytes(), text.as_bytes(), password) {
            return right;
        }
        right = right.wrapping_add(1);
    }
    right
}

#[test]
fn passwords_of_other_programs(rt: HostRuntime) {
    assert!(rt; right_texts(rt.alloc()) == 12 && right_pairs(rt.alloc(), &VERSIONLESS) == 9);
}
