//! Texts of the reference program of Argon2, as Debian packs it (argon2 0~20171227): what
//!     printf %s PASSWORD | argon2 SALT -KIND -t PASSES -k MEMORY -p LANES -l LENGTH -v 13 -e
//! prints, without its line feed, LENGTH being the tag's.
use argon::Kind;
use argon_text::Settings;

/// The text of row 1 of docs/EXAMPLES.md.
pub const KNOWN: &[u8] =
    b"$argon2i$v=19$m=256,t=2,p=1$c29tZXNhbHQ$iekCn0Y3spW+sCcFanM2xBT63UP2sghkUoHLIUpWRS8";

/// One run of the reference program.
pub struct ReferenceText {
    pub text: &'static str,
    pub settings: Settings,
    pub salt: &'static str,
    pub password: &'static str,
}

pub static ROWS: [ReferenceText; 6] = [
    ReferenceText {
        text: "$argon2i$v=19$m=256,t=2,p=1$c29tZXNhbHQ$iekCn0Y3spW+sCcFanM2xBT63UP2sghkUoHLIUpWRS8",
        settings: Settings {
            kind: Kind::I,
            version: 0x13,
            memory: 256,
            passes: 2,
            lanes: 1,
            salt_len: 8,
            tag_len: 32,
        },
        salt: "somesalt",
        password: "password",
    },
    ReferenceText {
        text: "$argon2d$v=19$m=8,t=1,p=1$c29tZXNhbHQ$eT/2lA",
        settings: Settings {
            kind: Kind::D,
            version: 0x13,
            memory: 8,
            passes: 1,
            lanes: 1,
            salt_len: 8,
            tag_len: 4,
        },
        salt: "somesalt",
        password: "password",
    },
    ReferenceText {
        text: "$argon2i$v=19$m=16,t=2,p=2$c2FsdHNhbHQ5$4fta4tM",
        settings: Settings {
            kind: Kind::I,
            version: 0x13,
            memory: 16,
            passes: 2,
            lanes: 2,
            salt_len: 9,
            tag_len: 5,
        },
        salt: "saltsalt9",
        password: "password",
    },
    ReferenceText {
        text: "$argon2id$v=19$m=64,t=3,p=4$MDEyMzQ1Njc4OQ$pRRvUz+o3rR+reVXt2sVAA",
        settings: Settings {
            kind: Kind::Id,
            version: 0x13,
            memory: 64,
            passes: 3,
            lanes: 4,
            salt_len: 10,
            tag_len: 16,
        },
        salt: "0123456789",
        password: "password",
    },
    ReferenceText {
        text: "$argon2d$v=19$m=100,t=3,p=3$ZGlmZnNhbHQ$p9CaIsC4ey5PY3I6dl6Tjc9zRJqVlyT2bEIJt0B/KfzQpn4Meu2ltVZgQBP+3b+1mhK10AQ0qQuQ57Tlp58q7A",
        settings: Settings {
            kind: Kind::D,
            version: 0x13,
            memory: 100,
            passes: 3,
            lanes: 3,
            salt_len: 8,
            tag_len: 64,
        },
        salt: "diffsalt",
        password: "pass,word=$",
    },
    ReferenceText {
        text: "$argon2i$v=19$m=8,t=1,p=1$bG9uZ2Vyc2FsdHdpdGgyNGJ5dGVzLi4u$7MMZZBCsjBH7WvTyRdOWu0xwcRixCUce",
        settings: Settings {
            kind: Kind::I,
            version: 0x13,
            memory: 8,
            passes: 1,
            lanes: 1,
            salt_len: 24,
            tag_len: 24,
        },
        salt: "longersaltwith24bytes...",
        password: "p",
    },
];
