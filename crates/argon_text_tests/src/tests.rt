//! Texts that the reference program writes, of every type and several lengths of salt and tag. Each comes from
//! `printf password | argon2 ..`, the text by `-e` and the tag by `-r`; the words stand beside it.
ghost use Rattle.std.specs.Prelude.{◌≡◌, true, length};
ghost use Rattle.argon_text.specs.Value.{are_in_range};

mod near_misses;
mod other_programs;
mod reading;
mod reference_texts;
mod refusing;
mod verifying;
mod version_0x10;

use self::refusing::RefusingText;
use argon::Kind;
use argon_text::{Encoded, replace_tag};
use std::alloc::{AllocError, Global};

// The parts of a text, one after another.
fn joined(alloc: Global, parts: &[&[u8]]) -> Result<Vec<u8>, AllocError> {
    let mut text = Vec::new(alloc);
    for part in parts {
        text.extend_from_slice(part)?;
    }
    Ok(text)
}

// Whether a value is written after what stands in a list, and as this text.
fn is_written_as(alloc: Global, value: &Encoded, text: &[u8]) -> bool {
    let Ok(mut out) = b"before: ".to_vec(alloc) else {
        return false;
    };
    let is_written = value.write(&mut out).is_ok();
    match out.strip_prefix(b"before: ") {
        Some(written) => is_written && written == text,
        None => false,
    }
}

// The same of the value of these settings, salt and tag.
fn is_text_of(
    alloc: Global,
    kind: Kind,
    memory: u32,
    passes: u32,
    lanes: u32,
    salt: &[u8],
    tag: &[u8],
    text: &[u8],
) -> bool
    requires in_range { are_in_range 0x13 memory passes lanes (length salt.now) (length tag.now) ≡ true }
{
    match (salt.to_vec(alloc), tag.to_vec(alloc)) {
        (Ok(salt), Ok(tag)) => {
            let value = Encoded {
                kind,
                version: 0x13,
                memory,
                passes,
                lanes,
                salt,
                tag,
            };
            is_written_as(alloc, &value, text)
        }
        _ => false,
    }
}

// Whether a value of each type is written as its text.
fn are_texts(alloc: Global) -> bool {
    // somesalt -d -t 1 -k 8 -l 4
    let tag_d = [0x79, 0x3f, 0xf6, 0x94];
    let text_d = b"$argon2d$v=19$m=8,t=1,p=1$c29tZXNhbHQ$eT/2lA";
    // saltsalt9 -i -t 2 -k 16 -p 2 -l 5
    let tag_i = [0xe1, 0xfb, 0x5a, 0xe2, 0xd3];
    let text_i = b"$argon2i$v=19$m=16,t=2,p=2$c2FsdHNhbHQ5$4fta4tM";
    // 0123456789 -id -t 3 -k 64 -p 4 -l 6
    let tag_id = [0xc4, 0xf1, 0x4f, 0x7f, 0x9c, 0xa2];
    let text_id = b"$argon2id$v=19$m=64,t=3,p=4$MDEyMzQ1Njc4OQ$xPFPf5yi";
    is_text_of(alloc, Kind::D, 8, 1, 1, b"somesalt", &tag_d, text_d)
        && is_text_of(alloc, Kind::I, 16, 2, 2, b"saltsalt9", &tag_i, text_i)
        && is_text_of(alloc, Kind::Id, 64, 3, 4, b"0123456789", &tag_id, text_id)
}

#[test]
fn writes_texts(rt: HostRuntime) {
    assert!(rt; are_texts(rt.alloc()));
}

// A text, a tag, and the text with that tag.
struct PutTag {
    before: &'static str,
    tag: &'static [u8],
    after: &'static str,
}

// The text of the password `another` and the tag of `password`, somesalt -d -t 1 -k 8 and -l 4, 5, 6, and the text of that.
// A text that is too short for the tag stays as it was.
static PUT_TAGS: [PutTag; 4] = [
    PutTag {
        before: "$argon2d$v=19$m=8,t=1,p=1$c29tZXNhbHQ$/Chpog",
        tag: &[0x79, 0x3f, 0xf6, 0x94],
        after: "$argon2d$v=19$m=8,t=1,p=1$c29tZXNhbHQ$eT/2lA",
    },
    PutTag {
        before: "$argon2d$v=19$m=8,t=1,p=1$c29tZXNhbHQ$YNSrsQE",
        tag: &[0xe3, 0x23, 0xa3, 0x2a, 0x81],
        after: "$argon2d$v=19$m=8,t=1,p=1$c29tZXNhbHQ$4yOjKoE",
    },
    PutTag {
        before: "$argon2d$v=19$m=8,t=1,p=1$c29tZXNhbHQ$YHqhONFk",
        tag: &[0xa0, 0x6f, 0x77, 0xe2, 0x5f, 0x13],
        after: "$argon2d$v=19$m=8,t=1,p=1$c29tZXNhbHQ$oG934l8T",
    },
    PutTag {
        before: "$argo",
        tag: &[0x79, 0x3f, 0xf6, 0x94],
        after: "$argo",
    },
];

// Whether the tag makes the one text the other.
fn is_put(alloc: Global, row: &PutTag) -> bool {
    match row.before.as_bytes().to_vec(alloc) {
        Ok(mut text) => {
            replace_tag(&mut text, row.tag);
            text.as_slice() == row.after.as_bytes()
        }
        Err(_) => false,
    }
}

// Whether each tag makes its text.
fn are_put(alloc: Global) -> bool {
    for row in &PUT_TAGS {
        if !is_put(alloc, row) {
            return false;
        }
    }
    true
}

#[test]
fn puts_a_tag_into_a_text(rt: HostRuntime) {
    assert!(rt; are_put(rt.alloc()));
}

// Whether of the 21 requests for room this one is refused, and what stood in the list stays as it
// was; all are granted where the 22nd would be. They are two for the symbols of salt and tag, two
// for the name of the type, three for each of the four numbers, two for each of the two parts
// after them, and one for the list.
fn is_all_or_nothing_at(alloc: Global, value: &Encoded, refused: u32) -> bool {
    let Ok(mut out) = b"before: ".to_vec(alloc) else {
        return false;
    };
    let mut source = RefusingText {
        alloc,
        asked: 0,
        refused,
    };
    let is_written = value.write_with_memory(&mut source, &mut out).is_ok();
    let expected = if refused == 22 {
        b"before: $argon2d$v=19$m=8,t=1,p=1$c29tZXNhbHQ$eT/2lA".as_slice()
    } else {
        b"before: "
    };
    is_written == (refused == 22) && source.asked == refused.min(21) && out.as_slice() == expected
}

// Whether that is so of each.
fn is_all_or_nothing(alloc: Global, value: &Encoded) -> bool {
    for refused in 1..=22u32 {
        if !is_all_or_nothing_at(alloc, value, refused) {
            return false;
        }
    }
    true
}

// The same of the value of a text.
fn is_text_all_or_nothing(alloc: Global) -> bool {
    match Encoded::read(alloc, b"$argon2d$v=19$m=8,t=1,p=1$c29tZXNhbHQ$eT/2lA") {
        Ok(value) => is_all_or_nothing(alloc, &value),
        Err(_) => false,
    }
}

#[test]
fn writes_all_or_nothing(rt: HostRuntime) {
    assert!(rt; is_text_all_or_nothing(rt.alloc()));
}
