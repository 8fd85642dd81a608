//! The ends of each range of the parameters, and the order of their faults.
use argon::{Kind, ParamFault, Params};

// Passes, lanes and memory, the lengths of tag, salt and password, and the faults of `Params::new` and of
// `Params::with_any_password_length`.
static RANGES: [([u32; 3], [usize; 3], Option<ParamFault>, Option<ParamFault>); 41] = [
    ([1, 1, 8], [4, 8, 1], None, None),
    (
        [0xFFFF_FFFF, 0xFF_FFFF, 0xFFFF_FFFF],
        [4096, 255, 127],
        None,
        None,
    ),
    // one inside each end
    ([2, 1, 8], [4, 8, 1], None, None),
    ([0xFFFF_FFFE, 1, 8], [4, 8, 1], None, None),
    ([1, 0xFF_FFFE, 0xFFFF_FFFF], [4, 8, 1], None, None),
    ([1, 1, 9], [4, 8, 1], None, None),
    ([1, 1, 0xFFFF_FFFE], [4, 8, 1], None, None),
    ([1, 2, 17], [4, 8, 1], None, None),
    ([1, 0xFF_FFFF, 134_217_721], [4, 8, 1], None, None),
    ([1, 1, 8], [5, 8, 1], None, None),
    ([1, 1, 8], [4095, 8, 1], None, None),
    ([1, 1, 8], [4, 9, 1], None, None),
    ([1, 1, 8], [4, 254, 1], None, None),
    ([1, 1, 8], [4, 8, 2], None, None),
    ([1, 1, 8], [4, 8, 126], None, None),
    ([2, 2, 17], [5, 9, 2], None, None),
    (
        [0, 1, 8],
        [4, 8, 1],
        Some(ParamFault::Passes),
        Some(ParamFault::Passes),
    ),
    (
        [1, 0, 8],
        [4, 8, 1],
        Some(ParamFault::Lanes),
        Some(ParamFault::Lanes),
    ),
    (
        [1, 0x100_0000, 0xFFFF_FFFF],
        [4, 8, 1],
        Some(ParamFault::Lanes),
        Some(ParamFault::Lanes),
    ),
    (
        [1, 1, 7],
        [4, 8, 1],
        Some(ParamFault::Memory),
        Some(ParamFault::Memory),
    ),
    (
        [1, 2, 15],
        [4, 8, 1],
        Some(ParamFault::Memory),
        Some(ParamFault::Memory),
    ),
    ([1, 2, 16], [4, 8, 1], None, None),
    (
        [1, 0xFF_FFFF, 134_217_719],
        [4, 8, 1],
        Some(ParamFault::Memory),
        Some(ParamFault::Memory),
    ),
    ([1, 0xFF_FFFF, 134_217_720], [4, 8, 1], None, None),
    (
        [1, 1, 8],
        [3, 8, 1],
        Some(ParamFault::TagLength),
        Some(ParamFault::TagLength),
    ),
    (
        [1, 1, 8],
        [4097, 8, 1],
        Some(ParamFault::TagLength),
        Some(ParamFault::TagLength),
    ),
    (
        [1, 1, 8],
        [4, 7, 1],
        Some(ParamFault::SaltLength),
        Some(ParamFault::SaltLength),
    ),
    (
        [1, 1, 8],
        [4, 256, 1],
        Some(ParamFault::SaltLength),
        Some(ParamFault::SaltLength),
    ),
    ([1, 1, 8], [4, 8, 0], Some(ParamFault::PasswordLength), None),
    (
        [1, 1, 8],
        [4, 8, 128],
        Some(ParamFault::PasswordLength),
        None,
    ),
    (
        [0, 0, 0],
        [0, 0, 0],
        Some(ParamFault::Passes),
        Some(ParamFault::Passes),
    ),
    (
        [1, 0, 0],
        [0, 0, 0],
        Some(ParamFault::Lanes),
        Some(ParamFault::Lanes),
    ),
    (
        [1, 1, 0],
        [0, 0, 0],
        Some(ParamFault::Memory),
        Some(ParamFault::Memory),
    ),
    (
        [1, 1, 8],
        [0, 0, 0],
        Some(ParamFault::TagLength),
        Some(ParamFault::TagLength),
    ),
    // passwords of other lengths
    ([1, 1, 8], [4, 8, 0], Some(ParamFault::PasswordLength), None),
    (
        [1, 1, 8],
        [4, 8, 129],
        Some(ParamFault::PasswordLength),
        None,
    ),
    (
        [1, 1, 8],
        [4, 8, 0xFFFF_FFFE],
        Some(ParamFault::PasswordLength),
        None,
    ),
    (
        [1, 1, 8],
        [4, 8, 0xFFFF_FFFF],
        Some(ParamFault::PasswordLength),
        None,
    ),
    (
        [1, 1, 8],
        [4, 8, 0x1_0000_0000],
        Some(ParamFault::PasswordLength),
        Some(ParamFault::PasswordLength),
    ),
    (
        [1, 1, 8],
        [4, 8, usize::MAX],
        Some(ParamFault::PasswordLength),
        Some(ParamFault::PasswordLength),
    ),
    (
        [1, 1, 8],
        [4, 7, usize::MAX],
        Some(ParamFault::SaltLength),
        Some(ParamFault::SaltLength),
    ),
];

// The fault of parameters, with any password or not, if they have one.
fn fault_of(costs: [u32; 3], lengths: [usize; 3], is_any: bool) -> Option<ParamFault> {
    let [passes, lanes, memory_kib] = costs;
    let [tag_len, salt_len, password_len] = lengths;
    let params = if is_any {
        Params::with_any_password_length(
            Kind::Id,
            0x13,
            passes,
            lanes,
            memory_kib,
            tag_len,
            salt_len,
            password_len,
        )
    } else {
        Params::new(
            Kind::Id,
            0x13,
            passes,
            lanes,
            memory_kib,
            tag_len,
            salt_len,
            password_len,
        )
    };
    params.err()
}

// How many rows, from the first on, have their fault, with any password or not.
fn right_ranges(is_any: bool) -> u32 {
    let mut right = 0u32;
    for (costs, lengths, fault, fault_of_any) in &RANGES {
        let expected = if is_any { *fault_of_any } else { *fault };
        if fault_of(*costs, *lengths, is_any) != expected {
            return right;
        }
        right = right.wrapping_add(1);
    }
    right
}

#[test]
fn ends_of_each_range(rt: HostRuntime) {
    assert!(rt; right_ranges(false) == 41);
}

#[test]
fn ends_of_any_password(rt: HostRuntime) {
    assert!(rt; right_ranges(true) == 41);
}
