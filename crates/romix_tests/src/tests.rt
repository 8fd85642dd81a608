//! Outside vectors: the standard's own, and values that Python 3 gave; and the example at the head of the
//! crate. The files below have the limits of costs and sparse tables, and each growth refused in turn.

ghost use Rattle.std.specs.Prelude.{◌≡◌, ◌≤◌, ◌-◌, ◌*◌, ◌^◌, length, IfSome};
ghost use Rattle.romix.specs.Costs.{cores};
ghost use Rattle.romix.specs.SparseCosts.{SparseFitsMemory, cores_bound};

mod costs;
mod growth;
mod plain;

use costs::has_answer;
use romix::romix::romix;
use romix::{CostFault, Costs, Limits, Sparse, Ticks, Workspace, block_mix, salsa8};
use std::alloc::Global;

// RFC 7914, section 8, as words.
const CORE_INPUT: [u32; 16] = [
    0x219a877e, 0x86c93e4f, 0xe640a97c, 0x268f7141, 0x5b55eeba, 0xb5c1618c, 0x1146f80d, 0x1d3bcd6d,
    0x19f324ee, 0x853d9bdf, 0x4b1e1214, 0x32aac55a, 0x291d0276, 0x2948c709, 0x8dc6ebed, 0x5ec2b8b8,
];

const CORE_OUTPUT: [u32; 16] = [
    0x9c851fa4, 0x99cc0866, 0xcbca813b, 0x05ef0c02, 0x81214b04, 0x7d33fda2, 0x631c7bfd, 0x292f6896,
    0x683139b4, 0xbce6c9e3, 0xb7c56bfe, 0xba966da0, 0x10cc24e4, 0x5c74912c, 0x3d67ad24, 0x818f61c7,
];

// RFC 7914, sections 9 and 10, as words: the input of both, and what BlockMix and ROMix make of it.
const ROW: [u32; 32] = [
    0x650bcef7, 0xa4722d3d, 0xabf58c10, 0xddff12e9, 0xdb167677, 0x0ea727bb, 0xaef30482, 0xad6f0f2d,
    0x488ff689, 0x7be8d111, 0x40d73bcc, 0x29fd9f0a, 0x84014f09, 0xf3749563, 0x31a1e59a, 0xd7bc1752,
    0x44914989, 0x22bb1372, 0x4db5256c, 0xfb7063a8, 0x804398cd, 0xbb664637, 0xbfb5fc8f, 0xb054c240,
    0x517cd267, 0xfed54ace, 0x0bc929d8, 0x1b575a50, 0xad1c4d7f, 0xda3c526a, 0xbc670e77, 0x897eafea,
];

const ROW_BLOCK_MIXED: [u32; 32] = [
    0x9c851fa4, 0x99cc0866, 0xcbca813b, 0x05ef0c02, 0x81214b04, 0x7d33fda2, 0x631c7bfd, 0x292f6896,
    0x683139b4, 0xbce6c9e3, 0xb7c56bfe, 0xba966da0, 0x10cc24e4, 0x5c74912c, 0x3d67ad24, 0x818f61c7,
    0x75c9ed20, 0xa8813832, 0x4cf64005, 0x3ccd2d16, 0xfe7c0721, 0xe25f8d5f, 0x8f16a4b1, 0xb7783695,
    0x803d3b7d, 0xabe4603b, 0xe5960992, 0xb6534d9b, 0x58222a5d, 0xf5edd577, 0xf1b92c84, 0x25e4ef4e,
];

const ROW_ROMIXED: [u32; 32] = [
    0x93c1cc79, 0xcaeb9d62, 0x700b7f04, 0xb6f64b60, 0x4adde32c, 0x55e32696, 0x9861fcfa, 0x462beae6,
    0x671384d5, 0x29b0993b, 0x57c365d6, 0x26b41f60, 0xbbf4b2a0, 0x9fee00a2, 0x9bd1430a, 0x719c1a57,
    0xe64211ef, 0x6f265a5d, 0x2c83cadd, 0x7caa9fe5, 0xf19c0bac, 0xcaff2bbe, 0xee010d30, 0xc4197638,
    0x44fd12ae, 0xa003f238, 0x7ec4e1e4, 0x1f8614c3, 0xcb87904e, 0x686a3933, 0xd2f9e873, 0x8e4b9a53,
];

// A password and its salt, the costs, and the key of at most 100 bytes.
struct ScryptCase {
    password: &'static [u8],
    salt: &'static [u8],
    log_n: u8,
    r: u32,
    p: u32,
    key: &'static [u8],
    // It is derived with one of so many rows kept, with each of these.
    keeps: &'static [u64],
    // One workspace gives the beginnings of the key of these lengths in turn.
    lengths: &'static [usize],
}

// The first three are RFC 7914, section 12; the others and the first key's end are
// Python's hashlib.scrypt(password, salt=salt, n=n, r=r, p=p, dklen=len(key)).
static SCRYPT_CASES: [ScryptCase; 5] = [
    ScryptCase {
        password: b"",
        salt: b"",
        log_n: 4,
        r: 1,
        p: 1,
        key: &[
            0x77, 0xd6, 0x57, 0x62, 0x38, 0x65, 0x7b, 0x20, 0x3b, 0x19, 0xca, 0x42, 0xc1, 0x8a,
            0x04, 0x97, 0xf1, 0x6b, 0x48, 0x44, 0xe3, 0x07, 0x4a, 0xe8, 0xdf, 0xdf, 0xfa, 0x3f,
            0xed, 0xe2, 0x14, 0x42, 0xfc, 0xd0, 0x06, 0x9d, 0xed, 0x09, 0x48, 0xf8, 0x32, 0x6a,
            0x75, 0x3a, 0x0f, 0xc8, 0x1f, 0x17, 0xe8, 0xd3, 0xe0, 0xfb, 0x2e, 0x0d, 0x36, 0x28,
            0xcf, 0x35, 0xe2, 0x0c, 0x38, 0xd1, 0x89, 0x06, 0xce, 0x73, 0x20, 0x66, 0x56, 0xcf,
            0x8c, 0x1e, 0xad, 0x7f, 0x4f, 0x66, 0x30, 0xd0, 0xad, 0xae, 0x1f, 0xd8, 0x87, 0x8b,
            0x77, 0xc3, 0xb4, 0x69, 0xdb, 0x91, 0x9f, 0x01, 0x59, 0x7f, 0x61, 0x3a, 0xc2, 0xf7,
            0x8a, 0xec,
        ],
        keeps: &[1, 2, 16],
        lengths: &[64, 100],
    },
    ScryptCase {
        password: b"password",
        salt: b"NaCl",
        log_n: 10,
        r: 8,
        p: 16,
        key: &[
            0xfd, 0xba, 0xbe, 0x1c, 0x9d, 0x34, 0x72, 0x00, 0x78, 0x56, 0xe7, 0x19, 0x0d, 0x01,
            0xe9, 0xfe, 0x7c, 0x6a, 0xd7, 0xcb, 0xc8, 0x23, 0x78, 0x30, 0xe7, 0x73, 0x76, 0x63,
            0x4b, 0x37, 0x31, 0x62, 0x2e, 0xaf, 0x30, 0xd9, 0x2e, 0x22, 0xa3, 0x88, 0x6f, 0xf1,
            0x09, 0x27, 0x9d, 0x98, 0x30, 0xda, 0xc7, 0x27, 0xaf, 0xb9, 0x4a, 0x83, 0xee, 0x6d,
            0x83, 0x60, 0xcb, 0xdf, 0xa2, 0xcc, 0x06, 0x40,
        ],
        keeps: &[1, 4],
        lengths: &[64],
    },
    ScryptCase {
        password: b"pleaseletmein",
        salt: b"SodiumChloride",
        log_n: 14,
        r: 8,
        p: 1,
        key: &[
            0x70, 0x23, 0xbd, 0xcb, 0x3a, 0xfd, 0x73, 0x48, 0x46, 0x1c, 0x06, 0xcd, 0x81, 0xfd,
            0x38, 0xeb, 0xfd, 0xa8, 0xfb, 0xba, 0x90, 0x4f, 0x8e, 0x3e, 0xa9, 0xb5, 0x43, 0xf6,
            0x54, 0x5d, 0xa1, 0xf2, 0xd5, 0x43, 0x29, 0x55, 0x61, 0x3f, 0x0f, 0xcf, 0x62, 0xd4,
            0x97, 0x05, 0x24, 0x2a, 0x9a, 0xf9, 0xe6, 0x1e, 0x85, 0xdc, 0x0d, 0x65, 0x1e, 0x40,
            0xdf, 0xcf, 0x01, 0x7b, 0x45, 0x57, 0x58, 0x87,
        ],
        keeps: &[1, 16, 1024],
        lengths: &[64],
    },
    ScryptCase {
        password: b"pleaseletmein",
        salt: b"SodiumChloride",
        log_n: 4,
        r: 1,
        p: 1,
        key: &[
            0xbb, 0x4d, 0x0d, 0xfa, 0x7f, 0xf5, 0xb1, 0x63, 0x33, 0xa1, 0x17, 0xe9, 0x47, 0x81,
            0x8f, 0xd2, 0x3b, 0xdd, 0xd6, 0x5a, 0x45, 0xb1, 0xc9, 0x09, 0x5c, 0x4b, 0xf0, 0xa9,
            0x5c, 0x19, 0xdc, 0x16, 0x1e, 0xb1, 0x3f, 0x0c, 0xca, 0x59, 0x9e, 0xfe, 0x56, 0x55,
            0x9a, 0x59, 0xce, 0xc4, 0x55, 0xde, 0xe7, 0xb5, 0x93, 0x68, 0x38, 0xf5, 0x7d, 0xba,
            0xc4, 0xc2, 0x73, 0x30, 0x7b, 0xc3, 0xcd, 0xcd, 0x6e, 0x4e, 0xcd, 0x51, 0xc8, 0x02,
            0xd3, 0x57, 0xb4, 0x9d, 0x77, 0x56, 0x07, 0x4a, 0x96, 0xcc, 0xbb, 0x5b, 0x9b, 0x2a,
            0x40, 0x02, 0xc3, 0x4e, 0xb3, 0x74, 0xa9, 0xa1, 0x4d, 0x87, 0x01, 0x14, 0x8d, 0x55,
            0x81, 0xcd,
        ],
        keeps: &[1],
        lengths: &[0, 1, 31, 32, 33, 64, 100],
    },
    ScryptCase {
        password: b"pleaseletmein",
        salt: b"SodiumChloride",
        log_n: 11,
        r: 1,
        p: 2,
        key: &[
            0xf4, 0x38, 0x40, 0x33, 0x66, 0xf5, 0xad, 0xd2, 0x85, 0x6e, 0x2d, 0x4a, 0x65, 0x7a,
            0xbb, 0x3b, 0xe3, 0x12, 0x5b, 0x60, 0xff, 0x8a, 0x5e, 0x8c, 0xe4, 0xa0, 0x9e, 0x13,
            0x42, 0x26, 0xb7, 0x81, 0x3e, 0x2e, 0xcb, 0xb5, 0x98, 0x4b, 0x43, 0xc0, 0x7e, 0x43,
            0xf4, 0x64, 0xcd, 0x09, 0x78, 0x96, 0x91, 0x96, 0xad, 0x39, 0x18, 0x8e, 0xba, 0x3c,
            0xd1, 0x33, 0xa9, 0xe7, 0x1c, 0xe7, 0x79, 0xa6,
        ],
        keeps: &[1, 2, 4, 8, 16, 32, 64, 128, 256, 512, 1024],
        lengths: &[64, 64],
    },
];

// Python, hashlib.scrypt(b"pleaseletmein", salt=b"SodiumChloride", n=8, r=r, p=p, dklen=16), by r
// and p; the first byte is the highest.
static SMALL_COSTS: [(u32, u32, u128); 27] = [
    (1, 1, 0x49ff71e02364a076ae4d16b0c66d6f4a),
    (1, 2, 0x899a653afc1a2d37a06c4a7253a546a0),
    (1, 3, 0x620cbd1a3fa08fef585d30dce76ebb80),
    (2, 1, 0xaeb54019e363be172b36164e56015409),
    (2, 2, 0x7b463171e23fd5f2b590ac8fecbb6b51),
    (2, 3, 0x0b94d94d99c180fd08ff162e2b4958f9),
    (3, 1, 0x1a7cbddef7c7302b2cd7d8fd7c4e7fec),
    (3, 2, 0x042971382557ff36854f5d8b0c4e45be),
    (3, 3, 0xb98fb2a3459324f9d367ee5631489769),
    (4, 1, 0x88cffb5b97419fe3c50c55fc85ca218a),
    (4, 2, 0xf3d1897c29f4e987882ef56e9c617e2c),
    (4, 3, 0xf5cfa42e5765f1c9f117c63d6c13c09a),
    (5, 1, 0x6a1d40325a46ffab21b120183d15c715),
    (5, 2, 0xd5c6f72833c11976da744c182d865011),
    (5, 3, 0x65878a471cf2bd732486a878a389c095),
    (6, 1, 0x61632f9258606dbc5bd9026ace2b6c9a),
    (6, 2, 0x7609d2f197203a7b1d904e5c5fad651b),
    (6, 3, 0x9ce1ffdece3d18bd6ceaeb75678c1e50),
    (7, 1, 0xc0096dd43cd7fa94d0bd4ad735d705c0),
    (7, 2, 0x1957a9dff3fcabc37a81fbd40217dd11),
    (7, 3, 0xe63ce16c17b08b0eacf0d31450b57e5b),
    (8, 1, 0xcdbd35549d5d453b369b8b15c7d90bc7),
    (8, 2, 0x6991dc2fce9c0c1c28f64c5bce1da913),
    (8, 3, 0xdbe99ba95c9734fcb41f65ca5a503ecd),
    (9, 1, 0xbdcdfd01146a274f5d4f342eb0a5daa4),
    (9, 2, 0x264a615bedb40a9b17e74d1027cafd0e),
    (9, 3, 0x013fc02c6ac4ea617733bcbca5d16c3a),
];

// Costs with one of so many rows kept, which take at most 2^30 bytes and cores.
fn admitted(log_n: u8, r: u32, p: u32, keep: u64) -> Option<Sparse>
    ensures memory { IfSome result (λ sparse. SparseFitsMemory sparse (2 ^ 40)) }
{
    let limits = Limits {
        max_bytes: 1 << 30,
        max_ops: 1 << 30,
    };
    let costs = Costs::new(log_n, r, p).ok()?;
    let sparse = Sparse::new(&costs, keep).ok()?;
    match sparse.admitted(&limits) {
        Ok(()) => Some(sparse),
        Err(_) => None,
    }
}

fn workspace(alloc: Global, log_n: u8, r: u32, p: u32, keep: u64) -> Option<Workspace> {
    match admitted(log_n, r, p, keep) {
        Some(sparse) => Workspace::reserve(alloc, &sparse).ok(),
        None => None,
    }
}

// A derivation; what it counts is proved of it.
fn derive_counted(
    alloc: Global,
    workspace: &mut Workspace,
    password: &[u8],
    salt: &[u8],
    key: &mut [u8],
) -> Ticks
    requires fits { length key.old ≤ 32 * (2 ^ 32 - 1) }
    ensures whole { workspace.old.sparse.keep ≡ 1 → result ≡ cores workspace.old.sparse.costs }
    ensures bound { result ≤ cores_bound workspace.old.sparse }
{
    let mut ticks = Ticks::new(alloc);
    workspace.derive(password, salt, key, &mut ticks);
    ticks
}

// These are the counts of the vectors of RFC 7914, section 12, and of the third with one row in 16 kept.
fn counts_of_the_vectors()
    ensures first { cores (record { log_n = 4; r = 1; p = 1 }) ≡ 64 }
    ensures second { cores (record { log_n = 10; r = 8; p = 16 }) ≡ 524288 }
    ensures third { cores (record { log_n = 14; r = 8; p = 1 }) ≡ 524288 }
    ensures third_with_16 { cores_bound (record { costs = record { log_n = 14; r = 8; p = 1 }; keep = 16 }) ≡ 4456448 }
{}

// Whether a workspace gives this key of at most 100 bytes.
fn gives(
    alloc: Global,
    workspace: &mut Workspace,
    password: &[u8],
    salt: &[u8],
    key: &[u8],
) -> bool {
    let mut bytes = [0u8; 100];
    let len = key.len().min(100);
    let _ticks = derive_counted(alloc, workspace, password, salt, &mut bytes[..len]);
    bytes.starts_with(key)
}

// Whether it gives the beginnings of a case's key.
fn gives_beginnings(alloc: Global, workspace: &mut Workspace, case: &ScryptCase) -> bool {
    for len in case.lengths {
        match case.key.get(..*len) {
            Some(key) if gives(alloc, workspace, case.password, case.salt, key) => {}
            _ => return false,
        }
    }
    true
}

// Whether a case has its key where one of so many rows is kept.
fn has_key(alloc: Global, case: &ScryptCase, keep: u64) -> bool {
    match workspace(alloc, case.log_n, case.r, case.p, keep) {
        Some(mut workspace) => gives_beginnings(alloc, &mut workspace, case),
        None => false,
    }
}

// The first number of rows of which one is kept where it has not.
fn wrong_keep(alloc: Global, case: &ScryptCase) -> Option<u64> {
    for keep in case.keeps {
        if !has_key(alloc, case, *keep) {
            return Some(*keep);
        }
    }
    None
}

#[test]
fn scrypt_cases(rt: HostRuntime) {
    for case in &SCRYPT_CASES {
        assert_eq!(rt; wrong_keep(rt.alloc(), case), None);
    }
}

#[test]
fn vectors_whose_counts_are_proved(rt: HostRuntime) {
    counts_of_the_vectors();
    let alloc = rt.alloc();
    assert!(rt; has_key(alloc, &SCRYPT_CASES[0], 1));
    assert!(rt; has_key(alloc, &SCRYPT_CASES[1], 1));
    assert!(rt; has_key(alloc, &SCRYPT_CASES[2], 1));
    assert!(rt; has_key(alloc, &SCRYPT_CASES[2], 16));
}

// Whether small costs give this key.
fn has_small_key(alloc: Global, r: u32, p: u32, key: u128) -> bool {
    let (password, salt) = (b"pleaseletmein", b"SodiumChloride");
    match workspace(alloc, 3, r, p, 1) {
        Some(mut workspace) => gives(alloc, &mut workspace, password, salt, &key.to_be_bytes()),
        None => false,
    }
}

// The first r and p with another key.
fn wrong_small_costs(alloc: Global) -> Option<(u32, u32)> {
    for i in 0..SMALL_COSTS.len() {
        let (r, p, key) = SMALL_COSTS[i];
        if !has_small_key(alloc, r, p, key) {
            return Some((r, p));
        }
    }
    None
}

#[test]
fn small_costs(rt: HostRuntime) {
    assert_eq!(rt; wrong_small_costs(rt.alloc()), None);
}

#[test]
fn core_vector(rt: HostRuntime) {
    let mut words = CORE_INPUT;
    salsa8(&mut words, &mut Ticks::new(rt.alloc()));
    assert!(rt; words == CORE_OUTPUT);
}

// On how many of 1,000 inputs of the core, from the first on, lanes and words agree.
fn agreeing_cores(alloc: Global) -> u32 {
    let mut words = CORE_INPUT;
    let mut expected = CORE_INPUT;
    let mut ticks = Ticks::new(alloc);
    for count in 0..1000u32 {
        salsa8(&mut words, &mut ticks);
        plain::salsa8(&mut expected);
        if words != expected {
            return count;
        }
    }
    1000
}

#[test]
fn both_forms_of_the_core_agree_on_1000_blocks(rt: HostRuntime) {
    assert!(rt; agreeing_cores(rt.alloc()) == 1000);
}

// On how many of 63 rows of sixteen blocks, from the first on, lanes and words agree.
fn agreeing_rows(alloc: Global) -> u32 {
    let mut row = [0u32; plain::ROW_LEN];
    row[..16].copy_from_slice(&CORE_INPUT);
    let mut out = [0u32; plain::ROW_LEN];
    let mut expected = [0u32; plain::ROW_LEN];
    let mut ticks = Ticks::new(alloc);
    for count in 0..63u32 {
        block_mix(&row, &mut out, &mut ticks);
        plain::block_mix(&row, &mut expected);
        if out != expected {
            return count;
        }
        row = out;
    }
    63
}

#[test]
fn both_forms_of_block_mix_agree_on_1008_blocks(rt: HostRuntime) {
    assert!(rt; agreeing_rows(rt.alloc()) == 63);
}

#[test]
fn vectors_of_a_row(rt: HostRuntime) {
    let mut ticks = Ticks::new(rt.alloc());
    let mut other = [0u32; 32];
    block_mix(&ROW, &mut other, &mut ticks);
    assert!(rt; other == ROW_BLOCK_MIXED);
    let (mut row, mut spare, mut table) = (ROW, [0u32; 0], [0u32; 512]);
    romix(
        &mut row, &mut other, &mut spare, &mut table, 4, 1, &mut ticks,
    );
    assert!(rt; row == ROW_ROMIXED);
}

// The example at the head of the crate.
#[test]
fn example(rt: HostRuntime) {
    let limits = Limits {
        max_bytes: 1 << 20,
        max_ops: 1 << 23,
    };
    assert!(rt; has_answer(14, 8, 1, 1, &limits, Some(CostFault::Memory)));
    assert!(rt; has_answer(14, 8, 1, 16, &limits, None));
    assert!(rt; has_key(rt.alloc(), &SCRYPT_CASES[2], 16));
}
