//! Tags of RFC 9106 and of independent programs; the limits; the plan; a refused reservation.
ghost use Rattle.std.specs.Prelude.{◌≡◌, ◌-◌, ◌<◌, true};
ghost use Rattle.argon.specs.Reference.{is_independent};

mod any_password;
mod orders;
mod plain;
mod ranges;
mod reference_tags;
mod rows;
mod version_0x10;

use argon::compression::{Scratch, compression};
use argon::matrix::reserve_from;
use argon::{
    Block, GrantedBlocks, GrantedNumbers, Inputs, Kind, Matrix, MatrixMemory, ParamFault, Params,
    Place, Ticks, lanes, plan_segment, xor_two_blocks_into,
};
use reference_tags::{KNOWN, LONGER_RUNS, OTHER_RUNS, RUNS, RUNS_IN_64_KIB};
use rows::{SECOND_LANE_FIRST, is_hex_of, right_rows, right_rows_by, run_of};
use std::alloc::{AllocError, Global};
use std::test::Fail;

// The example at the head of the crate: printf password | argon2 somesalt -id -t 3 -k 64 -p 1 -l 32 -r
#[test]
fn example(rt: HostRuntime) -> Result<(), Fail> {
    let alloc = rt.alloc();
    let password = b"password";
    let salt = b"somesalt";

    let params = Params::new(Kind::Id, 0x13, 3, 1, 64, 32, salt.len(), password.len())?;
    let mut matrix = Matrix::reserve(alloc, &params)?;
    let inputs = Inputs {
        password,
        salt,
        secret: &[],
        associated: &[],
    };
    let mut tag = [0; 32];
    matrix.hash(&inputs, &mut tag, &mut Ticks::new(alloc));

    assert!(rt;
        is_hex_of(
            "b9e3bfda58fb95f1e1e479af4e01bfade5a0dba34d400a254f770462674169e6",
            &tag
        )
    );
    Ok(())
}

// Each kind of RFC 9106, section 5, with its tag (5.1 to 5.3).
static STANDARD: &str = "\
    d 3 32 4 512b391b6f1162975371d30919734294f868e3be3984f3c1a13a4db9fabe4acb\n\
    i 3 32 4 c814d9d1dc7f37aa13f0d77f2494bda1c8de6b016dd388d29952a4c4672b6ce8\n\
    id 3 32 4 0d640df58d78766c08c037a34a8b53c9d01ef0452d75b65eb52520e96b01e659\n\
";

// How many of these have the tag of the standard's texts, with the lanes in that order too.
fn right_standard_rows(alloc: Global, order: &[u32]) -> u32 {
    let inputs = Inputs {
        password: &[1; 32],
        salt: &[2; 16],
        secret: &[3; 8],
        associated: &[4; 12],
    };
    right_rows_by(alloc, 0x13, &inputs, order, STANDARD)
}

#[test]
fn tags_of_the_standard(rt: HostRuntime) {
    assert!(rt; right_standard_rows(rt.alloc(), &SECOND_LANE_FIRST) == 3);
}

// How many runs with other texts have their tag.
fn right_other_rows(alloc: Global) -> u32 {
    let mut right = 0u32;
    for (password, salt, rows) in &OTHER_RUNS {
        let of_texts = right_rows(alloc, 0x13, password.as_bytes(), salt.as_bytes(), rows);
        right = right.wrapping_add(of_texts);
    }
    right
}

// How many of these have the tag of `password` and `somesalt`.
fn right_password_rows(alloc: Global, rows: &str) -> u32 {
    right_rows(alloc, 0x13, b"password", b"somesalt", rows)
}

#[test]
fn tags_of_the_reference_program(rt: HostRuntime) {
    let alloc = rt.alloc();
    assert!(rt; right_password_rows(alloc, KNOWN) == 4);
    assert!(rt; right_password_rows(alloc, RUNS) == 25);
    assert!(rt; right_password_rows(alloc, LONGER_RUNS) == 17);
    assert!(rt; right_password_rows(alloc, RUNS_IN_64_KIB) == 3);
    assert!(rt; right_other_rows(alloc) == 18);
}

// Secret and data beside the standard's: a row with its tag, a secret and data, of OpenSSL
// 4.0.0 as Python's cryptography 48.0.0 has it (cryptography.hazmat.primitives.kdf.argon2), with
// `password` and `somesalt`.
static SECRETS: [(&str, &[u8], &[u8]); 6] = [
    ("d 1 8 1 66c09a39", b"pepper", b""),
    (
        "i 2 100 3 148e0d82a4bdd7dda806bbae1517602a549ebdd46910c4e18bd732d5514cf8d2",
        b"",
        b"context",
    ),
    (
        "id 3 64 2 cc1ae12c223daec81aa8af5dccd4b9853025e09df353558bb2d5546cbb34717f5b63efd837bce05\
        60ee6445860818e585eefb3f671c455c784bcd86ae65178cbe2",
        b"pepper",
        b"context",
    ),
    (
        "d 2 4200 8 c1f3cc40643e7c41cb3d9f37d8ff77f1a16b68d686c69715bbd132c48eab192dab",
        &[7; 200],
        &[9; 300],
    ),
    (
        "i 1 1040 2 abc4446de275ce508292f749e1b51019cd70b8e3a0f9c51d9fea193ce4391d",
        b"k",
        &[0; 129],
    ),
    (
        "id 1 530 1 4c49fbf950ebe0739df1f1b6c30341be3267b4f9a6d3ed9b9e3daa2f92f187a9a87feb9c745ce6\
        30a0950c8b13fe9431a21d218ff34e63e81c98ba318eced03c",
        b"\x00",
        b"\xff",
    ),
];

// How many rows have the tag of their secret and data.
fn right_secret_rows(alloc: Global) -> u32 {
    let mut right = 0u32;
    for (row, secret, associated) in &SECRETS {
        let inputs = Inputs {
            password: b"password",
            salt: b"somesalt",
            secret,
            associated,
        };
        let of_texts = right_rows_by(alloc, 0x13, &inputs, &SECOND_LANE_FIRST, row);
        right = right.wrapping_add(of_texts);
    }
    right
}

#[test]
fn tags_with_secret_and_data(rt: HostRuntime) {
    assert!(rt; right_secret_rows(rt.alloc()) == 6);
}

// Kind, passes, memory and lanes, and the blocks and block functions of RFC 9106, section 5: 3 passes over
// 32 blocks less 8, and two for each segment of two columns with independent addressing, of 48 segments in all.
static STANDARD_WORK: [(&str, u32, u128); 3] = [
    ("d 3 32 4", 32, 88),
    ("i 3 32 4", 32, 184),
    ("id 3 32 4", 32, 104),
];

// The same of other settings; the block functions can be past 64 bits: RFC 9106, sections 3.2 and 3.4.1.2. Those of the
// last by Python, with t = 2**32 - 1 and b = 2**32 - 4:
//     t * b - 2 + t * 4 * 2 * -(-(b // 4) // 128)
static WORK: [(&str, u32, u128); 6] = [
    ("d 1 8 1", 8, 6),
    ("i 2 256 1", 256, 526),
    ("d 3 35 3", 24, 66),
    ("id 2 1039 2", 1032, 2076),
    ("i 1 516 1", 516, 530),
    (GREATEST, 4294967292, 18734974428319318018),
];

const GREATEST: &str = "i 4294967295 4294967295 1";

// The parameters of a row, with a tag of 32 bytes and texts of 8.
fn params_of(row: &str) -> Result<Params, ParamFault> {
    let run = run_of(row);
    Params::new(
        run.kind,
        0x13,
        run.passes,
        run.lanes,
        run.memory_kib,
        32,
        8,
        8,
    )
}

// Whether memory is told before work one below the blocks, and work at the blocks and one above.
fn admits_no_work(params: &Params, blocks: u32) -> bool {
    params.admitted(blocks.wrapping_sub(1), 0) == Err(ParamFault::MemoryLimit)
        && params.admitted(blocks, 0) == Err(ParamFault::WorkLimit)
        && params.admitted(blocks.wrapping_add(1), 0) == Err(ParamFault::WorkLimit)
}

// Whether so many blocks and block functions are admitted, and one more of each, and one less of neither.
fn admits_at_least(params: &Params, blocks: u32, ops: u64) -> bool {
    params.admitted(blocks.wrapping_sub(1), ops) == Err(ParamFault::MemoryLimit)
        && params.admitted(blocks, ops) == Ok(())
        && params.admitted(blocks.wrapping_add(1), ops) == Ok(())
        && params.admitted(blocks, ops.wrapping_sub(1)) == Err(ParamFault::WorkLimit)
        && params.admitted(blocks, ops.wrapping_add(1)) == Ok(())
}

// Whether the parameters take so many blocks and block functions, and limits admit exactly these.
fn takes(params: &Params, blocks: u32, work: u128) -> bool {
    let is_exact = match u64::try_from(work) {
        Ok(ops) => admits_at_least(params, blocks, ops),
        Err(_) => true,
    };
    params.blocks() == blocks && params.work() == work && admits_no_work(params, blocks) && is_exact
}

// How many rows, from the first on, are taken so.
fn taken_rows(rows: &[(&str, u32, u128)]) -> u32 {
    let mut taken = 0u32;
    for (row, blocks, work) in rows {
        match params_of(row) {
            Ok(params) if takes(&params, *blocks, *work) => taken = taken.wrapping_add(1),
            _ => return taken,
        }
    }
    taken
}

#[test]
fn block_functions_of_the_standard(rt: HostRuntime) {
    assert!(rt; taken_rows(&STANDARD_WORK) == 3);
}

#[test]
fn limits_admit_exactly(rt: HostRuntime) {
    assert!(rt; taken_rows(&WORK) == 6);
}

// Memory, block functions, and whether the memory's limit is told or that of the work.
static LIMITS: [(u32, u64, ParamFault); 7] = [
    (4294967291, 0x7FFF_FFFF_FFFF_FFFF, ParamFault::MemoryLimit),
    (4294967292, 0x7FFF_FFFF_FFFF_FFFF, ParamFault::WorkLimit),
    (4294967293, 0x7FFF_FFFF_FFFF_FFFF, ParamFault::WorkLimit),
    (4294967295, 0x7FFF_FFFF_FFFF_FFFF, ParamFault::WorkLimit),
    (4294967291, u64::MAX, ParamFault::MemoryLimit),
    (4294967295, u64::MAX, ParamFault::WorkLimit),
    // the block functions less 2^64
    (4294967295, 288230354609766402, ParamFault::WorkLimit),
];

// How many limits, from the first on, the parameters are refused at as the row tells.
fn refusing_limits(params: &Params) -> u32 {
    let mut refusing = 0u32;
    for (max_kib, max_ops, fault) in &LIMITS {
        if params.admitted(*max_kib, *max_ops) != Err(*fault) {
            return refusing;
        }
        refusing = refusing.wrapping_add(1);
    }
    refusing
}

// The same of the greatest Argon2i, which has 4,294,967,292 blocks and more block functions than 64 bits hold.
fn refusing_limits_of_greatest() -> u32 {
    match params_of(GREATEST) {
        Ok(params) => refusing_limits(&params),
        Err(_) => 0,
    }
}

#[test]
fn greatest_limits_admit_exactly(rt: HostRuntime) {
    assert!(rt; refusing_limits_of_greatest() == 7);
}

// Grants so many requests and refuses the others. Of ten it counts how many are not made.
#[derive(Drop)]
struct Refusing {
    alloc: Global,
    left: u32,
    unasked: u32,
}

impl Refusing {
    // Whether a request is granted.
    fn grants(&mut self) -> bool
        ensures left { self.new ≡ record self.old { left = self.old.left - 1; unasked = self.old.unasked - 1 } }
    {
        let grants = self.left > 0;
        self.left = self.left.saturating_sub(1);
        self.unasked = self.unasked.saturating_sub(1);
        grants
    }
}

impl MatrixMemory for Refusing {
    ghost after_blocks = { λ memory _ _. record memory { left = memory.left - 1; unasked = memory.unasked - 1 } };

    ghost after_numbers = { λ memory _ _. record memory { left = memory.left - 1; unasked = memory.unasked - 1 } };

    fn blocks(&mut self, count: usize) -> Result<GrantedBlocks, AllocError> {
        if !self.grants() {
            return Err(AllocError);
        }
        Ok(GrantedBlocks::new(vec![in self.alloc; [0; 128]; count]?))
    }

    fn numbers(&mut self, count: usize) -> Result<GrantedNumbers, AllocError> {
        if !self.grants() {
            return Err(AllocError);
        }
        Ok(GrantedNumbers::new(vec![in self.alloc; 0; count]?))
    }
}

// Whether a matrix is reserved where so many requests are granted, and how many of ten are not made.
fn matrix_where_granted(alloc: Global, params: &Params, left: u32) -> (bool, u32) {
    let mut memory = Refusing {
        alloc,
        left,
        unasked: 10,
    };
    let is_reserved = reserve_from(&mut memory, params).is_ok();
    (is_reserved, memory.unasked)
}

// Whether the one request of a matrix is made, and may be refused.
fn is_matrix_asked_once(alloc: Global) -> bool {
    match params_of("id 1 8 1") {
        Ok(params) => {
            matrix_where_granted(alloc, &params, 0) == (false, 9)
                && matrix_where_granted(alloc, &params, 1) == (true, 9)
        }
        Err(_) => false,
    }
}

#[test]
fn the_one_request_is_refused(rt: HostRuntime) {
    assert!(rt; is_matrix_asked_once(rt.alloc()));
}

// The same of the room of lanes.
fn lanes_where_granted(alloc: Global, params: &Params, left: u32) -> (bool, u32) {
    let mut memory = Refusing {
        alloc,
        left,
        unasked: 10,
    };
    let is_reserved = lanes::reserve_from(&mut memory, params).is_ok();
    (is_reserved, memory.unasked)
}

// Whether the two requests for four lanes are made, and each may be refused.
fn are_lanes_asked_twice(alloc: Global) -> bool {
    match params_of("id 1 32 4") {
        Ok(params) => {
            lanes_where_granted(alloc, &params, 0) == (false, 9)
                && lanes_where_granted(alloc, &params, 1) == (false, 8)
                && lanes_where_granted(alloc, &params, 2) == (true, 8)
        }
        Err(_) => false,
    }
}

#[test]
fn each_request_for_lanes_is_refused(rt: HostRuntime) {
    assert!(rt; are_lanes_asked_twice(rt.alloc()));
}

// The block of a lane in a column, and zeros where there is none.
fn block_at(blocks: &[Block], lane_len: u32, lane: u32, column: u32) -> Block {
    let at = (lane as u64)
        .wrapping_mul(lane_len as u64)
        .wrapping_add(column as u64);
    match blocks.get(at as usize) {
        Some(block) => *block,
        None => [0; 128],
    }
}

// G of two blocks, with a third xored in.
fn made_from(previous: &Block, reference: &Block, old: &Block, ticks: &mut Ticks) -> Block {
    let mut scratch = Scratch::new();
    compression(previous, reference, &mut scratch, ticks);
    let mut made = *old;
    xor_two_blocks_into(&scratch.permuted, &scratch.xored, &mut made);
    made
}

// Words that look like chance.
fn words_from(seed: u64) -> Block {
    let mut block = [0; 128];
    let mut number = seed;
    for word in block.iter_mut() {
        number = number
            .wrapping_mul(6364136223846793005)
            .wrapping_add(1442695040888963407);
        *word = number ^ (number >> 29);
    }
    block
}

// G of two blocks by plain loops, where lanes give the same, and the same over the second block.
fn agreed(first: &Block, second: &Block, ticks: &mut Ticks) -> Option<Block> {
    let mut expected = [0; 128];
    plain::compression(first, second, &mut expected);
    let mut over = *second;
    for k in 0..128 {
        over[k] ^= expected[k];
    }
    let are_same = made_from(first, second, &[0; 128], ticks) == expected
        && made_from(first, second, second, ticks) == over;
    are_same.then_some(expected)
}

// On how many of 1,000 blocks, from the first on, lanes and plain loops agree.
fn agreeing_blocks(alloc: Global) -> u32 {
    let mut first = words_from(1);
    let mut second = words_from(2);
    let mut ticks = Ticks::new(alloc);
    for count in 0..1000u32 {
        let Some(made) = agreed(&first, &second, &mut ticks) else {
            return count;
        };
        second = first;
        first = made;
    }
    1000
}

#[test]
fn lanes_and_plain_loops_agree_on_1000_blocks(rt: HostRuntime) {
    assert!(rt; agreeing_blocks(rt.alloc()) == 1000);
}

// Whether the block of a column is, in the blocks after its slice, G of the previous block and of
// the one at the place, with the block from before the slice, which is zero in the first pass, xored in.
fn is_made_along(
    place: Place,
    lane_len: u32,
    lane: u32,
    column: u32,
    before: &[Block],
    after: &[Block],
    ticks: &mut Ticks,
) -> bool {
    let last = if column == 0 { lane_len } else { column };
    let previous = block_at(after, lane_len, lane, last.wrapping_sub(1));
    let reference = block_at(after, lane_len, place.lane, place.column);
    let old = block_at(before, lane_len, lane, column);
    made_from(&previous, &reference, &old, ticks) == block_at(after, lane_len, lane, column)
}

// What the plan says of columns: how many are made along it, and how many entries it left as they
// were.
#[derive(Clone, Copy, PartialEq, Eq)]
struct Tally {
    along: u32,
    left: u32,
}

impl Tally {
    fn add(&mut self, other: Tally) {
        self.along = self.along.wrapping_add(other.along);
        self.left = self.left.wrapping_add(other.left);
    }
}

const NONE: Tally = Tally { along: 0, left: 0 };

const UNPLANNED: Place = Place {
    lane: 99,
    column: 99,
};

// Counts the columns of a lane's segment, whose plan is made anew with no look at the matrix. None
// where memory is refused.
fn tally_segment(
    alloc: Global,
    params: &Params,
    pass: u32,
    slice: u32,
    lane: u32,
    before: &[Block],
    after: &[Block],
) -> Tally
    requires passes { pass < params.now.passes }
    requires lanes { lane < params.now.lanes }
    requires slices { slice < 4 }
    requires independent { is_independent params.now pass slice ≡ true }
{
    let len = params.segment_len();
    let Ok(mut plan) = vec![in alloc; UNPLANNED; len as usize] else {
        return NONE;
    };
    let mut ticks = Ticks::new(alloc);
    plan_segment(params, pass, lane, slice, &mut plan, &mut ticks);
    let mut tally = NONE;
    for (index, place) in plan.iter().enumerate() {
        let column = slice.wrapping_mul(len).wrapping_add(index as u32);
        if *place == UNPLANNED {
            tally.left = tally.left.wrapping_add(1);
        } else if is_made_along(
            *place,
            len.wrapping_mul(4),
            lane,
            column,
            before,
            after,
            &mut ticks,
        ) {
            tally.along = tally.along.wrapping_add(1);
        }
    }
    tally
}

// Counts the columns of a slice, where its segments are independent.
fn tally_slice(
    alloc: Global,
    params: &Params,
    pass: u32,
    slice: u32,
    before: &[Block],
    after: &[Block],
) -> Tally {
    let mut all = NONE;
    if pass < params.passes() && slice < 4 && params.is_independent(pass, slice) {
        for lane in 0..params.lanes() {
            all.add(tally_segment(alloc, params, pass, slice, lane, before, after));
        }
    }
    all
}

// Makes what is next, if anything, and counts its columns. None where memory is refused, too.
fn tally_next(alloc: Global, params: &Params, matrix: &mut Matrix) -> Option<Tally> {
    let Some((pass, slice)) = matrix.next() else {
        return Some(NONE);
    };
    let Ok(before) = matrix.as_blocks().to_vec(alloc) else {
        return None;
    };
    matrix.slice(&mut Ticks::new(alloc));
    Some(tally_slice(alloc, params, pass, slice, &before, matrix.as_blocks()))
}

// Fills a matrix of 2 passes, 2 lanes and 256 blocks, and counts the columns of its independent
// segments.
fn tally_matrix(alloc: Global, kind: Kind, password: &[u8; 8]) -> Option<Tally> {
    let inputs = Inputs {
        password,
        salt: b"somesalt",
        secret: &[],
        associated: &[],
    };
    let Ok(params) = Params::new(kind, 0x13, 2, 2, 256, 32, 8, 8) else {
        return None;
    };
    let Ok(mut matrix) = Matrix::reserve(alloc, &params) else {
        return None;
    };
    matrix.start(&inputs);
    let mut all = NONE;
    for _ in 0..8u32 {
        match tally_next(alloc, &params, &mut matrix) {
            Some(tally) => all.add(tally),
            None => return None,
        }
    }
    Some(all)
}

// Independent segments of 32 columns: in Argon2id those of the first two slices of the first pass,
// 4 in all; in Argon2i all 16. Two columns of each lane come from H0.
static TALLIES: [(Kind, u32, u32); 3] = [(Kind::D, 0, 0), (Kind::Id, 124, 4), (Kind::I, 508, 4)];

// How many rows, from the first on, have their tally with both passwords.
fn right_tallies(alloc: Global) -> u32 {
    let mut right = 0u32;
    for (kind, along, left) in &TALLIES {
        let tally = Some(Tally {
            along: *along,
            left: *left,
        });
        if tally_matrix(alloc, *kind, b"password") != tally
            || tally_matrix(alloc, *kind, b"Passw0rd") != tally
        {
            return right;
        }
        right = right.wrapping_add(1);
    }
    right
}

// Two passwords, one plan.
#[test]
fn blocks_are_made_along_the_plan(rt: HostRuntime) {
    assert!(rt; right_tallies(rt.alloc()) == 3);
}

// Kind, passes, memory and lanes, slice and index of a column, and the place that it reads, in one pass and one lane.
static PLANNED: [(&str, u32, usize, Place); 5] = [
    // pass 0, slice 0: the first two entries stay
    ("i 1 8 1", 0, 0, UNPLANNED),
    ("i 1 8 1", 0, 1, UNPLANNED),
    // only column 0 stands beside the previous one
    ("i 1 8 1", 1, 0, Place { lane: 0, column: 0 }),
    ("i 1 12 1", 0, 2, Place { lane: 0, column: 0 }),
    ("i 1 516 1", 0, 2, Place { lane: 0, column: 0 }),
];

// Whether a plan has places in the first lane and the first slice of two columns alone.
fn is_in_first_slice(plan: &[Place]) -> bool {
    for place in plan {
        if place.lane != 0 || place.column >= 2 {
            return false;
        }
    }
    true
}

// Whether the plan of a segment has this place, and those of the second slice are in the first.
fn is_planned(params: &Params, slice: u32, index: usize, place: Place, ticks: &mut Ticks) -> bool {
    let len = params.segment_len();
    let is_one_lane = params.passes() == 1 && params.lanes() == 1;
    if !is_one_lane || slice >= 4 || len > 129 || !params.is_independent(0, slice) {
        return false;
    }
    let mut places = [UNPLANNED; 129];
    let plan = &mut places[..len as usize];
    plan_segment(params, 0, 0, slice, plan, ticks);
    match plan.get(index) {
        Some(found) => *found == place && (slice != 1 || is_in_first_slice(plan)),
        None => false,
    }
}

// How many rows, from the first on, are planned so.
fn planned_rows(alloc: Global) -> u32 {
    let mut planned = 0u32;
    for (row, slice, index, place) in &PLANNED {
        match params_of(row) {
            Ok(params) if is_planned(&params, *slice, *index, *place, &mut Ticks::new(alloc)) => {
                planned = planned.wrapping_add(1);
            }
            _ => return planned,
        }
    }
    planned
}

#[test]
fn plans_of_one_lane(rt: HostRuntime) {
    assert!(rt; planned_rows(rt.alloc()) == 5);
}
