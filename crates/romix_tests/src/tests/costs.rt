//! Each bound of costs, of a sparse table and of the limits: at the bound, one below and one above; and
//! products past 64 bits.
use romix::{CostFault, Costs, Limits, Sparse};

const NOT_LOG_N: Option<CostFault> = Some(CostFault::LogN);

const ZERO: Option<CostFault> = Some(CostFault::Zero);

const PRODUCT: Option<CostFault> = Some(CostFault::Product);

const MEMORY: Option<CostFault> = Some(CostFault::Memory);

const WORK: Option<CostFault> = Some(CostFault::Work);

const KEEP: Option<CostFault> = Some(CostFault::Keep);

const ABOVE_N: Option<CostFault> = Some(CostFault::KeepAboveN);

// log2 N, r and p, the number of rows of which one is kept, and the fault.
type Made = (u8, u32, u32, u64, Option<CostFault>);

// A sparse table, or the fault.
fn made(log_n: u8, r: u32, p: u32, keep: u64) -> Result<Sparse, CostFault> {
    match Costs::new(log_n, r, p) {
        Ok(costs) => Sparse::new(&costs, keep),
        Err(fault) => Err(fault),
    }
}

// The place of the first that has another fault.
fn wrong_fault(rows: &[Made]) -> Option<usize> {
    for i in 0..rows.len() {
        let (log_n, r, p, keep, fault) = rows[i];
        if made(log_n, r, p, keep).err() != fault {
            return Some(i);
        }
    }
    None
}

// Every row is kept.
static COSTS: [Made; 25] = [
    (0, 1, 1, 1, NOT_LOG_N),
    (1, 1, 1, 1, None),
    (2, 1, 1, 1, None),
    (62, 1, 1, 1, None),
    (63, 1, 1, 1, None),
    (64, 1, 1, 1, NOT_LOG_N),
    (255, 1, 1, 1, NOT_LOG_N),
    // the first fault that holds is told
    (0, 0, 0, 1, NOT_LOG_N),
    (64, 1 << 15, 1 << 15, 1, NOT_LOG_N),
    (1, 0, 1, 1, ZERO),
    (1, 1, 0, 1, ZERO),
    (1, 0, u32::MAX, 1, ZERO),
    (1, (1 << 30) - 2, 1, 1, None),
    (1, (1 << 30) - 1, 1, 1, None),
    (1, 1 << 30, 1, 1, PRODUCT),
    (1, 1, 2, 1, None),
    (1, 1, (1 << 30) - 2, 1, None),
    (1, 1, (1 << 30) - 1, 1, None),
    (1, 1, 1 << 30, 1, PRODUCT),
    (1, (1 << 15) - 1, 1 << 15, 1, None),
    (1, (1 << 15) - 1, (1 << 15) + 1, 1, None),
    (1, 1 << 15, 1 << 15, 1, PRODUCT),
    // products that are 0 or 1 modulo 2^32
    (1, 1 << 16, 1 << 16, 1, PRODUCT),
    (1, 1 << 31, 2, 1, PRODUCT),
    (1, u32::MAX, u32::MAX, 1, PRODUCT),
];

#[test]
fn costs_out_of_range(rt: HostRuntime) {
    assert_eq!(rt; wrong_fault(&COSTS), None);
}

static KEPT: [Made; 32] = [
    (63, 1, 1, 0, KEEP),
    (63, 1, 1, 1, None),
    (63, 1, 1, 2, None),
    (63, 1, 1, 3, KEEP),
    (63, 1, 1, 4, None),
    (63, 1, 1, 5, KEEP),
    (63, 1, 1, 7, KEEP),
    (63, 1, 1, 8, None),
    (63, 1, 1, 16, None),
    (63, 1, 1, 32, None),
    (63, 1, 1, 64, None),
    (63, 1, 1, 128, None),
    (63, 1, 1, 256, None),
    (63, 1, 1, 511, KEEP),
    (63, 1, 1, 512, None),
    (63, 1, 1, 513, KEEP),
    (63, 1, 1, 1023, KEEP),
    (63, 1, 1, 1024, None),
    (63, 1, 1, 1025, KEEP),
    (63, 1, 1, 2048, KEEP),
    (63, 1, 1, u64::MAX, KEEP),
    // N is 2, 16, 512, 1,024
    (1, 1, 1, 1, None),
    (1, 1, 1, 2, None),
    (1, 1, 1, 4, ABOVE_N),
    (4, 1, 1, 8, None),
    (4, 1, 1, 16, None),
    (4, 1, 1, 32, ABOVE_N),
    (9, 1, 1, 512, None),
    (9, 1, 1, 1024, ABOVE_N),
    (10, 1, 1, 1024, None),
    // no power of two is told first
    (1, 1, 1, 3, KEEP),
    (4, 1, 1, 2048, KEEP),
];

#[test]
fn rows_that_are_kept(rt: HostRuntime) {
    assert_eq!(rt; wrong_fault(&KEPT), None);
}

// Whether a sparse table says its four numbers, and that it takes so many bytes and cores; and its costs the
// same where every row is kept.
fn takes(log_n: u8, r: u32, p: u32, keep: u64, table_bytes: u128, cores: u128) -> bool {
    let Ok(sparse) = made(log_n, r, p, keep) else {
        return false;
    };
    let costs = sparse.costs();
    costs.log_n() == log_n
        && costs.r() == r
        && costs.p() == p
        && sparse.keep() == keep
        && sparse.table_bytes() == table_bytes
        && sparse.cores_bound() == cores
        && (keep > 1 || costs.table_bytes() == table_bytes && costs.cores() == cores)
}

#[test]
fn what_costs_take(rt: HostRuntime) {
    let (table_bytes, cores) = ((1 << 100) - (1 << 70), (1 << 95) - (1 << 65));
    assert!(rt; takes(14, 8, 3, 1, 128 * 16384 * 8, 4 * 16384 * 8 * 3));
    assert!(rt; takes(63, (1 << 30) - 1, 1, 1, table_bytes, cores));
}

#[test]
fn what_sparse_tables_take(rt: HostRuntime) {
    assert!(rt; takes(14, 8, 1, 1, 16_777_216, 524_288));
    assert!(rt; takes(14, 8, 1, 16, 1_048_576, 4_456_448));
    assert!(rt; takes(14, 8, 3, 1024, 16_384, 806_092_800));
    assert!(rt; takes(1, 1, 1, 2, 128, 12));
    assert!(rt; takes(63, 1 << 29, 1, 1024, 1 << 89, 1025 << 93));
}

// log2 N, r and p, the number of rows of which one is kept, the limits of memory and work, and the fault.
type Limited = (u8, u32, u32, u64, u64, u64, Option<CostFault>);

// Whether limits have this answer of a sparse table, and the same of its costs where every row is kept.
pub fn has_answer(
    log_n: u8,
    r: u32,
    p: u32,
    keep: u64,
    limits: &Limits,
    fault: Option<CostFault>,
) -> bool {
    let Ok(sparse) = made(log_n, r, p, keep) else {
        return false;
    };
    let costs = sparse.costs();
    sparse.admitted(limits).err() == fault
        && (keep > 1 || costs.admitted(limits).err() == fault && Sparse::whole(&costs) == sparse)
}

// The place of the first that has another answer.
fn wrong_answer(rows: &[Limited]) -> Option<usize> {
    for i in 0..rows.len() {
        let (log_n, r, p, keep, max_bytes, max_ops, fault) = rows[i];
        if !has_answer(log_n, r, p, keep, &Limits { max_bytes, max_ops }, fault) {
            return Some(i);
        }
    }
    None
}

// Every row is kept.
static LIMITS: [Limited; 19] = [
    // a table of 2,048 bytes, 64 cores
    (4, 1, 1, 1, 2047, 64, MEMORY),
    (4, 1, 1, 1, 2048, 64, None),
    (4, 1, 1, 1, 2049, 64, None),
    (4, 1, 1, 1, 2048, 63, WORK),
    (4, 1, 1, 1, 2048, 65, None),
    // memory is told before work
    (4, 1, 1, 1, 2047, 63, MEMORY),
    // parts of 12,800 bytes, more than the table has
    (1, 1, 100, 1, 12799, 800, MEMORY),
    (1, 1, 100, 1, 12800, 800, None),
    (1, 1, 100, 1, 12801, 800, None),
    (1, 1, 100, 1, 12800, 799, WORK),
    (1, 1, 100, 1, 12800, 801, None),
    (1, 1, 1 << 24, 1, 1 << 31, 1 << 27, None),
    (1, 1, 1 << 24, 1, (1 << 31) - 1, 1 << 27, MEMORY),
    (1, 1, 1 << 24, 1, 1 << 31, (1 << 27) - 1, WORK),
    // products past 64 bits, 0 modulo 2^64: a table of 2^70 bytes, and 2^78 cores
    (63, 1, 1, 1, u64::MAX, u64::MAX, MEMORY),
    (63, (1 << 30) - 1, 1, 1, u64::MAX, u64::MAX, MEMORY),
    (56, 1, 1 << 20, 1, 1 << 63, u64::MAX, WORK),
    (1, 1, (1 << 30) - 1, 1, u64::MAX, (1 << 33) - 9, WORK),
    (1, 1, (1 << 30) - 1, 1, u64::MAX, (1 << 33) - 8, None),
];

#[test]
fn limits_of_costs(rt: HostRuntime) {
    assert_eq!(rt; wrong_answer(&LIMITS), None);
}

static SPARSE_LIMITS: [Limited; 20] = [
    // a table of 512 bytes, at most 160 cores
    (4, 1, 1, 4, 511, 160, MEMORY),
    (4, 1, 1, 4, 512, 160, None),
    (4, 1, 1, 4, 513, 160, None),
    (4, 1, 1, 4, 512, 159, WORK),
    (4, 1, 1, 4, 512, 161, None),
    (4, 1, 1, 4, 511, 159, MEMORY),
    (4, 1, 1, 16, 128, 544, None),
    (4, 1, 1, 16, 127, 544, MEMORY),
    (4, 1, 1, 16, 129, 544, None),
    (4, 1, 1, 16, 128, 543, WORK),
    (4, 1, 1, 16, 128, 545, None),
    (4, 1, 1, 1, 512, 544, MEMORY),
    // parts of 12,800 bytes, at most 1,200 cores
    (1, 1, 100, 2, 12799, 1200, MEMORY),
    (1, 1, 100, 2, 12800, 1200, None),
    (1, 1, 100, 2, 12801, 1200, None),
    (1, 1, 100, 2, 12800, 1199, WORK),
    (1, 1, 100, 2, 12800, 1201, None),
    // a table of 2^60 bytes, at most 1,025 * 2^64 cores
    (63, 1, 1, 1024, (1 << 60) - 1, u64::MAX, MEMORY),
    (63, 1, 1, 1024, 1 << 60, u64::MAX, WORK),
    // a table of 2^66 bytes
    (63, 1, 1, 16, u64::MAX, u64::MAX, MEMORY),
];

#[test]
fn limits_of_sparse_tables(rt: HostRuntime) {
    assert_eq!(rt; wrong_answer(&SPARSE_LIMITS), None);
}
