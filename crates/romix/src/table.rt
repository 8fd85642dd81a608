//! The table V of ROMix (RFC 7914, section 5): rows of one length, one after another.
ghost use Rattle.std.specs.Prelude.{◌≡◌, ◌+◌, ◌*◌, ◌/◌, ◌<◌, ◌≤◌, length};
ghost use Rattle.romix.specs.Inside.Table.{KeepsRow, StoresRow, row_at};

/// Writes a row of `len` words as row `i` of the table.
pub(crate) fn store_table_row(table: &mut [u32], len: usize, i: usize, row: &[u32])
    requires row { length row.now ≡ len }
    requires room { len * (i + 1) ≤ length table.old }
    ensures stored { StoresRow len i row.now table.old table.new }
{
    let at = len * i;
    table[at..at + len].copy_from_slice(row);
}

/// Row `i` of the table, of `len` words.
pub(crate) fn load_table_row(table: &[u32], len: usize, i: usize) -> &[u32]
    requires room { len * (i + 1) ≤ length table.now }
    ensures row { result.now ≡ row_at table.now len i }
    ensures long { length result.now ≡ len }
{
    let at = len * i;
    &table[at..at + len]
}

/// Writes row `i` of V into a table that keeps the rows whose number `keep` divides, if it is one
/// of these.
pub(crate) fn keep_row(table: &mut [u32], keep: usize, i: usize, row: &[u32])
    requires keep { 0 < keep }
    requires room { length row.now * (i / keep + 1) ≤ length table.old }
    ensures row { KeepsRow keep i row.now table.old table.new }
{
    if i % keep == 0 {
        store_table_row(table, row.len(), i / keep, row);
    }
}
