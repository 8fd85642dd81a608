//! The memory of a derivation, and the derivation.
ghost use Rattle.std.specs.Prelude.{◌≡◌, ◌+◌, ◌-◌, ◌*◌, ◌^◌, ◌<◌, ◌≤◌, ◌⊎◌, false, true, length, IfOk, OnOk, OnErr};
ghost use Rattle.romix.specs.Costs.{cores};
ghost use Rattle.romix.specs.Scrypt.{scrypt};
ghost use Rattle.romix.specs.Sparse.{sparse_table_core_count};
ghost use Rattle.romix.specs.SparseCosts.{SparseFitsMemory, cores_bound};
ghost use Rattle.romix.specs.Workspace.{HasWorkspaceLengths};
ghost use Rattle.romix.specs.Requests.{after_table_and_row_requests};

use crate::parts::mix_parts;
use crate::reservation::WorkspaceMemory;
use crate::sparse::Sparse;
use crate::ticks::Ticks;
use crate::wiped_words::WipedWords;
use crate::words::Words;
use std::alloc::{AllocError, Global};
use std::marker::Model;

/// The memory of derivations of the same costs: a table of 32 * r * (N / S) words of four bytes,
/// and two rows of 32 * r words, three if S is above 1. Contracts see the costs, S, and these
/// lengths.
#[derive(Drop)]
pub struct Workspace {
    sparse: Sparse,
    table: Words,
    row: Words,
    other_row: Words,
    spare_row: Words,
}

impl Model for Workspace {
    ghost use Rattle.std.specs.Prelude.{vec_len};
    ghost use Rattle.romix.specs.SparseCosts.{HasCostsAndKeepInRange};
    ghost use Rattle.romix.specs.Workspace.{HasWorkspaceLengths, Memory};

    ghost Value = { Memory };

    ghost view = { λ w. record {
      sparse = w.sparse;
      table_words = vec_len w.table.held.list;
      row_words = vec_len w.row.held.list;
      other_row_words = vec_len w.other_row.held.list;
      spare_row_words = vec_len w.spare_row.held.list;
    } };

    ghost invariant = { λ w. HasCostsAndKeepInRange w.sparse × HasWorkspaceLengths (record {
      sparse = w.sparse;
      table_words = vec_len w.table.held.list;
      row_words = vec_len w.row.held.list;
      other_row_words = vec_len w.other_row.held.list;
      spare_row_words = vec_len w.spare_row.held.list;
    }) };
}

/// The memory of derivations of these costs, as [`Workspace::reserve`] takes it, from this source. The table
/// is asked for first, and then two rows of 32 * r words each, three if S is above 1. After a refusal
/// nothing more is asked for, and nothing stays reserved.
pub fn reserve_from<R: WorkspaceMemory>(
    source: &mut R,
    sparse: &Sparse,
) -> Result<Workspace, AllocError>
    requires memory { SparseFitsMemory sparse.now (2 ^ 40) }
    ensures sparse { IfOk result (λ w. w.sparse ≡ sparse.now) }
    ensures lengths { IfOk result HasWorkspaceLengths }
    // The table and two rows are asked for, each once, and one row more if not every row is kept.
    ensures two_rows { sparse.now.keep ≡ 1 → OnOk result (source.new ≡ after_table_and_row_requests R.after_words sparse.now source.old 2 true) }
    ensures three_rows { 1 < sparse.now.keep → OnOk result (source.new ≡ after_table_and_row_requests R.after_words sparse.now source.old 3 true) }
    // After a refusal a beginning of these was asked for, of which the last was refused and no other.
    ensures refused { OnErr result ((source.new ≡ after_table_and_row_requests R.after_words sparse.now source.old 0 false)
        ⊎ (source.new ≡ after_table_and_row_requests R.after_words sparse.now source.old 1 false)
        ⊎ (source.new ≡ after_table_and_row_requests R.after_words sparse.now source.old 2 false)
        ⊎ ((1 < sparse.now.keep) × (source.new ≡ after_table_and_row_requests R.after_words sparse.now source.old 3 false))) }
{
    let row_len = 32 * sparse.costs().r() as usize;
    let table = source.request_words((sparse.table_bytes() / 4) as usize)?;
    let row = source.request_words(row_len)?;
    let other_row = source.request_words(row_len)?;
    let spare_row = if sparse.keep() == 1 {
        source.no_words()
    } else {
        source.request_words(row_len)?
    };
    Ok(Workspace {
        sparse: *sparse,
        table: Words {
            held: WipedWords::new(table),
        },
        row: Words {
            held: WipedWords::new(row),
        },
        other_row: Words {
            held: WipedWords::new(other_row),
        },
        spare_row: Words {
            held: WipedWords::new(spare_row),
        },
    })
}

impl Workspace {
    /// The memory of derivations of these costs, whose table and parts have at most 2^40 bytes
    /// each, as they do where limits of at most 2^40 bytes admit them. If a growth is refused,
    /// nothing stays reserved.
    pub fn reserve(alloc: Global, sparse: &Sparse) -> Result<Workspace, AllocError>
        requires memory { SparseFitsMemory sparse.now (2 ^ 40) }
        ensures sparse { IfOk result (λ w. w.sparse ≡ sparse.now) }
        ensures lengths { IfOk result HasWorkspaceLengths }
    {
        let mut source = alloc;
        reserve_from(&mut source, sparse)
    }

    /// Fills `out`, at most 32 * (2^32 - 1) bytes, with the key that scrypt derives from the
    /// password and the salt (RFC 7914, section 6). The ticks are 4 * N * r * p if S is 1, and
    /// never more than 2 * r * p * N * (1 + S).
    pub fn derive(&mut self, password: &[u8], salt: &[u8], out: &mut [u8], ticks: &mut Ticks)
        requires fits { length out.old ≤ 32 * (2 ^ 32 - 1) }
        ensures key { out.new ≡ scrypt password.now salt.now (2 ^ self.old.sparse.costs.log_n)
            self.old.sparse.costs.r self.old.sparse.costs.p (length out.old) }
        ensures memory { self.new ≡ self.old }
        ensures count { ticks.new ≡ ticks.old + sparse_table_core_count password.now salt.now self.old.sparse }
        ensures bound { ticks.new ≤ ticks.old + cores_bound self.old.sparse }
        ensures whole { self.old.sparse.keep ≡ 1 → ticks.new ≡ ticks.old + cores self.old.sparse.costs }
    {
        mix_parts(
            password,
            salt,
            &self.sparse,
            self.row.held.words(),
            self.other_row.held.words(),
            self.spare_row.held.words(),
            self.table.held.words(),
            ticks,
        )
        .write_key(out);
    }
}
