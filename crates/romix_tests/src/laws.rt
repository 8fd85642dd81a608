//! Laws of the definitions: each function has no body, and its clauses are the law.
ghost use Rattle.std.specs.Prelude.{◌≡◌, ◌<◌, ◌≤◌, ℕ, List};
ghost use Rattle.romix.specs.Costs.{Parameters, cores, table_bytes};
ghost use Rattle.romix.specs.Faults.{limit_fault, sparse_limit_fault};
ghost use Rattle.romix.specs.Sparse.{sparse_table_core_count};
ghost use Rattle.romix.specs.SparseCosts.{CostsAndKeep, cores_bound, sparse_table_bytes, whole};
ghost use Rattle.romix.specs.declared.limits.Limits.{Limits};

// A derivation has at most 2 * r * p * N * (1 + S) cores, whatever the password and the salt.
fn cores_are_bounded()
    ensures bound { (password salt : List ℕ) (s : CostsAndKeep) → 0 < s.keep
        → sparse_table_core_count password salt s ≤ cores_bound s }
{}

// With every row kept it has 4 * N * r * p.
fn cores_of_a_whole_table()
    ensures cores { (password salt : List ℕ) (c : Parameters)
        → sparse_table_core_count password salt (whole c) ≡ cores c }
{}

// With every row kept the figures and the faults are those of the costs alone.
fn whole_table_is_that_of_the_costs()
    ensures table { (c : Parameters) → sparse_table_bytes (whole c) ≡ table_bytes c }
    ensures bound { (c : Parameters) → cores_bound (whole c) ≡ cores c }
    ensures fault { (c : Parameters) (limits : Limits)
        → sparse_limit_fault (whole c) limits ≡ limit_fault c limits }
{}
