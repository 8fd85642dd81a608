//! The line that tells costs.
ghost use Rattle.std.specs.Prelude.{◌≡◌, ◌^◌, ℕ, List, IfOk, string_bytes};
ghost use Rattle.scrypt_run.specs.Inspecting.{costs_line};

use romix::Costs;
use std::alloc::{AllocError, Global};
use std::marker::Model;

/// The line that tells costs, with its line feed. It can be read and not changed. Contracts see its bytes.
#[derive(Drop)]
pub struct Line {
    text: String,
}

impl Model for Line {
    ghost Value = { List ℕ };

    ghost view = { λ l. string_bytes l.text };
}

impl Line {
    /// The line of these costs.
    pub(crate) fn of_costs(alloc: Global, costs: &Costs) -> Result<Line, AllocError>
        ensures line { IfOk result (λ line. line ≡ costs_line costs.now) }
    {
        let text = costs_line(alloc, costs)?;
        Ok(Line { text })
    }

    /// Its bytes.
    pub fn as_bytes(&self) -> &[u8]
        ensures bytes { result.now ≡ self.now }
    {
        self.text.as_bytes()
    }
}

// N.
fn n(costs: &Costs) -> u64
    ensures n { result ≡ 2 ^ costs.now.log_n }
{
    1 << costs.log_n()
}

// The line that tells costs, with its line feed.
fn costs_line(alloc: Global, costs: &Costs) -> Result<String, AllocError>
    ensures line { IfOk result (λ line. string_bytes line ≡ costs_line costs.now) }
{
    let n = n(costs);
    let r = costs.r();
    let p = costs.p();
    let memory = costs.table_bytes();
    let cores = costs.cores();
    format!(in alloc; "N = {n}; r = {r}; p = {p}; memory = {memory}; cores = {cores}\n")
}
