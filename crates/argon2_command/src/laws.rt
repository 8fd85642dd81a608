//! Laws of the definitions: each function has no body, and its clauses are the law.
ghost use Rattle.std.specs.Prelude.{◌≡◌, ◌≤◌, ◌++◌, ◌∷◌, [], ℕ, List, Some, Ok, Err, codes, length};
ghost use Rattle.argon.specs.Counts.{work};
ghost use Rattle.argon.specs.Parameters.{block_count};
ghost use Rattle.argon.specs.Range.{IsInRange};
ghost use Rattle.argon2_command.specs.Output.{argon2_command_output, output_line, parameters_of};
ghost use Rattle.argon2_command.specs.Run.{Succeeds};
ghost use Rattle.argon2_words.specs.Request.{Request, argon2_request};
ghost use Rattle.argon2_words.specs.declared.refusal.Argon2Refusal.{Argon2Refusal};
ghost use Rattle.host.specs.HostState.{HostState, Text};

// There is a state in which a run with status 0 leaves a host whose standard input gives a password, where the parameters
// are in range and within the limits, and the output has the line of their tag: `Succeeds` is not empty. So it is for each
// password of 1 to 127 bytes, with the parameters that no word sets.
fn output_exists()
    ensures line { (words : List Text) (request : Request) (password : List ℕ) (before : HostState)
        → argon2_request words ≡ Ok request → before.stdin ≡ Some password
        → IsInRange (parameters_of request password)
        → block_count (parameters_of request password) ≤ request.settings.max_memory_kib
        → work (parameters_of request password) ≤ request.settings.max_ops
        → (after : HostState) × Succeeds words before after
        × (after.output ≡ before.output ++ output_line request password (parameters_of request password)) }
    ensures some { (password : List ℕ) (before : HostState) → 1 ≤ length password → length password ≤ 127
        → before.stdin ≡ Some password
        → (after : HostState) × Succeeds (codes "somesalt" ∷ codes "-e" ∷ []) before after }
{}

// No state in which the output has other bytes is one of a run with status 0, and none at all is where a refusal is due.
fn no_other_output()
    ensures other_line { (words : List Text) (before after : HostState) (output : List ℕ)
        → argon2_command_output words before ≡ Ok output
        → (after.output ≡ before.output ++ output → ⊥) → Succeeds words before after → ⊥ }
    ensures refused { (words : List Text) (before after : HostState) (refusal : Argon2Refusal)
        → argon2_command_output words before ≡ Err refusal → Succeeds words before after → ⊥ }
{}
