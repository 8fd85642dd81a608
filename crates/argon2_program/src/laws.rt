//! Laws of the definitions: each function has no body, and its clauses are the law.
ghost use Rattle.std.specs.Prelude.{◌≡◌, ◌≤◌, ◌++◌, ℕ, List, Some, Ok, drop};
ghost use Rattle.argon.specs.Counts.{work};
ghost use Rattle.argon.specs.Parameters.{block_count};
ghost use Rattle.argon.specs.Range.{IsInRange};
ghost use Rattle.argon2_command.specs.Output.{argon2_command_output, output_line, parameters_of};
ghost use Rattle.argon2_words.specs.Request.{Request, argon2_request};
ghost use Rattle.argon2_program.specs.Program.{ProgramSucceeds};
ghost use Rattle.host.specs.HostState.{Text};
ghost use Rattle.tools.specs.RunState.{host_over};
ghost use Rattle.tools.specs.SystemState.{SystemState};

// There is a system that a run with status 0 leaves, where the one before gives a password, and the parameters are in range
// and within the limits; and none has other bytes on its output than the line that is due.
fn program_output_exists()
    ensures line { (words : List Text) (request : Request) (password : List ℕ) (before : SystemState)
        → argon2_request (drop 1 words) ≡ Ok request → before.stdin ≡ Some password
        → IsInRange (parameters_of request password)
        → block_count (parameters_of request password) ≤ request.settings.max_memory_kib
        → work (parameters_of request password) ≤ request.settings.max_ops
        → (after : SystemState) × ProgramSucceeds words before after
        × (after.output ≡ before.output ++ output_line request password (parameters_of request password)) }
    ensures other_line { (words : List Text) (before after : SystemState) (output : List ℕ)
        → argon2_command_output (drop 1 words) (host_over before) ≡ Ok output
        → (after.output ≡ before.output ++ output → ⊥) → ProgramSucceeds words before after → ⊥ }
{}
