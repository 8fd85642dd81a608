//! Laws of the definitions: each function has no body, and its clauses are the law.
ghost use Rattle.std.specs.Prelude.{◌≡◌, ◌++◌, ℕ, List, Option, Ok, drop, false, length, true};
ghost use Rattle.romix.specs.Costs.{IsInRange, Parameters};
ghost use Rattle.encfile.specs.EncryptedFile.{encrypted_file};
ghost use Rattle.scrypt_command.specs.Laws.{CanBeEncrypted};
ghost use Rattle.scrypt_request.specs.Request.{Encryption, Task, decrypt, encrypt, inspect};
ghost use Rattle.scrypt_run.specs.Encrypting.{salt_used};
ghost use Rattle.scrypt_run.specs.Inspecting.{costs_line};
ghost use Rattle.scrypt_run.specs.Laws.{CanBeOpened};
ghost use Rattle.scrypt_program.specs.Program.{ProgramSucceeds, SystemState, Text, host_over};
ghost use Rattle.scrypt_words.specs.Request.{scrypt_request};

// There is a system that a run with status 0 leaves, where the one before has what the words ask for, and its output has the
// bytes that the definitions state.
fn program_success_exists()
    ensures dec { (words : List Text) (task : Task) (before : SystemState) (passphrase salt : List ℕ) (costs : Parameters)
        (text : List ℕ) → scrypt_request (drop 1 words) ≡ Ok (decrypt task)
        → CanBeOpened task (host_over before) passphrase salt costs text
        → (after : SystemState) × ProgramSucceeds words before after × (after.output ≡ before.output ++ text) }
    ensures enc { (words : List Text) (asked : Encryption) (before : SystemState) (passphrase : List ℕ)
        → scrypt_request (drop 1 words) ≡ Ok (encrypt asked) → CanBeEncrypted asked (host_over before) passphrase
        → (after : SystemState) × ProgramSucceeds words before after × (after.output
        ≡ before.output ++ encrypted_file passphrase (salt_used asked.salt (host_over before)) asked.costs before.input.left) }
    ensures info { (words : List Text) (infile : Option Text) (before : SystemState) (passphrase salt : List ℕ)
        (costs : Parameters) (text : List ℕ) → scrypt_request (drop 1 words) ≡ Ok (inspect infile)
        → length salt ≡ 32 → IsInRange costs → before.input.left ≡ encrypted_file passphrase salt costs text
        → (after : SystemState) × ProgramSucceeds words before after × (after.output ≡ before.output ++ costs_line costs) }
{}

// No system is one that a run with status 0 leaves, whose output is to be kept and is not on the disk, or still holds what it
// held, or got other bytes.
fn no_other_program_success()
    ensures unsynced { (words : List Text) (before after : SystemState) → after.is_kept ≡ true → after.is_synced ≡ false
        → ProgramSucceeds words before after → ⊥ }
    ensures old { (words : List Text) (before after : SystemState) → after.is_new ≡ false
        → ProgramSucceeds words before after → ⊥ }
    ensures other_text { (words : List Text) (task : Task) (before after : SystemState) (passphrase salt : List ℕ)
        (costs : Parameters) (text : List ℕ) → scrypt_request (drop 1 words) ≡ Ok (decrypt task)
        → CanBeOpened task (host_over before) passphrase salt costs text
        → (after.output ≡ before.output ++ text → ⊥) → ProgramSucceeds words before after → ⊥ }
{}
