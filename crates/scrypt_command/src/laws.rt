//! Laws of the definitions: each function has no body, and its clauses are the law.
ghost use Rattle.std.specs.Prelude.{◌≡◌, ◌≤◌, ◌<◌, ◌^◌, ◌++◌, ◌⊎◌, ℕ, List, Option, Some, Ok, length};
ghost use Rattle.encfile.specs.EncryptedFile.{IsEncryptionOf, encrypted_file};
ghost use Rattle.encfile.specs.Header.{costs_of};
ghost use Rattle.host.specs.FirstLine.{first_line};
ghost use Rattle.scrypt_command.specs.Laws.{Admits, AreOneEnd, CanBeEncrypted, CanBeOpened, Encryption, HasPassphrase, IsInRange, IsRefusedFromOutside, Parameters, Task, allowance_of, decrypt, encrypt, first_line_of_source, inspect, salt_used};
ghost use Rattle.scrypt_command.specs.Run.{HostState, IsRefused, ScryptRefusal, Succeeds, Text, scrypt_request};
ghost use Rattle.scrypt_run.specs.Inspecting.{costs_line};

// Words and a host come to one end, but for refusals from outside: to one success, beside which every
// refusal is from outside, or to one refusal, which leaves one state.
fn words_come_to_one_end()
    ensures same { (words : List Text) (before a b : HostState) → Succeeds words before a
        → Succeeds words before b → a ≡ b }
    ensures outside { (words : List Text) (before after ended : HostState) (refusal : ScryptRefusal)
        → Succeeds words before after → IsRefused refusal words before ended
        → IsRefusedFromOutside words refusal }
    ensures refusal { (words : List Text) (before after ended : HostState) (one other : ScryptRefusal)
        → IsRefused one words before after → IsRefused other words before ended
        → AreOneEnd one other after ended ⊎ IsRefusedFromOutside words one ⊎ IsRefusedFromOutside words other }
{}

// There is a state in which a run with status 0 leaves a host that has what the words ask for, and the output has the
// bytes that the definitions state: `Succeeds` is not empty.
fn success_exists()
    ensures dec { (words : List Text) (task : Task) (before : HostState) (passphrase salt : List ℕ)
        (costs : Parameters) (text : List ℕ) → scrypt_request words ≡ Ok (decrypt task)
        → CanBeOpened task before passphrase salt costs text
        → (after : HostState) × Succeeds words before after × (after.output ≡ before.output ++ text) }
    ensures enc { (words : List Text) (asked : Encryption) (before : HostState) (passphrase : List ℕ)
        → scrypt_request words ≡ Ok (encrypt asked) → CanBeEncrypted asked before passphrase
        → (after : HostState) × Succeeds words before after
        × (after.output ≡ before.output ++ encrypted_file passphrase (salt_used asked.salt before) asked.costs before.input) }
    ensures info { (words : List Text) (infile : Option Text) (before : HostState) (passphrase salt : List ℕ)
        (costs : Parameters) (text : List ℕ) → scrypt_request words ≡ Ok (inspect infile)
        → length salt ≡ 32 → IsInRange costs → before.input ≡ encrypted_file passphrase salt costs text
        → (after : HostState) × Succeeds words before after × (after.output ≡ before.output ++ costs_line costs) }
{}

// What `enc` wrote, `dec` gives back: where its input is what a run of `enc` with status 0 added to its output, both take one
// passphrase, and the limits admit the costs, there is a success, which adds the input of `enc` to the output.
fn what_enc_wrote_is_given_back()
    ensures back { (words others : List Text) (asked : Encryption) (task : Task) (before written later : HostState)
        → scrypt_request words ≡ Ok (encrypt asked) → Succeeds words before written
        → scrypt_request others ≡ Ok (decrypt task) → written.output ≡ before.output ++ later.input
        → first_line_of_source task.source later ≡ first_line_of_source asked.task.source before
        → Admits (allowance_of task) (costs_of later.input)
        → (after : HostState) × Succeeds others later after × (after.output ≡ later.output ++ before.input) }
{}

// For every text, passphrase, salt and costs in their ranges there is a host that has what `dec` asks for, and one that has
// what `enc` does.
fn hosts_of_success_exist()
    ensures dec { (task : Task) (passphrase salt : List ℕ) (costs : Parameters) (text : List ℕ)
        → first_line passphrase ≡ passphrase → length passphrase ≤ 2048 → length salt ≡ 32 → IsInRange costs
        → Admits (allowance_of task) costs → length text < 2 ^ 60
        → (before : HostState) × CanBeOpened task before passphrase salt costs text }
    ensures enc { (asked : Encryption) (passphrase text : List ℕ)
        → first_line passphrase ≡ passphrase → length passphrase ≤ 2048 → ((salt : List ℕ) → asked.salt ≡ Some salt → length salt ≡ 32)
        → IsInRange asked.costs → Admits (allowance_of asked.task) asked.costs → length text < 2 ^ 60
        → (before : HostState) × CanBeEncrypted asked before passphrase × (before.input ≡ text) }
{}

// No state in which the output has other bytes is one of a run with status 0; nor, after `dec`, one where the input is no
// encryption of what was added to the output, under the passphrase of the words' source.
fn no_other_success()
    ensures other_text { (words : List Text) (task : Task) (before after : HostState) (passphrase salt : List ℕ)
        (costs : Parameters) (text : List ℕ) → scrypt_request words ≡ Ok (decrypt task)
        → CanBeOpened task before passphrase salt costs text
        → (after.output ≡ before.output ++ text → ⊥) → Succeeds words before after → ⊥ }
    ensures not_encrypted { (words : List Text) (task : Task) (before after : HostState)
        → scrypt_request words ≡ Ok (decrypt task)
        → ((passphrase text : List ℕ) → HasPassphrase (first_line_of_source task.source before) passphrase
        → IsEncryptionOf before.input passphrase text → after.output ≡ before.output ++ text → ⊥)
        → Succeeds words before after → ⊥ }
    ensures other_file { (words : List Text) (asked : Encryption) (before after : HostState) (passphrase : List ℕ)
        → scrypt_request words ≡ Ok (encrypt asked)
        → HasPassphrase (first_line_of_source asked.task.source before) passphrase
        → (after.output ≡ before.output ++ encrypted_file passphrase (salt_used asked.salt before) asked.costs before.input → ⊥)
        → Succeeds words before after → ⊥ }
    ensures other_line { (words : List Text) (infile : Option Text) (before after : HostState)
        → scrypt_request words ≡ Ok (inspect infile)
        → (after.output ≡ before.output ++ costs_line (costs_of before.input) → ⊥) → Succeeds words before after → ⊥ }
{}
