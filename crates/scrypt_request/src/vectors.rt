//! Vectors that the checker computes by the definitions alone.
ghost use Rattle.std.specs.Prelude.{◌≡◌, [], ◌∷◌, codes, filter, true};
ghost use Rattle.scrypt_request.specs.Refusal.{faults_after_refusal, comes_only_after_work, is_out_of_memory, line_of, may_follow_work};
ghost use Rattle.scrypt_request.specs.declared.refusal.ScryptRefusal.{ScryptRefusal};

// docs/REFUSALS.md, the table of scrypt: the line of each.
fn lines_of_refusals()
    ensures usage { line_of ScryptRefusal.Usage ≡ codes "scrypt: usage: scrypt enc|dec|info [options] infile [outfile]" }
    ensures some_costs { line_of ScryptRefusal.SomeCosts ≡ codes "scrypt: --logN, -r and -p are given together or not at all" }
    ensures costs_out_of_range { line_of ScryptRefusal.CostsOutOfRange ≡ codes "scrypt: costs out of range" }
    ensures standard_input_twice { line_of ScryptRefusal.StandardInputTwice ≡ codes "scrypt: passphrase and input cannot both come from standard input" }
    ensures same_name { line_of ScryptRefusal.SameName ≡ codes "scrypt: infile and outfile have the same name" }
    ensures passphrase_source { line_of ScryptRefusal.PassphraseSource ≡ codes "scrypt: one passphrase source is needed: -P, dev:stdin-once, env:NAME or file:NAME" }
    ensures passphrase_fault { line_of ScryptRefusal.PassphraseFault ≡ codes "scrypt: passphrase cannot be read" }
    ensures long_passphrase { line_of ScryptRefusal.LongPassphrase ≡ codes "scrypt: passphrase is longer than 2048 bytes" }
    ensures salt_digits { line_of ScryptRefusal.SaltDigits ≡ codes "scrypt: --salt takes 64 hexadecimal digits" }
    ensures salt_fault { line_of ScryptRefusal.SaltFault ≡ codes "scrypt: no salt can be read" }
    ensures not_scrypt_data { line_of ScryptRefusal.NotScryptData ≡ codes "scrypt: not valid scrypt data" }
    ensures unsupported_version { line_of ScryptRefusal.UnsupportedVersion ≡ codes "scrypt: unsupported format version" }
    ensures memory_limit { line_of ScryptRefusal.MemoryLimit ≡ codes "scrypt: more memory needed than -M allows" }
    ensures work_limit { line_of ScryptRefusal.WorkLimit ≡ codes "scrypt: more work needed than --maxops allows" }
    ensures wrong_passphrase { line_of ScryptRefusal.WrongPassphrase ≡ codes "scrypt: wrong passphrase" }
    ensures damaged { line_of ScryptRefusal.Damaged ≡ codes "scrypt: input is damaged or cut short" }
    ensures input_fault { line_of ScryptRefusal.InputFault ≡ codes "scrypt: input cannot be opened or read" }
    ensures output_fault { line_of ScryptRefusal.OutputFault ≡ codes "scrypt: output cannot be opened or written" }
    ensures too_long { line_of ScryptRefusal.TooLong ≡ codes "scrypt: input is too long" }
    ensures out_of_memory { line_of ScryptRefusal.OutOfMemory ≡ codes "scrypt: out of memory" }
    ensures keep_out_of_range { line_of ScryptRefusal.KeepOutOfRange ≡ codes "scrypt: --keep takes a power of two from 1 to 1024" }
    ensures keep_above_n { line_of ScryptRefusal.KeepAboveN ≡ codes "scrypt: --keep is larger than N" }
{}

// A failing call of the host raises its own count, and no other refusal raises one.
fn counts_of_refusals()
    ensures input { faults_after_refusal ScryptRefusal.InputFault (record { input = 10; output = 20; secrets = 30; salt = 40; lines = 50 }) ≡ record { input = 11; output = 20; secrets = 30; salt = 40; lines = 50 } }
    ensures output { faults_after_refusal ScryptRefusal.OutputFault (record { input = 10; output = 20; secrets = 30; salt = 40; lines = 50 }) ≡ record { input = 10; output = 21; secrets = 30; salt = 40; lines = 50 } }
    ensures passphrase { faults_after_refusal ScryptRefusal.PassphraseFault (record { input = 10; output = 20; secrets = 30; salt = 40; lines = 50 }) ≡ record { input = 10; output = 20; secrets = 31; salt = 40; lines = 50 } }
    ensures salt { faults_after_refusal ScryptRefusal.SaltFault (record { input = 10; output = 20; secrets = 30; salt = 40; lines = 50 }) ≡ record { input = 10; output = 20; secrets = 30; salt = 41; lines = 50 } }
    ensures damaged { faults_after_refusal ScryptRefusal.Damaged (record { input = 10; output = 20; secrets = 30; salt = 40; lines = 50 }) ≡ record { input = 10; output = 20; secrets = 30; salt = 40; lines = 50 } }
    ensures memory { faults_after_refusal ScryptRefusal.OutOfMemory (record { input = 10; output = 20; secrets = 30; salt = 40; lines = 50 }) ≡ record { input = 10; output = 20; secrets = 30; salt = 40; lines = 50 } }
{}

// docs/REFUSALS.md, the order of scrypt: S10, S11, S13 and S14 come after the derivation, S12 before and after it, and S15 and
// what is told of the first 96 bytes before it.
fn refusals_after_work()
    ensures damaged { comes_only_after_work ScryptRefusal.Damaged ≡ true }
    ensures only_after { filter comes_only_after_work (ScryptRefusal.Usage ∷ ScryptRefusal.SomeCosts ∷ ScryptRefusal.CostsOutOfRange ∷ ScryptRefusal.StandardInputTwice ∷ ScryptRefusal.SameName ∷ ScryptRefusal.PassphraseSource ∷ ScryptRefusal.PassphraseFault ∷ ScryptRefusal.LongPassphrase
        ∷ ScryptRefusal.SaltDigits ∷ ScryptRefusal.SaltFault ∷ ScryptRefusal.NotScryptData ∷ ScryptRefusal.UnsupportedVersion ∷ ScryptRefusal.MemoryLimit ∷ ScryptRefusal.WorkLimit ∷ ScryptRefusal.WrongPassphrase
        ∷ ScryptRefusal.Damaged ∷ ScryptRefusal.InputFault ∷ ScryptRefusal.OutputFault ∷ ScryptRefusal.TooLong ∷ ScryptRefusal.OutOfMemory ∷ ScryptRefusal.KeepOutOfRange ∷ ScryptRefusal.KeepAboveN ∷ [])
        ≡ ScryptRefusal.WrongPassphrase ∷ ScryptRefusal.Damaged ∷ ScryptRefusal.OutputFault ∷ ScryptRefusal.TooLong ∷ [] }
    ensures after { filter may_follow_work (ScryptRefusal.Usage ∷ ScryptRefusal.SomeCosts ∷ ScryptRefusal.CostsOutOfRange ∷ ScryptRefusal.StandardInputTwice ∷ ScryptRefusal.SameName ∷ ScryptRefusal.PassphraseSource ∷ ScryptRefusal.PassphraseFault ∷ ScryptRefusal.LongPassphrase
        ∷ ScryptRefusal.SaltDigits ∷ ScryptRefusal.SaltFault ∷ ScryptRefusal.NotScryptData ∷ ScryptRefusal.UnsupportedVersion ∷ ScryptRefusal.MemoryLimit ∷ ScryptRefusal.WorkLimit ∷ ScryptRefusal.WrongPassphrase
        ∷ ScryptRefusal.Damaged ∷ ScryptRefusal.InputFault ∷ ScryptRefusal.OutputFault ∷ ScryptRefusal.TooLong ∷ ScryptRefusal.OutOfMemory ∷ ScryptRefusal.KeepOutOfRange ∷ ScryptRefusal.KeepAboveN ∷ [])
        ≡ ScryptRefusal.WrongPassphrase ∷ ScryptRefusal.Damaged ∷ ScryptRefusal.InputFault ∷ ScryptRefusal.OutputFault ∷ ScryptRefusal.TooLong ∷ [] }
{}

// Want of memory is S15 alone: S8 is a limit.
fn wants_of_memory()
    ensures alone { filter is_out_of_memory (ScryptRefusal.Usage ∷ ScryptRefusal.SomeCosts ∷ ScryptRefusal.CostsOutOfRange ∷ ScryptRefusal.StandardInputTwice ∷ ScryptRefusal.SameName ∷ ScryptRefusal.PassphraseSource ∷ ScryptRefusal.PassphraseFault ∷ ScryptRefusal.LongPassphrase
        ∷ ScryptRefusal.SaltDigits ∷ ScryptRefusal.SaltFault ∷ ScryptRefusal.NotScryptData ∷ ScryptRefusal.UnsupportedVersion ∷ ScryptRefusal.MemoryLimit ∷ ScryptRefusal.WorkLimit ∷ ScryptRefusal.WrongPassphrase
        ∷ ScryptRefusal.Damaged ∷ ScryptRefusal.InputFault ∷ ScryptRefusal.OutputFault ∷ ScryptRefusal.TooLong ∷ ScryptRefusal.OutOfMemory ∷ ScryptRefusal.KeepOutOfRange ∷ ScryptRefusal.KeepAboveN ∷ [])
        ≡ ScryptRefusal.OutOfMemory ∷ [] }
{}
