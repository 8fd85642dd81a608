//! Laws of the definitions: each function has no body, and its clauses are the law.
ghost use Rattle.std.specs.Prelude.{◌≡◌, ◌++◌, ◌⊎◌, ℕ, List};
ghost use Rattle.romix.specs.Costs.{Parameters};
ghost use Rattle.host.specs.HostState.{HostState};
ghost use Rattle.scrypt_run.specs.Decrypting.{DecryptRefused, DecryptSucceeds};
ghost use Rattle.scrypt_run.specs.Encrypting.{EncryptSucceeds};
ghost use Rattle.scrypt_run.specs.Laws.{AdmitsCosts, AreOneEnd, AsksNoOtherSecretSource, CanBeOpened, IsFromOutside, IsRefusedFromOutside, WroteAnEncryption, WroteWhatWasEncrypted, request_with_keep};
ghost use Rattle.scrypt_request.specs.Request.{Encryption, Request, Task};
ghost use Rattle.scrypt_run.specs.Run.{ScryptRequestRefused, ScryptRequestSucceeds};
ghost use Rattle.scrypt_request.specs.declared.refusal.ScryptRefusal.{ScryptRefusal};

// An encrypted file is opened under its passphrase, unless the host fails or memory is refused; and
// what is written is its text.
fn encrypted_file_is_opened()
    ensures text { (task : Task) (before after : HostState) (passphrase salt : List ℕ)
        (costs : Parameters) (text : List ℕ) → CanBeOpened task before passphrase salt costs text
        → DecryptSucceeds task before after → after.output ≡ before.output ++ text }
    ensures not_refused { (task : Task) (before after : HostState) (passphrase salt : List ℕ)
        (costs : Parameters) (text : List ℕ) (refusal : ScryptRefusal)
        → CanBeOpened task before passphrase salt costs text
        → DecryptRefused refusal task before after → IsFromOutside refusal }
{}

// A run of `dec` that ends well wrote what the input is an encryption of.
fn what_dec_wrote_was_encrypted()
    ensures encrypted { (task : Task) (before after : HostState) → DecryptSucceeds task before after
        → WroteWhatWasEncrypted task before after }
{}

// A run of `enc` that ends well wrote an encryption of the input.
fn what_enc_wrote_is_an_encryption()
    ensures encryption { (asked : Encryption) (before after : HostState) → EncryptSucceeds asked before after
        → WroteAnEncryption asked before after }
{}

// A request comes to one success: the same names are opened, and the same is read and written.
fn one_success()
    ensures same { (request : Request) (before a b : HostState) → ScryptRequestSucceeds request before a
        → ScryptRequestSucceeds request before b → a ≡ b }
{}

// What can succeed is refused from outside alone.
fn success_is_refused_from_outside_alone()
    ensures outside { (request : Request) (before after ended : HostState) (refusal : ScryptRefusal)
        → ScryptRequestSucceeds request before after → ScryptRequestRefused refusal request before ended
        → IsRefusedFromOutside request refusal }
{}

// Two refusals of a request are one end, or one of them is from outside: what else refuses it, and
// what it leaves, is decided by the request and the host.
fn one_refusal_from_inside()
    ensures same { (request : Request) (before after ended : HostState) (one other : ScryptRefusal)
        → ScryptRequestRefused one request before after → ScryptRequestRefused other request before ended
        → AreOneEnd one other after ended
        ⊎ IsRefusedFromOutside request one ⊎ IsRefusedFromOutside request other }
{}

// A run asks no secret source but the request's.
fn no_other_source_is_asked()
    ensures succeeds { (request : Request) (before after : HostState)
        → ScryptRequestSucceeds request before after → AsksNoOtherSecretSource request before after }
    ensures refused { (request : Request) (before after : HostState) (refusal : ScryptRefusal)
        → ScryptRequestRefused refusal request before after → AsksNoOtherSecretSource request before after }
{}

// Where the costs are admitted with one S and with another, or a file's header is refused, the runs
// with the one and the other come to the same ends: the same file, text, bytes and refusals.
fn ends_do_not_depend_on_keep()
    ensures succeeds { (request : Request) (keep : ℕ) (before after : HostState)
        → AdmitsCosts request before → AdmitsCosts (request_with_keep keep request) before
        → ScryptRequestSucceeds request before after
        → ScryptRequestSucceeds (request_with_keep keep request) before after }
    ensures refused { (request : Request) (keep : ℕ) (before after : HostState)
        (refusal : ScryptRefusal)
        → AdmitsCosts request before → AdmitsCosts (request_with_keep keep request) before
        → ScryptRequestRefused refusal request before after
        → ScryptRequestRefused refusal (request_with_keep keep request) before after }
{}

// A run whose refusal is that of memory asked for no output.
fn want_of_memory_opens_no_output()
    ensures unopened { (request : Request) (before after : HostState)
        → ScryptRequestRefused ScryptRefusal.OutOfMemory request before after
        → after.output_opened ≡ before.output_opened }
    ensures unasked { (request : Request) (before after : HostState)
        → ScryptRequestRefused ScryptRefusal.OutOfMemory request before after
        → after.output_asked ≡ before.output_asked }
{}
