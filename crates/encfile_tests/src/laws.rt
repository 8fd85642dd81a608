//! Laws of the definitions: each function has no body, and its clause is the law.
ghost use Rattle.std.specs.Prelude.{◌≡◌, ℕ, ◌+◌, ◌^◌, ◌<◌, ◌≤◌, List, length, take, Some, None};
ghost use Rattle.romix.specs.Allowance.{Admits, Allowance};
ghost use Rattle.romix.specs.Costs.{IsInRange, Parameters};
ghost use Rattle.encfile.specs.EncryptedFile.{encrypted_file};
ghost use Rattle.encfile.specs.Front.{front_refusal};
ghost use Rattle.encfile.specs.Front.FrontRefusal.{NotScryptData};
ghost use Rattle.encfile.specs.Laws.{EncryptionRoundTrips, IsRefusedByFirstFailingCall, IsDecidedInOrder};

// The file of a text has the right header code, gives the text back, and is an encryption of it.
fn file_gives_its_text_back()
    ensures back { (passphrase salt : List ℕ) (costs : Parameters) (text : List ℕ)
        → length salt ≡ 32 → IsInRange costs → length text < 2 ^ 60
        → EncryptionRoundTrips passphrase salt costs text }
{}

// The file of a text has 128 bytes more than the text.
fn length_of_file()
    ensures len { (passphrase salt : List ℕ) (costs : Parameters) (text : List ℕ)
        → length salt ≡ 32
        → length (encrypted_file passphrase salt costs text) ≡ 128 + length text }
{}

// The file of a text isn't refused under its passphrase where its costs are admitted, whatever S is.
fn file_is_not_refused()
    ensures none { (passphrase salt : List ℕ) (costs : Parameters) (text : List ℕ) (allowed : Allowance)
        → length salt ≡ 32 → IsInRange costs → Admits allowed costs
        → front_refusal (encrypted_file passphrase salt costs text) allowed passphrase ≡ None }
{}

// A file of fewer than 96 bytes is refused.
fn short_file_is_refused()
    ensures short { (file : List ℕ) (allowed : Allowance) (passphrase : List ℕ)
        → length file < 96 → front_refusal file allowed passphrase ≡ Some NotScryptData }
{}

// A file of 96 bytes or more is refused by the first that holds of its first 96 bytes: a fault of the header, of S, of
// the limits, or a header's code that is not right.
fn front_is_decided_by_calls()
    ensures decided { (file : List ℕ) (allowed : Allowance) (passphrase front : List ℕ)
        → 96 ≤ length file → front ≡ take 96 file
        → IsRefusedByFirstFailingCall file allowed passphrase front }
{}

// A file that is refused whatever the passphrase is refused under each, and another by its header's
// code.
fn front_is_decided_in_order()
    ensures decided { (file : List ℕ) (allowed : Allowance) (passphrase : List ℕ)
        → IsDecidedInOrder file allowed passphrase }
{}
