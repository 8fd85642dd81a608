//! Laws of the definitions: each function has no body, and its clauses are the law.
ghost use Rattle.std.specs.Prelude.{◌≡◌, ◌≢◌, ◌≤◌, ◌++◌, ◌∷◌, [], ℕ, List, None, Some, Ok, true, false, length};
ghost use Rattle.argon_text.specs.Grammar.{IsEncodedTextInRange};
ghost use Rattle.argon_text.specs.Value.{Value};
ghost use Rattle.host.specs.HostState.{HostState, Text};
ghost use Rattle.argon2_verify.specs.Run.{Differs, Inputs, IsRefused, Request, Says, Verifies, limits_refusal, tag_of_password, verify_request};
ghost use Rattle.argon2_verify.specs.Laws.{IsFromInside};
ghost use Rattle.argon2_verify.specs.Reading.{hash_line};
ghost use Rattle.argon2_verify.specs.declared.refusal.VerifyRefusal.{VerifyRefusal};

// A text in range has at most 5,855 bytes: none is refused for its length, since 8,191 are read.
fn texts_in_range_are_short()
    ensures short { (text : List ℕ) → IsEncodedTextInRange text → length text ≤ 5855 }
{}

// A line says one value.
fn one_value_of_a_line()
    ensures unique { (line : List ℕ) (v w : Value) → Says line v → Says line w → v ≡ w }
{}

// Words and a host come to one end, but where the host fails or memory is refused: no run can both tell that a password
// is right and that it is not, and where either is so, every refusal is of a failing host or of memory.
fn one_answer()
    ensures not_both { (words : List Text) (before after other : HostState) → Verifies true words before after → Differs true words before other → ⊥ }
    ensures state { (words : List Text) (before after other : HostState) → Inputs true words before after → Inputs true words before other → after ≡ other }
    ensures refused_from_outside { (words : List Text) (before after other : HostState) (r : VerifyRefusal)
        → Inputs true words before after → IsRefused r words before other → IsFromInside r → ⊥ }
{}

// Any two other refusals are one, and leave the same.
fn one_refusal()
    ensures same { (words : List Text) (before after other : HostState) (q r : VerifyRefusal) → IsRefused q words before after → IsRefused r words before other
        → IsFromInside q → IsFromInside r → q ≡ r }
    ensures state { (words : List Text) (before after other : HostState) (q r : VerifyRefusal) → IsRefused q words before after → IsRefused r words before other
        → IsFromInside q → IsFromInside r → after ≡ other }
{}

// There is a state in which a run with an answer leaves a host whose file, which is not standard input, says a value,
// which the limits admit, and whose standard input gives a password: with status 0 where this gives the value's tag,
// and with status 1 where it does not.
fn answer_exists()
    ensures verifies { (words : List Text) (request : Request) (value : Value) (password : List ℕ) (before : HostState)
        → verify_request words ≡ Ok request → before.input_is_stdin ≡ false → Says (hash_line before.input) value → limits_refusal request.limits value ≡ None
        → before.stdin ≡ Some password → length password ≤ 4096 → tag_of_password value password ≡ value.tag
        → (after : HostState) × Verifies true words before after }
    ensures differs { (words : List Text) (request : Request) (value : Value) (password : List ℕ) (before : HostState)
        → verify_request words ≡ Ok request → before.input_is_stdin ≡ false → Says (hash_line before.input) value → limits_refusal request.limits value ≡ None
        → before.stdin ≡ Some password → length password ≤ 4096 → tag_of_password value password ≢ value.tag
        → (after : HostState) × Differs true words before after }
{}

// What stands behind the end of the first line changes no end of a run: where a host comes to an answer or a refusal,
// one that differs in nothing but what stands there comes to it, too; and to no other, by `one_answer` and
// `one_refusal`, but where the host fails or memory is refused. An answer leaves of the input exactly what stood behind
// the line's end, and nothing where the line has none; a refusal leaves no less.
fn nothing_behind_the_line()
    ensures verifies { (words : List Text) (before after : HostState) (input : List ℕ) → hash_line input ≡ hash_line before.input
        → Verifies true words before after → (left : HostState) × Verifies true words (record before { input = input }) left }
    ensures differs { (words : List Text) (before after : HostState) (input : List ℕ) → hash_line input ≡ hash_line before.input
        → Differs true words before after → (left : HostState) × Differs true words (record before { input = input }) left }
    ensures refused { (words : List Text) (before after : HostState) (r : VerifyRefusal) (input : List ℕ) → hash_line input ≡ hash_line before.input
        → IsRefused r words before after → (left : HostState) × IsRefused r words (record before { input = input }) left }
    ensures left { (words : List Text) (before after : HostState) (line_end : ℕ) (behind : List ℕ)
        → before.input ≡ hash_line before.input ++ line_end ∷ behind → Inputs true words before after → after.input ≡ behind }
    ensures none_left { (words : List Text) (before after : HostState)
        → before.input ≡ hash_line before.input → Inputs true words before after → after.input ≡ [] }
    ensures no_less_left { (words : List Text) (before after : HostState) (r : VerifyRefusal) (line_end : ℕ) (behind : List ℕ)
        → before.input ≡ hash_line before.input ++ line_end ∷ behind → IsRefused r words before after
        → (unread : List ℕ) × (after.input ≡ unread ++ behind) }
{}

// Where the file is standard input itself, no run gives an answer, and at a refusal no byte of the input was read, and
// no password was asked for.
fn nothing_of_standard_input()
    ensures unanswered { (words : List Text) (before after : HostState) → before.input_is_stdin ≡ true → Inputs true words before after → ⊥ }
    ensures unread { (words : List Text) (before after : HostState) (r : VerifyRefusal)
        → before.input_is_stdin ≡ true → IsRefused r words before after → after.input ≡ before.input }
    ensures unasked { (words : List Text) (before after : HostState) (r : VerifyRefusal)
        → before.input_is_stdin ≡ true → IsRefused r words before after → after.asked ≡ before.asked }
{}
