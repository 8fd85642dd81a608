//! Laws of the definitions: each function has no body, and its clauses are the law.
ghost use Rattle.std.specs.Prelude.{◌≡◌, ◌≢◌, ◌≤◌, ◌^◌, List, None, Some, length, ℕ, true};
ghost use Rattle.argon_text.specs.EncodedText.{IsEncodedTextOf, encoded_text, short_text};
ghost use Rattle.argon_text.specs.Grammar.{Fields, HasFields, IsEncodedTextInRange, fields_of_value, value_of_fields};
ghost use Rattle.argon_text.specs.Settings.{first_encoded_range_fault};
ghost use Rattle.argon_text.specs.Value.{IsEncodableValue, Value, is_in_range};
ghost use Rattle.argon_text.specs.Verifying.{keyed_verify_fault};
ghost use Rattle.argon_text.specs.declared.fault.VerifyFault.TheVariants.{PasswordLength};

// A text has one reading: its fields are the only ones.
fn one_reading()
    ensures unique { (s : List ℕ) (p q : Fields) → HasFields s p → HasFields s q → p ≡ q }
{}

// A text of a value is told by the grammar and in range, says that value and no other, and is whole
// or short and not both. A text in range is a text of what it says.
fn one_value()
    ensures in_range { (v : Value) (s : List ℕ) → IsEncodableValue v → IsEncodedTextOf v s → IsEncodedTextInRange s }
    ensures unique { (v w : Value) (s : List ℕ) → IsEncodableValue v → IsEncodableValue w → IsEncodedTextOf v s → IsEncodedTextOf w s → v ≡ w }
    ensures fields { (v : Value) → IsEncodableValue v → HasFields (encoded_text v) (fields_of_value v) }
    ensures says { (v : Value) (s : List ℕ) (fields : Fields) → IsEncodableValue v → IsEncodedTextOf v s
        → HasFields s fields → value_of_fields fields ≡ v }
    ensures said { (s : List ℕ) (fields : Fields) → HasFields s fields
        → is_in_range (value_of_fields fields) ≡ true → IsEncodedTextOf (value_of_fields fields) s }
    ensures form { (v w : Value) → IsEncodableValue v → IsEncodableValue w → short_text v ≢ encoded_text w }
{}

// A value is in range where no part of it is out of range.
fn in_range_of_no_fault()
    ensures none { (v : Value) → first_encoded_range_fault v ≡ None → is_in_range v ≡ true }
{}

// A password of 2^32 bytes or more (RFC 9106, 3.1) is refused before all else.
fn long_passwords_are_refused()
    ensures first { (v : Value) (password : List ℕ) (secret_len associated_len max_kib max_ops : ℕ)
        → 2 ^ 32 ≤ length password
        → keyed_verify_fault v password secret_len associated_len max_kib max_ops ≡ Some PasswordLength }
{}
