//! The definitions, run on what the reference program and RFC 4648 give.
ghost use Rattle.std.specs.Prelude.{◌≡◌, ◌-◌, ◌^◌, ℕ, List, [], ◌∷◌, Err, None, Ok, Some, codes, true, false, filter, is_some, map, replicate};
ghost use Rattle.std.specs.List.{range_with_len};
ghost use Rattle.argon.specs.Argon2.{argon2_tag};
ghost use Rattle.argon_text.specs.Base64.{alphabet, base64_bytes, is_base64, is_symbol};
ghost use Rattle.argon_text.specs.EncodedText.{encoded_text, kind_name, short_text};
ghost use Rattle.argon_text.specs.Grammar.{HasFields, fields_of_value, fields_text, is_number, value_of_fields};
ghost use Rattle.argon_text.specs.Reading.{fields_at, is_granted};
ghost use Rattle.base64.specs.declared.decode.DecodeAllocError.TheVariants as decoding;
ghost use Rattle.argon_text.specs.Settings.{first_field_range_fault, first_encoded_range_fault, settings_of_encoded_value};
ghost use Rattle.argon_text.specs.Value.{are_in_range, is_in_range};
ghost use Rattle.argon_text.specs.Verifying.{keyed_verify_fault, keyed_tag, parameters_of_value, tag_of_password, verify_fault};
ghost use Rattle.argon_text.specs.Vectors.{sample_encoded_fields, sample_encoded_text, sample_encoded_value, old_short_fields, old_short_text, version_16_sample_text, version_16_sample_value};
ghost use Rattle.argon.specs.declared.kind.Kind.TheVariants.{D, I, Id};
ghost use Rattle.argon_text.specs.declared.fault.VerifyFault.TheVariants.{InputLength, MemoryLimit, PasswordLength, WorkLimit};
ghost use Rattle.argon_text.specs.declared.range.RangeFault.TheVariants.{Lanes, Memory, Passes, SaltLength, TagLength, Version};

fn text_of_known_value()
    ensures text { encoded_text sample_encoded_value ≡ sample_encoded_text }
{}

// The fields of the known text are told by the grammar, and say the known value.
fn fields_of_known_text()
    ensures fields { HasFields sample_encoded_text sample_encoded_fields }
    ensures value { value_of_fields sample_encoded_fields ≡ sample_encoded_value }
{}

// The known texts, field by field, and texts that stop at a field: another type, no comma, a leading zero, passes before memory,
// no tag (the reference implementation, encoding.c: decode_string).
fn fields_taken_apart()
    ensures whole { fields_at sample_encoded_text ≡ Some sample_encoded_fields }
    ensures short { fields_at old_short_text ≡ Some old_short_fields }
    ensures stopped { map (λ text. is_some (fields_at text)) (codes "$argon2i$v=19$m=8,t=1,p=1$c2FsdA$dGFn" ∷ codes "$argon2id$v=19$m=8,t=1,p=1$c2FsdA$dGFn" ∷ codes "$argon2x$v=19$m=8,t=1,p=1$c2FsdA$dGFn"
        ∷ codes "$argon2d$v=19$m=8;t=1,p=1$c2FsdA$dGFn" ∷ codes "$argon2d$v=19$m=08,t=1,p=1$c2FsdA$dGFn" ∷ codes "$argon2d$v=19$t=1,m=8,p=1$c2FsdA$dGFn" ∷ codes "$argon2d$v=19$m=8,t=1,p=1$c2FsdA" ∷ [])
        ≡ true ∷ true ∷ false ∷ false ∷ false ∷ false ∷ false ∷ [] }
{}

// The fields as which the known value is written, with its version.
fn fields_of_known_value()
    ensures fields { fields_of_value sample_encoded_value ≡ sample_encoded_fields }
    ensures numbers { fields_of_value (record sample_encoded_value { passes = 2; lanes = 3 })
        ≡ record sample_encoded_fields { passes = codes "2"; lanes = codes "3" } }
{}

// A value of version 0x10 has two texts, and the fields of the short one say it.
fn texts_of_old_value()
    ensures whole { encoded_text version_16_sample_value ≡ version_16_sample_text }
    ensures short { short_text version_16_sample_value ≡ old_short_text }
    ensures fields { HasFields old_short_text old_short_fields }
    ensures value { value_of_fields old_short_fields ≡ version_16_sample_value }
{}

// The names after `$argon2` (the reference implementation, argon2.c: argon2_type2string).
fn names_of_types()
    ensures argon2d { kind_name D ≡ codes "d" }
    ensures argon2i { kind_name I ≡ codes "i" }
    ensures argon2id { kind_name Id ≡ codes "id" }
{}

// Digits, at least one, and no 0 before others (the reference implementation, encoding.c: decode_decimal).
fn forms_of_numbers()
    ensures nothing { is_number [] ≡ false }
    ensures zero { is_number (codes "0") ≡ true }
    ensures two_zeros { is_number (codes "00") ≡ false }
    ensures leading_zero { is_number (codes "0256") ≡ false }
    ensures one_digit { is_number (codes "1") ≡ true }
    ensures digits { is_number (codes "9008") ≡ true }
    ensures sign { is_number (codes "-1") ≡ false }
    ensures letter { is_number (codes "1a") ≡ false }
    ensures beside_the_digits { map is_number (codes ":" ∷ codes "/" ∷ codes ":1" ∷ codes "/1" ∷ codes "1:" ∷ codes "1/" ∷ codes "9" ∷ codes "10" ∷ [])
        ≡ false ∷ false ∷ false ∷ false ∷ false ∷ false ∷ true ∷ true ∷ [] }
{}

// RFC 4648, 10, without the padding; the last bits that must be zero (3.5), so that after one or two symbols these alone may
// stand last, as libargon2 0~20171227 takes them; the 64 symbols (4, table 1) among all bytes, and a byte beside them in each
// place; and texts whose bytes Python's base64 gives.
fn base64_of_the_standard()
    ensures nothing { base64_bytes [] ≡ [] }
    ensures one_symbol { base64_bytes (codes "Z") ≡ [] }
    ensures two_symbols { base64_bytes (codes "Zg") ≡ codes "f" }
    ensures three_symbols { base64_bytes (codes "Zm8") ≡ codes "fo" }
    ensures four_symbols { base64_bytes (codes "Zm9v") ≡ codes "foo" }
    ensures eight_symbols { base64_bytes (codes "Zm9vYmFy") ≡ codes "foobar" }
    ensures form { is_base64 (codes "Zm9vYmE") ≡ true }
    ensures unused_bits { is_base64 (codes "Zm9vYmF") ≡ false }
    ensures form_of_two { is_base64 (codes "Zg") ≡ true }
    ensures unused_bits_of_two { is_base64 (codes "Zh") ≡ false }
    ensures lone_symbol { is_base64 (codes "Zm9vY") ≡ false }
    ensures padding { is_base64 (codes "Zm9vYg==") ≡ false }
    ensures symbols { filter is_symbol (range_with_len 0 256) ≡ codes "+/0123456789ABCDEFGHIJKLMNOPQRSTUVWXYZabcdefghijklmnopqrstuvwxyz" }
    ensures each_place { map is_base64 (codes "@A" ∷ codes "A@" ∷ codes "@AA" ∷ codes "A@A" ∷ codes "AA@" ∷ codes "@AAA" ∷ codes "A@AA" ∷ codes "AA@A" ∷ codes "AAA@" ∷ codes "AAAA@A" ∷ [])
        ≡ false ∷ false ∷ false ∷ false ∷ false ∷ false ∷ false ∷ false ∷ false ∷ false ∷ [] }
    ensures last_bits { map is_base64 (codes "//8" ∷ codes "/w" ∷ codes "APA" ∷ codes "APAA" ∷ codes "+/+/" ∷ codes "zzzz" ∷ codes "AAB" ∷ [])
        ≡ true ∷ true ∷ true ∷ true ∷ true ∷ true ∷ false ∷ [] }
    ensures last_of_two { filter (λ x. is_base64 (65 ∷ x ∷ [])) alphabet ≡ codes "AQgw" }
    ensures last_of_three { filter (λ x. is_base64 (65 ∷ 65 ∷ x ∷ [])) alphabet ≡ codes "AEIMQUYcgkosw048" }
    ensures bytes { map base64_bytes (codes "//8" ∷ codes "/w" ∷ codes "APA" ∷ codes "APAA" ∷ codes "+/+/" ∷ codes "zzzz" ∷ [])
        ≡ (255 ∷ 255 ∷ []) ∷ (255 ∷ []) ∷ (0 ∷ 240 ∷ []) ∷ (0 ∷ 240 ∷ 0 ∷ []) ∷ (251 ∷ 255 ∷ 191 ∷ []) ∷ (207 ∷ 60 ∷ 243 ∷ []) ∷ [] }
{}

// Why a password is not tested: its length, then memory, then work. The known value has 8 blocks, of which 6 are made from
// other ones (RFC 9106, 3.2).
fn faults_of_tests()
    ensures empty { verify_fault sample_encoded_value [] 7 5 ≡ Some PasswordLength }
    ensures long { verify_fault sample_encoded_value (replicate 128 7) 8 6 ≡ Some PasswordLength }
    ensures longest { verify_fault sample_encoded_value (replicate 127 7) 8 6 ≡ None }
    ensures memory { verify_fault sample_encoded_value (codes "p") 7 5 ≡ Some MemoryLimit }
    ensures work { verify_fault sample_encoded_value (codes "p") 8 5 ≡ Some WorkLimit }
{}

// The same with a secret and data of these lengths, tested after the password's, and with any password: RFC 9106, 3.1, ends
// all three at 2^32-1 bytes.
fn faults_of_tests_with_a_secret()
    ensures empty_password { keyed_verify_fault sample_encoded_value [] (2 ^ 32 - 1) (2 ^ 32 - 1) 8 6 ≡ None }
    ensures long_password { keyed_verify_fault sample_encoded_value (replicate 128 7) (2 ^ 32 - 1) (2 ^ 32 - 1) 8 6 ≡ None }
    ensures secret { keyed_verify_fault sample_encoded_value (codes "p") (2 ^ 32) 0 7 5 ≡ Some InputLength }
    ensures associated { keyed_verify_fault sample_encoded_value (codes "p") 0 (2 ^ 32) 7 5 ≡ Some InputLength }
    ensures longest { keyed_verify_fault sample_encoded_value (codes "p") (2 ^ 32 - 1) (2 ^ 32 - 1) 8 6 ≡ None }
    ensures memory { keyed_verify_fault sample_encoded_value (codes "p") (2 ^ 32 - 1) (2 ^ 32 - 1) 7 5 ≡ Some MemoryLimit }
    ensures work { keyed_verify_fault sample_encoded_value (codes "p") (2 ^ 32 - 1) (2 ^ 32 - 1) 8 5 ≡ Some WorkLimit }
{}

// The tag of the known value is that of its own password, as the reference program gives it (argon's vectors compute it).
fn tag_of_the_known_password()
    ensures tag { argon2_tag
        (record {
          kind = 0;
          version = 0x13;
          passes = 1;
          lanes = 1;
          memory_kib = 8;
          tag_len = 32;
          salt_len = 8;
          password_len = 8;
        })
        (record {
          password = codes "password";
          salt = codes "somesalt";
          secret = [];
          associated = [];
        }) ≡ sample_encoded_value.tag → tag_of_password sample_encoded_value (codes "password") ≡ sample_encoded_value.tag }
{}

// Memory is granted to a text that is decoded, and where it is not decoded for another reason.
fn memory_of_decoding()
    ensures granted { is_granted {A = ℕ} (Ok 7) ≡ true }
    ensures refused { is_granted {A = ℕ} (Err decoding.OutOfMemory) ≡ false }
{}

// Secret and associated data each go to their own place (RFC 9106, 3.1: K and X).
fn tag_with_a_secret()
    ensures tag { (tag : List ℕ) → argon2_tag
        (record {
          kind = 0;
          version = 0x13;
          passes = 1;
          lanes = 1;
          memory_kib = 8;
          tag_len = 32;
          salt_len = 8;
          password_len = 8;
        })
        (record {
          password = codes "password";
          salt = codes "somesalt";
          secret = codes "k";
          associated = codes "x";
        }) ≡ tag → keyed_tag sample_encoded_value (codes "password") (codes "k") (codes "x") ≡ tag }
{}

// Without them there are none.
fn tag_of_a_password()
    ensures tag { (tag : List ℕ) → argon2_tag
        (record {
          kind = 0;
          version = 0x13;
          passes = 1;
          lanes = 1;
          memory_kib = 8;
          tag_len = 32;
          salt_len = 8;
          password_len = 8;
        })
        (record {
          password = codes "password";
          salt = codes "somesalt";
          secret = [];
          associated = [];
        }) ≡ tag → tag_of_password sample_encoded_value (codes "password") ≡ tag }
{}

// RFC 9106, 3.1: the ends of each range, and then one number beyond an end, where all else is in range. The ends of salt and
// tag but the least tag are own, and so is version 0x10, as docs/FORMATS.md has them.
fn ends_of_ranges()
    ensures least { are_in_range 0x13 8 1 1 8 4 ≡ true }
    ensures greatest { are_in_range 0x10 0xFFFF_FFFF 0xFFFF_FFFF 0xFF_FFFF 255 4096 ≡ true }
    ensures version_between { are_in_range 0x12 8 1 1 8 4 ≡ false }
    ensures later_version { are_in_range 0x14 8 1 1 8 4 ≡ false }
    ensures no_passes { are_in_range 0x13 8 0 1 8 4 ≡ false }
    ensures many_passes { are_in_range 0x13 8 0x1_0000_0000 1 8 4 ≡ false }
    ensures no_lanes { are_in_range 0x13 8 1 0 8 4 ≡ false }
    ensures many_lanes { are_in_range 0x13 0x800_0000 1 0x100_0000 8 4 ≡ false }
    ensures little_memory { are_in_range 0x13 15 1 2 8 4 ≡ false }
    ensures much_memory { are_in_range 0x13 0x1_0000_0000 1 1 8 4 ≡ false }
    ensures short_salt { are_in_range 0x13 8 1 1 7 4 ≡ false }
    ensures long_salt { are_in_range 0x13 8 1 1 256 4 ≡ false }
    ensures short_tag { are_in_range 0x13 8 1 1 8 3 ≡ false }
    ensures long_tag { are_in_range 0x13 8 1 1 8 4097 ≡ false }
{}

// The reference program makes both texts, so what they say is in range; and so are two passes with the memory of one lane, and
// a tag that is shorter than the salt. The known value has the least memory of a lane, and the least salt.
fn values_in_range()
    ensures known { is_in_range sample_encoded_value ≡ true }
    ensures old { is_in_range version_16_sample_value ≡ true }
    ensures passes { is_in_range (record sample_encoded_value { passes = 2 }) ≡ true }
    ensures tag { is_in_range (record sample_encoded_value { tag = codes "4321" }) ≡ true }
    ensures below { map is_in_range ((record sample_encoded_value { version = 18 }) ∷ (record sample_encoded_value { passes = 0 }) ∷ (record sample_encoded_value { lanes = 0 }) ∷ (record sample_encoded_value { memory = 7 })
        ∷ (record sample_encoded_value { tag = replicate 3 2 }) ∷ (record sample_encoded_value { salt = replicate 7 1 }) ∷ [])
        ≡ false ∷ false ∷ false ∷ false ∷ false ∷ false ∷ [] }
    ensures above { map is_in_range ((record sample_encoded_value { passes = 2 ^ 32 }) ∷ (record sample_encoded_value { lanes = 2 ^ 24; memory = 2 ^ 32 - 1 }) ∷ (record sample_encoded_value { lanes = 2 }) ∷ (record sample_encoded_value { memory = 2 ^ 32 })
        ∷ (record sample_encoded_value { tag = replicate 4097 2 }) ∷ (record sample_encoded_value { salt = replicate 256 1 }) ∷ [])
        ≡ false ∷ false ∷ false ∷ false ∷ false ∷ false ∷ [] }
    ensures ends { map is_in_range ((record sample_encoded_value { version = 16 }) ∷ (record sample_encoded_value { passes = 2 ^ 32 - 1 }) ∷ (record sample_encoded_value { lanes = 2 ^ 24 - 1; memory = 2 ^ 32 - 1 })
        ∷ (record sample_encoded_value { tag = replicate 4 2 }) ∷ (record sample_encoded_value { tag = replicate 4096 2 }) ∷ (record sample_encoded_value { salt = replicate 255 1 }) ∷ [])
        ≡ true ∷ true ∷ true ∷ true ∷ true ∷ true ∷ [] }
{}

// What is out of range, the first of several, and the ends of each range (RFC 9106, 3.1: the numbers on both sides of each end;
// the ends of salt and tag but the least tag are own, as docs/FORMATS.md has them).
fn first_of_faults()
    ensures version { first_field_range_fault 0x12 0 0 0 0 0 ≡ Some Version }
    ensures passes { first_field_range_fault 0x13 0 0 0 0 0 ≡ Some Passes }
    ensures lanes { first_field_range_fault 0x13 1 0x100_0000 0 0 0 ≡ Some Lanes }
    ensures memory { first_field_range_fault 0x13 1 2 15 0 0 ≡ Some Memory }
    ensures tag { first_field_range_fault 0x13 1 2 16 4097 0 ≡ Some TagLength }
    ensures salt { first_field_range_fault 0x13 1 2 16 4096 256 ≡ Some SaltLength }
    ensures versions { map (λ version. first_field_range_fault version 3 2 64 4 8) (0x0F ∷ 0x10 ∷ 0x11 ∷ 0x12 ∷ 0x13 ∷ 0x14 ∷ [])
        ≡ Some Version ∷ None ∷ Some Version ∷ Some Version ∷ None ∷ Some Version ∷ [] }
    ensures ends_of_passes { map (λ passes. first_field_range_fault 0x13 passes 2 64 4 8) (0 ∷ 1 ∷ 0xFFFF_FFFF ∷ 0x1_0000_0000 ∷ 0x2_0000_0000 ∷ [])
        ≡ Some Passes ∷ None ∷ None ∷ Some Passes ∷ Some Passes ∷ [] }
    ensures ends_of_lanes { map (λ lanes. first_field_range_fault 0x13 3 lanes (2 ^ 32 - 1) 4 8) (0 ∷ 1 ∷ 0xFF_FFFF ∷ 0x100_0000 ∷ 0x200_0000 ∷ [])
        ≡ Some Lanes ∷ None ∷ None ∷ Some Lanes ∷ Some Lanes ∷ [] }
    ensures ends_of_memory { map (λ memory. first_field_range_fault 0x13 3 2 memory 4 8) (15 ∷ 16 ∷ 0xFFFF_FFFF ∷ 0x1_0000_0000 ∷ 0x2_0000_0000 ∷ [])
        ≡ Some Memory ∷ None ∷ None ∷ Some Memory ∷ Some Memory ∷ [] }
    ensures ends_of_tag { map (λ tag. first_field_range_fault 0x13 3 2 64 tag 8) (3 ∷ 4 ∷ 300 ∷ 4096 ∷ 4097 ∷ 5000 ∷ [])
        ≡ Some TagLength ∷ None ∷ None ∷ None ∷ Some TagLength ∷ Some TagLength ∷ [] }
    ensures ends_of_salt { map (λ salt. first_field_range_fault 0x13 3 2 64 4 salt) (7 ∷ 8 ∷ 255 ∷ 256 ∷ [])
        ≡ Some SaltLength ∷ None ∷ None ∷ Some SaltLength ∷ [] }
{}

// The known value with one part changed, below its range, above it, and at its ends: each part is tested in its own place.
fn faults_of_values()
    ensures below { map first_encoded_range_fault ((record sample_encoded_value { version = 18 }) ∷ (record sample_encoded_value { passes = 0 }) ∷ (record sample_encoded_value { lanes = 0 }) ∷ (record sample_encoded_value { memory = 7 })
        ∷ (record sample_encoded_value { tag = replicate 3 2 }) ∷ (record sample_encoded_value { salt = replicate 7 1 }) ∷ [])
        ≡ Some Version ∷ Some Passes ∷ Some Lanes ∷ Some Memory ∷ Some TagLength ∷ Some SaltLength ∷ [] }
    ensures above { map first_encoded_range_fault ((record sample_encoded_value { passes = 2 ^ 32 }) ∷ (record sample_encoded_value { lanes = 2 ^ 24; memory = 2 ^ 32 - 1 }) ∷ (record sample_encoded_value { lanes = 2 }) ∷ (record sample_encoded_value { memory = 2 ^ 32 })
        ∷ (record sample_encoded_value { tag = replicate 4097 2 }) ∷ (record sample_encoded_value { salt = replicate 256 1 }) ∷ [])
        ≡ Some Passes ∷ Some Lanes ∷ Some Memory ∷ Some Memory ∷ Some TagLength ∷ Some SaltLength ∷ [] }
    ensures ends { map first_encoded_range_fault ((record sample_encoded_value { version = 16 }) ∷ (record sample_encoded_value { passes = 2 ^ 32 - 1 }) ∷ (record sample_encoded_value { lanes = 2 ^ 24 - 1; memory = 2 ^ 32 - 1 })
        ∷ (record sample_encoded_value { tag = replicate 4 2 }) ∷ (record sample_encoded_value { tag = replicate 4096 2 }) ∷ (record sample_encoded_value { salt = replicate 255 1 }) ∷ [])
        ≡ None ∷ None ∷ None ∷ None ∷ None ∷ None ∷ [] }
{}

// What a value says of its settings, and with a password of two bytes of the parameters of its tag: each number in its place.
fn settings_of_a_value()
    ensures settings { settings_of_encoded_value (record { kind = Id; version = 19; memory = 64; passes = 3; lanes = 2; salt = replicate 10 1; tag = replicate 9 2 })
        ≡ record { kind = Id; version = 19; memory = 64; passes = 3; lanes = 2; salt_len = 10; tag_len = 9 } }
    ensures parameters { parameters_of_value (record { kind = Id; version = 19; memory = 64; passes = 3; lanes = 2; salt = replicate 10 1; tag = replicate 9 2 }) (codes "pw")
        ≡ record { kind = 2; version = 19; passes = 3; lanes = 2; memory_kib = 64; tag_len = 9; salt_len = 10; password_len = 2 } }
{}

// The texts of these fields, with a version and without.
fn texts_of_fields()
    ensures with_version { fields_text sample_encoded_fields ≡ sample_encoded_text }
    ensures without_version { fields_text old_short_fields ≡ old_short_text }
{}
