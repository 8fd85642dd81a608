//! What the checker computes of the definitions in specs/: the number of each refusal as include/pikhsen.h has it, and
//! which of several is told, in the order that the header gives.
ghost use Rattle.std.specs.Prelude.{◌≡◌, ◌-◌, ◌*◌, ◌+◌, ◌^◌, ◌++◌, [], ◌∷◌, Some, None, codes, false, map, replicate, take, true};
ghost use Rattle.std.specs.List.{range_with_len};
ghost use Rattle.argon.specs.Argon2.{argon2_tag};
ghost use Rattle.argon.specs.declared.fault.ParamFault.TheVariants.{Lanes, Memory, MemoryLimit, Passes, PasswordLength, SaltLength, TagLength, WorkLimit};
ghost use Rattle.argon.specs.declared.kind.Kind.TheVariants.{D, I, Id};
ghost use Rattle.argon_text.specs.Vectors.{sample_encoded_text, sample_encoded_value};
ghost use Rattle.argon_text.specs.declared.range.RangeFault.TheVariants as range;
ghost use Rattle.encfile.specs.Vectors.{front_of_hello};
ghost use Rattle.encfile.specs.declared.fault.HeaderFault.TheVariants.{Checksum, CostsOutOfRange, Magic, Version};
ghost use Rattle.romix.specs.Sparse.{sparse_table_core_count};
ghost use Rattle.romix.specs.declared.fault.CostFault.TheVariants as costs;
ghost use Rattle.pikhsen_c.specs.Argon2.{encoded_hash, encoded_keyed_hash, encoded_keyed_status, encoded_text_with_zero_tag, hash_to_encoded_status, hash_status, inputs_given, kind_numbered, parameters_of_numbers, room_status, value_to_encode};
ghost use Rattle.pikhsen_c.specs.File.{encrypt_status, front_status, header_status, number_of as number_of_header, salsa20_cores_to_open};
ghost use Rattle.pikhsen_c.specs.Heap.{one_more};
ghost use Rattle.pikhsen_c.specs.Message.{sentence_of};
ghost use Rattle.pikhsen_c.specs.Scrypt.{costs_of_numbers, limits_of_numbers, number_of as number_of_costs, salsa20_cores_of_numbers, scrypt_status};
ghost use Rattle.pikhsen_c.specs.Settings.{number_of as number_of_range, c_settings_of_value};
ghost use Rattle.pikhsen_c.specs.Stream.{decrypt_start_status, encrypt_start_status};
ghost use Rattle.pikhsen_c.specs.Status.{cost_fault_status, damaged_status, first_nonzero_status, header_fault_status, long_password_status, mismatch_status, above_memory_limit_status, above_work_limit_status, wrong_stream_state_status, not_encoded_status, out_of_memory_status, out_of_range_status, param_fault_status, wrong_passphrase_status};

// PIKHSEN_PASSES to PIKHSEN_WORK_LIMIT.
fn numbers_of_parameters()
    ensures passes { param_fault_status Passes ≡ 1 }
    ensures lanes { param_fault_status Lanes ≡ 2 }
    ensures memory { param_fault_status Memory ≡ 3 }
    ensures tag { param_fault_status TagLength ≡ 4 }
    ensures salt { param_fault_status SaltLength ≡ 5 }
    ensures password { param_fault_status PasswordLength ≡ 6 }
    ensures memory_limit { param_fault_status MemoryLimit ≡ 7 }
    ensures work_limit { param_fault_status WorkLimit ≡ 8 }
{}

// PIKHSEN_LOG_N to PIKHSEN_KEEP_ABOVE_N, and the two limits, which have one number for both standards.
fn numbers_of_costs()
    ensures none { number_of_costs None ≡ 0 }
    ensures log_n { number_of_costs (Some costs.LogN) ≡ 17 }
    ensures zero { number_of_costs (Some costs.Zero) ≡ 18 }
    ensures product { number_of_costs (Some costs.Product) ≡ 19 }
    ensures keep { number_of_costs (Some costs.Keep) ≡ 20 }
    ensures keep_above_n { number_of_costs (Some costs.KeepAboveN) ≡ 21 }
    ensures memory_limit { cost_fault_status costs.Memory ≡ 7 }
    ensures work_limit { cost_fault_status costs.Work ≡ 8 }
{}

// PIKHSEN_MAGIC to PIKHSEN_FILE_COSTS.
fn numbers_of_headers()
    ensures none { number_of_header None ≡ 0 }
    ensures magic { number_of_header (Some Magic) ≡ 22 }
    ensures version { number_of_header (Some Version) ≡ 23 }
    ensures checksum { number_of_header (Some Checksum) ≡ 24 }
    ensures costs_out_of_range { header_fault_status CostsOutOfRange ≡ 25 }
{}

// PIKHSEN_TEXT_VERSION to PIKHSEN_TEXT_SALT_LENGTH.
fn numbers_of_ranges()
    ensures none { number_of_range None ≡ 0 }
    ensures version { number_of_range (Some range.Version) ≡ 31 }
    ensures passes { number_of_range (Some range.Passes) ≡ 32 }
    ensures lanes { number_of_range (Some range.Lanes) ≡ 33 }
    ensures memory { number_of_range (Some range.Memory) ≡ 34 }
    ensures tag { number_of_range (Some range.TagLength) ≡ 35 }
    ensures salt { number_of_range (Some range.SaltLength) ≡ 36 }
{}

// What the known text says, `$argon2d$v=19$m=8,t=1,p=1$`, with a salt of 8 bytes and a tag of 32.
fn settings_of_the_known_value()
    ensures settings { c_settings_of_value sample_encoded_value ≡ record {
      kind = 0;
      version = 19;
      passes = 1;
      memory_kib = 8;
      lanes = 1;
      salt_len = 8;
      tag_len = 32;
    } }
{}

// The numbers that no order below tells.
fn numbers_told_late()
    ensures long_password { long_password_status ≡ 6 }
    ensures above_memory_limit { above_memory_limit_status ≡ 7 }
    ensures above_work_limit { above_work_limit_status ≡ 8 }
    ensures out_of_memory { out_of_memory_status ≡ 9 }
    ensures not_encoded { not_encoded_status ≡ 14 }
    ensures out_of_range { out_of_range_status ≡ 15 }
    ensures mismatch { mismatch_status ≡ 16 }
    ensures wrong_passphrase { wrong_passphrase_status ≡ 27 }
    ensures damaged { damaged_status ≡ 28 }
    ensures stream { wrong_stream_state_status ≡ 37 }
{}

// 0 tells no fault.
fn first_of_two_numbers()
    ensures neither { first_nonzero_status 0 0 ≡ 0 }
    ensures second { first_nonzero_status 0 8 ≡ 8 }
    ensures first { first_nonzero_status 3 0 ≡ 3 }
    ensures both { first_nonzero_status 3 8 ≡ 3 }
{}

// PIKHSEN_ARGON2D, PIKHSEN_ARGON2I and PIKHSEN_ARGON2ID.
fn kinds_by_number()
    ensures zero { kind_numbered 0 ≡ D }
    ensures one { kind_numbered 1 ≡ I }
    ensures two { kind_numbered 2 ≡ Id }
{}

// Each number, and each text, goes to its own place.
fn places_of_what_is_given()
    ensures kind { (parameters_of_numbers 2 0x10 3 4 5 6 7 8).kind ≡ 2 }
    ensures version { (parameters_of_numbers 2 0x10 3 4 5 6 7 8).version ≡ 0x10 }
    ensures passes { (parameters_of_numbers 2 0x10 3 4 5 6 7 8).passes ≡ 3 }
    ensures lanes { (parameters_of_numbers 2 0x10 3 4 5 6 7 8).lanes ≡ 4 }
    ensures memory { (parameters_of_numbers 2 0x10 3 4 5 6 7 8).memory_kib ≡ 5 }
    ensures tag { (parameters_of_numbers 2 0x10 3 4 5 6 7 8).tag_len ≡ 6 }
    ensures salt { (parameters_of_numbers 2 0x10 3 4 5 6 7 8).salt_len ≡ 7 }
    ensures password { (parameters_of_numbers 2 0x10 3 4 5 6 7 8).password_len ≡ 8 }
    ensures password_text { (inputs_given (codes "p") (codes "s") (codes "k") (codes "x")).password ≡ codes "p" }
    ensures salt_text { (inputs_given (codes "p") (codes "s") (codes "k") (codes "x")).salt ≡ codes "s" }
    ensures secret_text { (inputs_given (codes "p") (codes "s") (codes "k") (codes "x")).secret ≡ codes "k" }
    ensures associated_text { (inputs_given (codes "p") (codes "s") (codes "k") (codes "x")).associated ≡ codes "x" }
    ensures log_n { (costs_of_numbers 4 3 5).log_n ≡ 4 }
    ensures r { (costs_of_numbers 4 3 5).r ≡ 3 }
    ensures p { (costs_of_numbers 4 3 5).p ≡ 5 }
{}

// A hash: the kind, the version, each range, the lengths of secret and associated data, the limits. The last
// parameters have 8 blocks, of which 6 are made from other ones (RFC 9106, 3.2).
fn refusals_of_a_hash()
    ensures kind { hash_status (parameters_of_numbers 3 0 0 0 0 0 0 0) (2 ^ 32) (2 ^ 32) 0 0 ≡ 10 }
    ensures version { hash_status (parameters_of_numbers 2 0x12 0 0 0 0 0 0) (2 ^ 32) (2 ^ 32) 0 0 ≡ 11 }
    ensures passes { hash_status (parameters_of_numbers 2 0x13 0 0 0 0 0 0) (2 ^ 32) (2 ^ 32) 0 0 ≡ 1 }
    ensures lanes { hash_status (parameters_of_numbers 1 0x10 1 0 2147483648 0 0 0) (2 ^ 32) (2 ^ 32) 0 0 ≡ 2 }
    ensures memory { hash_status (parameters_of_numbers 1 0x10 1 1 7 0 0 0) (2 ^ 32) (2 ^ 32) 0 0 ≡ 3 }
    ensures tag { hash_status (parameters_of_numbers 0 0x13 1 1 8 3 0 0) (2 ^ 32) (2 ^ 32) 0 0 ≡ 4 }
    ensures salt { hash_status (parameters_of_numbers 0 0x13 1 1 8 32 7 0) (2 ^ 32) (2 ^ 32) 0 0 ≡ 5 }
    ensures password { hash_status (parameters_of_numbers 0 0x13 1 1 8 32 8 (2 ^ 32)) (2 ^ 32) (2 ^ 32) 0 0 ≡ 6 }
    ensures secret { hash_status (parameters_of_numbers 0 0x13 1 1 8 32 8 8) (2 ^ 32) 0 7 5 ≡ 12 }
    ensures associated { hash_status (parameters_of_numbers 0 0x13 1 1 8 32 8 8) 0 (2 ^ 32) 7 5 ≡ 12 }
    ensures memory_limit { hash_status (parameters_of_numbers 0 0x13 1 1 8 32 8 8) (2 ^ 32 - 1) (2 ^ 32 - 1) 7 5 ≡ 7 }
    ensures work_limit { hash_status (parameters_of_numbers 0 0x13 1 1 8 32 8 8) (2 ^ 32 - 1) (2 ^ 32 - 1) 8 5 ≡ 8 }
    ensures none { hash_status (parameters_of_numbers 0 0x13 1 1 8 32 8 8) (2 ^ 32 - 1) (2 ^ 32 - 1) 8 6 ≡ 0 }
    ensures empty_password { hash_status (parameters_of_numbers 0 0x13 1 1 8 32 8 0) 0 0 8 6 ≡ 0 }
    ensures longest_password { hash_status (parameters_of_numbers 0 0x13 1 1 8 32 8 (2 ^ 32 - 1)) 0 0 8 6 ≡ 0 }
{}

// A text: the parameters, the limits, and last the room, for the byte 0 after the text, too.
fn refusals_of_a_text()
    ensures kind { hash_to_encoded_status (parameters_of_numbers 3 0 0 0 0 0 0 0) (codes "somesalt") 0 0 0 ≡ 10 }
    ensures password { hash_to_encoded_status (parameters_of_numbers 0 0x13 1 1 8 32 8 (2 ^ 32)) (codes "somesalt") 0 0 0 ≡ 6 }
    ensures empty_password { hash_to_encoded_status (parameters_of_numbers 0 0x13 1 1 8 32 8 0) (codes "somesalt") 7 5 0 ≡ 7 }
    ensures memory_limit { hash_to_encoded_status (parameters_of_numbers 0 0x13 1 1 8 32 8 8) (codes "somesalt") 7 5 0 ≡ 7 }
    ensures work_limit { hash_to_encoded_status (parameters_of_numbers 0 0x13 1 1 8 32 8 8) (codes "somesalt") 8 5 0 ≡ 8 }
    ensures no_room_for_zero { room_status 81 81 ≡ 13 }
    ensures room_for_zero { room_status 81 82 ≡ 0 }
{}

// The same with a secret and associated data: their lengths are tested after the parameters, before the limits.
fn refusals_of_a_text_with_a_secret()
    ensures password { encoded_keyed_status (parameters_of_numbers 0 0x13 1 1 8 32 8 (2 ^ 32))
        (codes "somesalt") (2 ^ 32) 0 0 0 0 ≡ 6 }
    ensures secret { encoded_keyed_status (parameters_of_numbers 0 0x13 1 1 8 32 8 8)
        (codes "somesalt") (2 ^ 32) 0 7 5 0 ≡ 12 }
    ensures associated { encoded_keyed_status (parameters_of_numbers 0 0x13 1 1 8 32 8 8)
        (codes "somesalt") 0 (2 ^ 32) 7 5 0 ≡ 12 }
    ensures memory_limit { encoded_keyed_status (parameters_of_numbers 0 0x13 1 1 8 32 8 8) (codes "somesalt")
        (2 ^ 32 - 1) (2 ^ 32 - 1) 7 5 0 ≡ 7 }
    ensures work_limit { encoded_keyed_status (parameters_of_numbers 0 0x13 1 1 8 32 8 8) (codes "somesalt")
        (2 ^ 32 - 1) (2 ^ 32 - 1) 8 5 0 ≡ 8 }
{}

// The text of the reference program, by the tag that it gives for the same words (argon's vectors compute it).
fn text_of_the_reference_program()
    ensures text { argon2_tag (parameters_of_numbers 0 0x13 1 1 8 32 8 8)
        (inputs_given (codes "password") (codes "somesalt") [] []) ≡ sample_encoded_value.tag →
        encoded_hash (parameters_of_numbers 0 0x13 1 1 8 32 8 8) (codes "password") (codes "somesalt") ≡ sample_encoded_text }
{}

// Secret and associated data go to the hash, and not into its text: the same text, where they give the tag.
fn text_of_a_hash_with_a_secret()
    ensures text { argon2_tag (parameters_of_numbers 0 0x13 1 1 8 32 8 8)
        (inputs_given (codes "password") (codes "somesalt") (codes "k") (codes "x")) ≡ sample_encoded_value.tag →
        encoded_keyed_hash (parameters_of_numbers 0 0x13 1 1 8 32 8 8) (codes "password") (codes "somesalt")
        (codes "k") (codes "x") ≡ sample_encoded_text }
{}

// The start of a stream: that none runs, and then what an encryption of a text of no bytes, or a file, is refused for.
fn refusals_of_a_start()
    ensures encryption { encrypt_start_status 1 (costs_of_numbers 64 0 1) 3 0 0 31 0 ≡ 37 }
    ensures costs { encrypt_start_status 0 (costs_of_numbers 64 0 1) 3 0 0 31 0 ≡ 17 }
    ensures head { encrypt_start_status 0 (costs_of_numbers 4 1 1) 4 512 160 32 95 ≡ 13 }
    ensures none { encrypt_start_status 0 (costs_of_numbers 4 1 1) 4 512 160 32 96 ≡ 0 }
    ensures decryption { decrypt_start_status 2 [] 1 0 0 ≡ 37 }
    ensures short { decrypt_start_status 0 [] 1 0 0 ≡ 26 }
{}

// What the text of the reference program says.
fn value_of_the_reference_program()
    ensures value { value_to_encode (parameters_of_numbers 0 0x13 1 1 8 32 8 8)
        (codes "somesalt") sample_encoded_value.tag ≡ sample_encoded_value }
{}

// A key: the costs, its length, which rows are kept, and the limits. With S = 4 a quarter of the 2,048 bytes of V is
// kept, and at most 2 * r * p * N * (1 + S) cores are run (RFC 7914, 4 to 6). No more than 2^40 bytes are asked for,
// whatever the limit.
fn refusals_of_a_key()
    ensures log_n { scrypt_status (costs_of_numbers 0 0 0) 3 0 0 (2 ^ 40) ≡ 17 }
    ensures zero { scrypt_status (costs_of_numbers 4 0 1) 3 0 0 (2 ^ 40) ≡ 18 }
    ensures zero_p { scrypt_status (costs_of_numbers 4 1 0) 3 0 0 (2 ^ 40) ≡ 18 }
    ensures product { scrypt_status (costs_of_numbers 4 32768 32768) 3 0 0 (2 ^ 40) ≡ 19 }
    ensures length { scrypt_status (costs_of_numbers 4 1 1) 3 0 0 (32 * (2 ^ 32 - 1) + 1) ≡ 13 }
    ensures keep { scrypt_status (costs_of_numbers 4 1 1) 3 0 0 (32 * (2 ^ 32 - 1)) ≡ 20 }
    ensures keep_above_n { scrypt_status (costs_of_numbers 4 1 1) 32 0 0 32 ≡ 21 }
    ensures memory_limit { scrypt_status (costs_of_numbers 4 1 1) 4 511 159 32 ≡ 7 }
    ensures work_limit { scrypt_status (costs_of_numbers 4 1 1) 4 512 159 32 ≡ 8 }
    ensures none { scrypt_status (costs_of_numbers 4 1 1) 4 512 160 32 ≡ 0 }
    ensures greatest { scrypt_status (costs_of_numbers 33 1 1) 1 (2 ^ 63) (2 ^ 63) 32 ≡ 0 }
    ensures above_2_40_bytes { scrypt_status (costs_of_numbers 34 1 1) 1 (2 ^ 63) (2 ^ 63) 32 ≡ 7 }
    ensures bytes_below { (limits_of_numbers 2048 64).max_bytes ≡ 2048 }
    ensures greatest_bytes { (limits_of_numbers (2 ^ 40 - 1) 64).max_bytes ≡ 2 ^ 40 - 1 }
    ensures bytes_above { (limits_of_numbers (2 ^ 40 + 1) 64).max_bytes ≡ 2 ^ 40 }
    ensures cores { (limits_of_numbers 2048 64).max_ops ≡ 64 }
{}

// An encryption: the costs, the lengths of salt, text and file, which rows are kept, and the limits. A file has 128
// bytes more than its text (FORMAT of Tarsnap's scrypt).
fn refusals_of_an_encryption()
    ensures costs { encrypt_status (costs_of_numbers 64 0 1) 3 0 0 31 (2 ^ 60) 0 ≡ 17 }
    ensures salt { encrypt_status (costs_of_numbers 4 1 1) 3 0 0 31 (2 ^ 60) 0 ≡ 30 }
    ensures text { encrypt_status (costs_of_numbers 4 1 1) 3 0 0 32 (2 ^ 60) 0 ≡ 29 }
    ensures longest { encrypt_status (costs_of_numbers 4 1 1) 3 0 0 32 (2 ^ 60 - 1) 0 ≡ 13 }
    ensures file { encrypt_status (costs_of_numbers 4 1 1) 3 0 0 32 5 132 ≡ 13 }
    ensures longer_file { encrypt_status (costs_of_numbers 4 1 1) 3 0 0 32 5 134 ≡ 13 }
    ensures keep { encrypt_status (costs_of_numbers 4 1 1) 3 0 0 32 5 133 ≡ 20 }
    ensures memory_limit { encrypt_status (costs_of_numbers 4 1 1) 4 511 159 32 5 133 ≡ 7 }
    ensures work_limit { encrypt_status (costs_of_numbers 4 1 1) 4 512 159 32 5 133 ≡ 8 }
    ensures none { encrypt_status (costs_of_numbers 4 1 1) 4 512 160 32 5 133 ≡ 0 }
{}

// A file: the buffer, its own length, its header.
fn refusals_of_a_file()
    ensures buffer { front_status (replicate 95 0) 3 0 0 94 ≡ 13 }
    ensures short { front_status (replicate 95 0) 3 0 0 95 ≡ 26 }
    ensures magic { front_status (replicate 96 0) 3 0 0 96 ≡ 22 }
    ensures version { front_status (codes "scrypt" ++ replicate 90 1) 3 0 0 96 ≡ 23 }
    ensures short_header { header_status (replicate 63 0) ≡ 26 }
    ensures whole_header { header_status (replicate 64 0) ≡ 22 }
    ensures version_of_header { header_status (codes "scrypt" ++ replicate 58 1) ≡ 23 }
{}

// The front of a real file, with 2,048 bytes of V and 64 cores (RFC 7914, 4 to 6), under limits on both sides of these; with S of
// 3, of 32, which is above N, and of 2, with which V has 1,024 bytes; and cut, or with too little room.
fn limits_of_a_known_file()
    ensures front { front_status front_of_hello 1 2048 64 96 ∷ front_status front_of_hello 1 2047 64 96 ∷ front_status front_of_hello 1 2048 63 96 ∷ front_status front_of_hello 1 2047 63 96 ∷ front_status front_of_hello 3 2048 64 96
        ∷ front_status front_of_hello 32 2048 64 96 ∷ front_status front_of_hello 1 5000 64 96 ∷ front_status front_of_hello 1 2048 5000 96 ∷ front_status front_of_hello 2 1024 200 96 ∷ front_status front_of_hello 2 1023 200 96 ∷ []
        ≡ 0 ∷ 7 ∷ 8 ∷ 7 ∷ 20 ∷ 21 ∷ 0 ∷ 0 ∷ 0 ∷ 7 ∷ [] }
    ensures start { decrypt_start_status 0 front_of_hello 1 2048 64 ∷ decrypt_start_status 0 front_of_hello 1 2047 64 ∷ decrypt_start_status 0 front_of_hello 1 2048 63 ∷ decrypt_start_status 0 front_of_hello 1 2047 63
        ∷ decrypt_start_status 0 front_of_hello 3 2048 64 ∷ decrypt_start_status 0 front_of_hello 32 2048 64 ∷ decrypt_start_status 0 front_of_hello 1 5000 64 ∷ decrypt_start_status 0 front_of_hello 1 2048 5000
        ∷ decrypt_start_status 0 front_of_hello 2 1024 200 ∷ decrypt_start_status 0 front_of_hello 2 1023 200 ∷ []
        ≡ 0 ∷ 7 ∷ 8 ∷ 7 ∷ 20 ∷ 21 ∷ 0 ∷ 0 ∷ 0 ∷ 7 ∷ [] }
    ensures short { front_status (take 95 front_of_hello) 1 2048 64 95 ≡ 26 }
    ensures buffer { front_status front_of_hello 1 2048 64 95 ≡ 13 }
    ensures short_start { decrypt_start_status 0 (take 95 front_of_hello) 1 2048 64 ≡ 26 }
    ensures running { decrypt_start_status 2 front_of_hello 1 2048 64 ≡ 37 }
    ensures header { header_status (take 64 front_of_hello) ≡ 0 }
    ensures short_header { header_status (take 63 front_of_hello) ≡ 26 }
{}

// The text with a tag of zeros, in the form of the reference program (encoding.c: encode_string), of 83 symbols; so 84 bytes are
// enough. It takes 64 blocks.
fn texts_with_a_tag_of_zeros()
    ensures text { encoded_text_with_zero_tag (parameters_of_numbers 2 0x13 3 2 64 32 8 8) (codes "somesalt") ≡ codes "$argon2id$v=19$m=64,t=3,p=2$c29tZXNhbHQ$AAAAAAAAAAAAAAAAAAAAAAAAAAAAAAAAAAAAAAAAAAA" }
    ensures room { map (hash_to_encoded_status (parameters_of_numbers 2 0x13 3 2 64 32 8 8) (codes "somesalt") 64 5000) (83 ∷ 84 ∷ 5000 ∷ []) ≡ 13 ∷ 0 ∷ 0 ∷ [] }
    ensures keyed_room { map (encoded_keyed_status (parameters_of_numbers 2 0x13 3 2 64 32 8 8) (codes "somesalt") 1 2 64 5000) (83 ∷ 84 ∷ 5000 ∷ []) ≡ 13 ∷ 0 ∷ 0 ∷ [] }
    ensures keyed_memory { encoded_keyed_status (parameters_of_numbers 2 0x13 3 2 64 32 8 8) (codes "somesalt") 1 2 63 5000 200 ≡ 7 }
    ensures keyed_secret { encoded_keyed_status (parameters_of_numbers 2 0x13 3 2 64 32 8 8) (codes "somesalt") (2 ^ 32) 2 64 5000 200 ≡ 12 }
    ensures keyed_associated { encoded_keyed_status (parameters_of_numbers 2 0x13 3 2 64 32 8 8) (codes "somesalt") 2 (2 ^ 32) 64 5000 200 ≡ 12 }
{}

// The cores are those of the same costs, salt and S in `romix`, where they are not computed again.
fn cores_of_calls()
    ensures key { salsa20_cores_of_numbers (codes "pw") (codes "salt") 2 3 5 4 ≡
        sparse_table_core_count (codes "pw") (codes "salt") (record { costs = record { log_n = 2; r = 3; p = 5 }; keep = 4 }) }
    ensures file { salsa20_cores_to_open (codes "pw") front_of_hello 16 ≡
        sparse_table_core_count (codes "pw") (range_with_len 0 32) (record { costs = record { log_n = 4; r = 1; p = 1 }; keep = 16 }) }
{}

// A request that was granted counts there, and one that was refused here.
fn counts_of_requests()
    ensures granted { one_more (record { granted = 3; refused = 5 }) true ≡ record { granted = 4; refused = 5 } }
    ensures refused { one_more (record { granted = 3; refused = 5 }) false ≡ record { granted = 3; refused = 6 } }
{}

// The comments of enum pikhsen_status in include/pikhsen.h.
fn sentences_of_numbers()
    ensures ok { sentence_of 0 ≡ codes "the call did its work" }
    ensures passes { sentence_of 1 ≡ codes "Argon2: passes are not 1 to 2^32-1" }
    ensures lanes { sentence_of 2 ≡ codes "Argon2: lanes are not 1 to 2^24-1" }
    ensures memory { sentence_of 3 ≡ codes "Argon2: memory is not 8 * lanes to 2^32-1 KiB" }
    ensures tag_length { sentence_of 4 ≡ codes "Argon2: the tag is not 4 to 4096 bytes long" }
    ensures salt_length { sentence_of 5 ≡ codes "Argon2: the salt is not 8 to 255 bytes long" }
    ensures password_length { sentence_of 6 ≡ codes "Argon2: the password is 2^32 bytes or longer" }
    ensures memory_limit { sentence_of 7 ≡ codes "more memory is needed than the limit allows" }
    ensures work_limit { sentence_of 8 ≡ codes "more work is needed than the limit allows" }
    ensures out_of_memory { sentence_of 9 ≡ codes "memory was refused" }
    ensures kind { sentence_of 10 ≡ codes "Argon2: the kind is not 0, 1 or 2" }
    ensures argon2_version { sentence_of 11 ≡ codes "Argon2: the version is not 0x10 or 0x13" }
    ensures input_length { sentence_of 12 ≡ codes "Argon2: the secret or the data is 2^32 bytes or longer" }
    ensures buffer { sentence_of 13 ≡ codes "out is not as long as the function needs" }
    ensures not_encoded { sentence_of 14 ≡ codes "the text is not an encoded hash" }
    ensures out_of_range { sentence_of 15 ≡ codes "the text is an encoded hash with a value out of range" }
    ensures mismatch { sentence_of 16 ≡ codes "the password is not that of the text" }
    ensures log_n { sentence_of 17 ≡ codes "scrypt: log2 N is not 1 to 63" }
    ensures zero { sentence_of 18 ≡ codes "scrypt: r or p is below 1" }
    ensures product { sentence_of 19 ≡ codes "scrypt: r * p is 2^30 or more" }
    ensures keep { sentence_of 20 ≡ codes "scrypt: keep is not a power of two from 1 to 1024" }
    ensures keep_above_n { sentence_of 21 ≡ codes "scrypt: keep is above N" }
    ensures magic { sentence_of 22 ≡ codes "file: it does not begin with \"scrypt\"" }
    ensures format_version { sentence_of 23 ≡ codes "file: the version of its format is not 0" }
    ensures checksum { sentence_of 24 ≡ codes "file: the checksum of its header is wrong" }
    ensures file_costs { sentence_of 25 ≡ codes "file: its costs are out of range" }
    ensures too_short { sentence_of 26 ≡ codes "file: it is shorter than 96 bytes, or than 64 to read its costs alone" }
    ensures wrong_passphrase { sentence_of 27 ≡ codes "file: the passphrase is not the file's" }
    ensures damaged { sentence_of 28 ≡ codes "file: it is damaged, or cut short, after its first 96 bytes" }
    ensures too_long { sentence_of 29 ≡ codes "file: the text is 2^60 bytes or longer" }
    ensures file_salt { sentence_of 30 ≡ codes "file: the salt is not 32 bytes long" }
    ensures text_version { sentence_of 31 ≡ codes "text: its version is not 16 or 19" }
    ensures text_passes { sentence_of 32 ≡ codes "text: its passes are not 1 to 2^32-1" }
    ensures text_lanes { sentence_of 33 ≡ codes "text: its lanes are not 1 to 2^24-1" }
    ensures text_memory { sentence_of 34 ≡ codes "text: its memory is not 8 * lanes to 2^32-1 KiB" }
    ensures text_tag { sentence_of 35 ≡ codes "text: its tag is not 4 to 4096 bytes long" }
    ensures text_salt { sentence_of 36 ≡ codes "text: its salt is not 8 to 255 bytes long" }
    ensures stream { sentence_of 37 ≡ codes "file: the stream runs already, or does not run in this direction" }
    ensures other { sentence_of 1000 ≡ codes "unknown number" }
{}
