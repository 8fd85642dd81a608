//! What the checker computes of the definitions in specs/: words, files, passwords, limits; and a whole run.
ghost use Rattle.std.specs.Prelude.{◌≡◌, ◌≢◌, [], ◌∷◌, ◌++◌, ◌+◌, true, Ok, Err, None, Some, codes, length, replicate};
ghost use Rattle.argon_text.specs.Vectors.{sample_encoded_fields, sample_encoded_text, sample_encoded_value};
ghost use Rattle.argon_text.specs.declared.fault.ReadFault.TheVariants as reading;
ghost use Rattle.host.specs.Faults.{no_faults};
ghost use Rattle.host.specs.HostState.{placeholder_host_state, stdin_once};
ghost use Rattle.argon2_verify.specs.Hash.{read_refusal};
ghost use Rattle.argon2_verify.specs.Memory.{after_matrix, after_text};
ghost use Rattle.argon2_verify.specs.Reading.{after_file_read, after_password_asked, after_reading, hash_line, password_in};
ghost use Rattle.argon2_verify.specs.Run.{Differs, Verifies, faults_after_refusal, limits_refusal, line_of, tag_of_password, verify_request};
ghost use Rattle.argon2_verify.specs.declared.refusal.VerifyRefusal.TheVariants as refusal;

// The limits where no option sets them, which are those of argon2; those of both options, with leading zeros and at their
// ends; the last of two counts.
fn requests_of_words()
    ensures plain { verify_request (codes "hash" ∷ [])
        ≡ Ok (record { file = codes "hash"; limits = record { max_kib = 4194304; max_ops = 8589934592 } }) }
    ensures both { verify_request (codes "--maxmem" ∷ codes "0256" ∷ codes "--maxops" ∷ codes "526" ∷ codes "hash" ∷ [])
        ≡ Ok (record { file = codes "hash"; limits = record { max_kib = 256; max_ops = 526 } }) }
    ensures greatest { verify_request (codes "--maxops" ∷ codes "9223372036854775807" ∷ codes "--maxmem" ∷ codes "4294967295" ∷ codes "a" ∷ [])
        ≡ Ok (record { file = codes "a"; limits = record { max_kib = 4294967295; max_ops = 9223372036854775807 } }) }
    ensures last { verify_request (codes "--maxmem" ∷ codes "1" ∷ codes "--maxmem" ∷ codes "2" ∷ codes "--maxops" ∷ codes "3" ∷ codes "a" ∷ [])
        ≡ Ok (record { file = codes "a"; limits = record { max_kib = 2; max_ops = 3 } }) }
    ensures empty_name { verify_request ([] ∷ [])
        ≡ Ok (record { file = []; limits = record { max_kib = 4194304; max_ops = 8589934592 } }) }
{}

// The first fault from the left.
fn refusals_of_words()
    ensures no_words { verify_request [] ≡ Err refusal.Usage }
    ensures no_file { verify_request (codes "--maxmem" ∷ codes "1" ∷ []) ≡ Err refusal.Usage }
    ensures no_value { verify_request (codes "--maxmem" ∷ []) ≡ Err refusal.Usage }
    ensures dash { verify_request (codes "-" ∷ []) ≡ Err refusal.Usage }
    ensures two_files { verify_request (codes "a" ∷ codes "b" ∷ []) ≡ Err refusal.Usage }
    ensures no_memory { verify_request (codes "--maxmem" ∷ codes "0" ∷ codes "a" ∷ []) ≡ Err refusal.BadNumber }
    ensures memory_above { verify_request (codes "--maxmem" ∷ codes "4294967296" ∷ codes "a" ∷ []) ≡ Err refusal.BadNumber }
    ensures least_work { verify_request (codes "--maxops" ∷ codes "1" ∷ codes "a" ∷ [])
        ≡ Ok (record { file = codes "a"; limits = record { max_kib = 4194304; max_ops = 1 } }) }
    ensures no_work { verify_request (codes "--maxops" ∷ codes "0" ∷ codes "a" ∷ []) ≡ Err refusal.BadNumber }
    ensures work_above { verify_request (codes "--maxops" ∷ codes "9223372036854775808" ∷ codes "a" ∷ []) ≡ Err refusal.BadNumber }
    ensures number_first { verify_request (codes "--maxops" ∷ codes "x" ∷ codes "-q" ∷ codes "1" ∷ codes "a" ∷ []) ≡ Err refusal.BadNumber }
    ensures word_first { verify_request (codes "-q" ∷ codes "1" ∷ codes "--maxops" ∷ codes "x" ∷ codes "a" ∷ []) ≡ Err refusal.Usage }
{}

// Each byte of standard input belongs to the password, of which 4,096 are taken.
fn passwords_of_standard_input()
    ensures line_feed { password_in (Some (codes "pw\n")) ≡ Ok (codes "pw\n") }
    ensures empty { password_in (Some []) ≡ Ok [] }
    ensures longest { password_in (Some (replicate 4096 7)) ≡ Ok (replicate 4096 7) }
    ensures long { password_in (Some (replicate 4097 7)) ≡ Err refusal.LongPassword }
    ensures no_input { password_in None ≡ Err refusal.PasswordFault }
{}

// A line ends before the first LF, CR or byte 0; a file may have none of these, or nothing before it.
fn lines_of_files()
    ensures line_feed { hash_line (codes "ab\nc\n") ≡ codes "ab" }
    ensures carriage_return { hash_line (97 ∷ 13 ∷ 10 ∷ []) ≡ codes "a" }
    ensures zeros { hash_line (97 ∷ 98 ∷ 0 ∷ 0 ∷ 10 ∷ []) ≡ codes "ab" }
    ensures no_end { hash_line (codes "a b") ≡ codes "a b" }
    ensures empty { hash_line (0 ∷ 97 ∷ []) ≡ [] }
{}

// The file's first line is read with its end, and at most 8,192 bytes, before the password is asked for.
fn hosts_of_a_run()
    ensures opened { (after_file_read (codes "hash") placeholder_host_state).input_opened ≡ Some (Some (codes "hash")) }
    ensures unasked { (after_file_read (codes "hash") placeholder_host_state).asked ≡ None }
    ensures whole { (after_file_read (codes "hash") (record placeholder_host_state { input = codes "abc" })).input ≡ [] }
    ensures behind { (after_file_read (codes "hash") (record placeholder_host_state { input = codes "ab\ncd" })).input ≡ codes "cd" }
    ensures part { length (after_file_read (codes "hash") (record placeholder_host_state { input = replicate 8195 7 })).input ≡ 3 }
    ensures some { (after_reading (codes "hash") 2 (record placeholder_host_state { input = codes "abc" })).input ≡ codes "c" }
    ensures asked { (after_password_asked (codes "hash") placeholder_host_state).asked ≡ Some stdin_once }
{}

// printf password | argon2 somesalt -d -t 1 -k 8 -e: 8 blocks, and 6 block functions. Memory is told first.
fn limits_of_a_hash()
    ensures admitted { limits_refusal (record { max_kib = 8; max_ops = 6 }) sample_encoded_value ≡ None }
    ensures memory { limits_refusal (record { max_kib = 7; max_ops = 5 }) sample_encoded_value ≡ Some refusal.MemoryLimit }
    ensures work { limits_refusal (record { max_kib = 8; max_ops = 5 }) sample_encoded_value ≡ Some refusal.WorkLimit }
{}

fn refusals_of_texts()
    ensures grammar { read_refusal reading.NotInGrammar ≡ refusal.NotHash }
    ensures range { read_refusal reading.OutOfRange ≡ refusal.OutOfRange }
    ensures memory { read_refusal reading.OutOfMemory ≡ refusal.OutOfMemory }
{}

// A call of the host that failed raises its own count; nothing else raises any.
fn counts_of_refusals()
    ensures file { (faults_after_refusal refusal.FileFault no_faults).input ≡ 1 }
    ensures password { (faults_after_refusal refusal.PasswordFault no_faults).secrets ≡ 1 }
    ensures others { faults_after_refusal refusal.LongPassword no_faults ≡ no_faults }
{}

// docs/REFUSALS.md, the table of argon2-verify: the line of each.
fn lines_of_refusals()
    ensures usage { line_of refusal.Usage ≡ codes "argon2-verify: usage: argon2-verify [--maxmem KIB] [--maxops N] file" }
    ensures bad_number { line_of refusal.BadNumber ≡ codes "argon2-verify: bad number" }
    ensures file { line_of refusal.FileFault ≡ codes "argon2-verify: file cannot be read" }
    ensures file_is_stdin { line_of refusal.FileIsStdin ≡ codes "argon2-verify: file is standard input, which gives the password" }
    ensures not_hash { line_of refusal.NotHash ≡ codes "argon2-verify: the file's first line is no encoded hash" }
    ensures out_of_range { line_of refusal.OutOfRange ≡ codes "argon2-verify: a number of the hash, or the length of its salt or tag, is out of range" }
    ensures memory_limit { line_of refusal.MemoryLimit ≡ codes "argon2-verify: more memory needed than --maxmem allows" }
    ensures work_limit { line_of refusal.WorkLimit ≡ codes "argon2-verify: more work needed than --maxops allows" }
    ensures password { line_of refusal.PasswordFault ≡ codes "argon2-verify: password cannot be read" }
    ensures long_password { line_of refusal.LongPassword ≡ codes "argon2-verify: password is longer than 4096 bytes" }
    ensures out_of_memory { line_of refusal.OutOfMemory ≡ codes "argon2-verify: out of memory" }
{}

// The salt and then the tag of the text's fields, and the matrix of the value's parameters, under the limits.
fn requests_for_memory()
    ensures text { after_text (λ before symbols granted. symbols ++ 0 ∷ before) (Some sample_encoded_fields) []
        ≡ sample_encoded_fields.tag ++ 0 ∷ (sample_encoded_fields.salt ++ 0 ∷ []) }
    ensures granted { after_text (λ before symbols granted. granted ∷ before) (Some sample_encoded_fields) [] ≡ true ∷ true ∷ [] }
    ensures no_text { after_text (λ before symbols granted. symbols) None (codes "s") ≡ codes "s" }
    ensures matrix { after_matrix (λ before p max_kib max_ops granted. before + p.memory_kib + p.password_len + max_kib + max_ops)
        sample_encoded_value (codes "pw") (record { max_kib = 100; max_ops = 1000 }) true 10000 ≡ 11110 }
{}

// A whole run: printf password | argon2 somesalt -d -t 1 -k 8 -e >hash, whose tag is computed by the vectors of argon; then
// printf password | argon2-verify hash. Another password, whose tag is another.
fn whole_runs()
    ensures right { tag_of_password sample_encoded_value (codes "password") ≡ sample_encoded_value.tag →
        Verifies true (codes "hash" ∷ [])
        (record placeholder_host_state { input = sample_encoded_text ++ codes "\nother"; stdin = Some (codes "password") })
        (record placeholder_host_state { input = codes "other"; input_opened = Some (Some (codes "hash")); stdin = Some (codes "password"); asked = Some stdin_once }) }
    ensures wrong { tag_of_password sample_encoded_value (codes "Password") ≢ sample_encoded_value.tag →
        Differs true (codes "hash" ∷ [])
        (record placeholder_host_state { input = sample_encoded_text; stdin = Some (codes "Password") })
        (record placeholder_host_state { input_opened = Some (Some (codes "hash")); stdin = Some (codes "Password"); asked = Some stdin_once }) }
{}
