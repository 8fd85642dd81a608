//! Vectors that the checker computes by the definitions alone.
ghost use Rattle.std.specs.Prelude.{◌≡◌, ◌++◌, [], ◌∷◌, Some, None, codes, false, replicate, true};
ghost use Rattle.encfile.specs.EncryptedFile.{body, encrypted_file, released_text};
ghost use Rattle.encfile.specs.Front.{front_refusal};
ghost use Rattle.encfile.specs.Front.FrontRefusal.{KeepAboveN, NotScryptData, TooMuchMemory, TooMuchWork, UnsupportedVersion, WrongPassphrase};
ghost use Rattle.host.specs.HostState.{env, file, stdin_once};
ghost use Rattle.host.specs.Vectors.{sample_host};
ghost use Rattle.scrypt_run.specs.Asking.{source_after_workspace_request};
ghost use Rattle.scrypt_run.specs.Decrypting.{front_refusal_of, input_refusal_before_passphrase, released_text_of_header_and_rest};
ghost use Rattle.scrypt_run.specs.Encrypting.{after_salting, costs_refusal_of, after_salt_asked, decided, salt_used};
ghost use Rattle.scrypt_run.specs.Front.{after_front};
ghost use Rattle.scrypt_run.specs.Laws.{request_with_keep, source_of_request};
ghost use Rattle.scrypt_run.specs.Inspecting.{costs_line, costs_line_of_input};
ghost use Rattle.scrypt_run.specs.Passphrase.{first_line_of_source};
ghost use Rattle.scrypt_run.specs.Refusal.{refusal_of};
ghost use Rattle.scrypt_request.specs.Request.{allowance_of, decrypt, encrypt, inspect};
ghost use Rattle.scrypt_run.specs.Run.{salsa20_cores_of_request, most_salsa20_cores};
ghost use Rattle.scrypt_run.specs.Steps.{after_pull_and_push, after_reading_first_bytes, after_passphrase_asked};
ghost use Rattle.scrypt_run.specs.Vectors.{sample_header_costs, sample_encryption, sample_task};
ghost use Rattle.scrypt_request.specs.declared.refusal.ScryptRefusal.{ScryptRefusal};

// 128 * N * r bytes and 4 * N * r * p cores, also where the costs are those of a header.
fn costs_lines()
    ensures of_small_costs { costs_line (record { log_n = 4; r = 1; p = 1 })
        ≡ codes "N = 16; r = 1; p = 1; memory = 2048; cores = 64\n" }
    ensures of_large_costs { costs_line (record { log_n = 14; r = 8; p = 2 })
        ≡ codes "N = 16384; r = 8; p = 2; memory = 16777216; cores = 1048576\n" }
    ensures of_an_input { costs_line_of_input (record sample_host { input = sample_header_costs }) ≡ codes "N = 32; r = 1; p = 2; memory = 4096; cores = 256\n" }
{}

// The memory of a derivation is that of the costs, with the S of the task.
fn memory_of_a_derivation()
    ensures keep { source_after_workspace_request (λ before sparse granted. sparse.keep) 0 (sample_task 4 3 2) (record { log_n = 5; r = 6; p = 7 }) true ≡ 4 }
    ensures costs { source_after_workspace_request (λ before sparse granted. sparse.costs.r) 0 (sample_task 4 3 2) (record { log_n = 5; r = 6; p = 7 }) true ≡ 6 }
{}

// S6 to S10 and S16b are told of a file.
fn refusals_of_files()
    ensures none { refusal_of NotScryptData ≡ ScryptRefusal.NotScryptData }
    ensures version { refusal_of UnsupportedVersion ≡ ScryptRefusal.UnsupportedVersion }
    ensures keep { refusal_of KeepAboveN ≡ ScryptRefusal.KeepAboveN }
    ensures memory { refusal_of TooMuchMemory ≡ ScryptRefusal.MemoryLimit }
    ensures work { refusal_of TooMuchWork ≡ ScryptRefusal.WorkLimit }
    ensures passphrase { refusal_of WrongPassphrase ≡ ScryptRefusal.WrongPassphrase }
{}

// Of a new file S16b, S8 and S9 are tested by its costs: 2,048 bytes and 64 cores.
fn refusals_before_the_input()
    ensures keep { costs_refusal_of (sample_encryption None (sample_task 32 1 1)) ≡ Some KeepAboveN }
    ensures memory { costs_refusal_of (sample_encryption None (sample_task 1 2047 63)) ≡ Some TooMuchMemory }
    ensures work { costs_refusal_of (sample_encryption None (sample_task 1 2048 63)) ≡ Some TooMuchWork }
    ensures none { costs_refusal_of (sample_encryption None (sample_task 1 2048 64)) ≡ None }
    ensures allowed_keep { (allowance_of (sample_task 4 3 2)).keep ≡ 4 }
    ensures allowed_bytes { (allowance_of (sample_task 4 3 2)).limits.max_bytes ≡ 3 }
    ensures allowed_cores { (allowance_of (sample_task 4 3 2)).limits.max_ops ≡ 2 }
{}

// A salt that is given is used, and the host is asked for one where none is.
fn salts_of_files()
    ensures given { salt_used (Some (codes "given")) sample_host ≡ codes "given" }
    ensures not_given { salt_used None sample_host ≡ codes "salt" }
    ensures not_asked { (after_salting (Some (codes "given")) sample_host).salted ≡ false }
    ensures asked { (after_salting None sample_host).salted ≡ true }
    ensures asked_last { (after_salt_asked (sample_encryption None (sample_task 1 1 1)) sample_host).salted ≡ true }
    ensures passphrase_asked_first { (after_salt_asked (sample_encryption None (sample_task 1 1 1)) sample_host).asked ≡ Some (env (codes "PW")) }
    ensures nothing_pulled { (after_salt_asked (sample_encryption None (sample_task 1 1 1)) sample_host).input ≡ codes "abcd" }
{}

// The input is opened under its name; so many bytes of it are pulled; the passphrase's source is asked; what the bytes give is
// written.
fn steps_of_a_run()
    ensures opened { (after_reading_first_bytes (Some (codes "in")) 1 sample_host).input_opened ≡ Some (Some (codes "in")) }
    ensures pulled { (after_reading_first_bytes (Some (codes "in")) 1 sample_host).input ≡ codes "bcd" }
    ensures asked { (after_passphrase_asked (sample_task 1 1 1) 3 sample_host).asked ≡ Some (env (codes "PW")) }
    ensures input_before { (after_passphrase_asked (sample_task 1 1 1) 3 sample_host).input ≡ codes "d" }
    ensures opened_before { (after_passphrase_asked (sample_task 1 1 1) 3 sample_host).input_opened ≡ Some (Some (codes "in")) }
    ensures front { (after_front None (record sample_host { input = replicate 97 7 })).input ≡ 7 ∷ [] }
    ensures front_opened { (after_front None sample_host).input_opened ≡ Some None }
    ensures passed { (after_pull_and_push (λ bytes. bytes ++ codes "!") 3 sample_host).output ≡ codes "oabc!" }
    ensures rest { (after_pull_and_push (λ bytes. bytes ++ codes "!") 3 sample_host).input ≡ codes "d" }
{}

// The first line of what the source gives, if it gives anything: LF and CR alone end it, and no other control.
fn first_lines_of_sources()
    ensures stdin { first_line_of_source stdin_once sample_host ≡ Some (codes "typed") }
    ensures variable { first_line_of_source (env (codes "PW")) sample_host ≡ Some (codes "set") }
    ensures no_file { first_line_of_source (file (codes "PW")) sample_host ≡ None }
    ensures lone_carriage_return { first_line_of_source stdin_once (record sample_host { stdin = Some (112 ∷ 13 ∷ 119 ∷ []) }) ≡ Some (codes "p") }
    ensures byte_zero { first_line_of_source stdin_once (record sample_host { stdin = Some (112 ∷ 0 ∷ 119 ∷ 10 ∷ []) }) ≡ Some (112 ∷ 0 ∷ 119 ∷ []) }
    ensures other_controls { first_line_of_source stdin_once (record sample_host { stdin = Some (112 ∷ 11 ∷ 9 ∷ 119 ∷ 10 ∷ 113 ∷ []) }) ≡ Some (112 ∷ 11 ∷ 9 ∷ 119 ∷ []) }
{}

// A file that is read is tested by its own bytes.
fn refusal_of_a_short_input()
    ensures short { input_refusal_before_passphrase (sample_task 1 2048 64) sample_host ≡ Some NotScryptData }
{}

// The cores of a file are those of its header, a new file's those that are asked for, and `info` has none.
fn costs_of_runs()
    ensures of_file { salsa20_cores_of_request (decrypt (sample_task 1 3 2)) (record sample_host { input = sample_header_costs }) ≡ 256 }
    ensures of_new_file { salsa20_cores_of_request (encrypt (sample_encryption None (sample_task 1 3 2))) sample_host ≡ 64 }
    ensures of_info { salsa20_cores_of_request (inspect None) sample_host ≡ 0 }
    ensures most_of_file { most_salsa20_cores (decrypt (sample_task 1 3 2)) ≡ 2 }
    ensures most_of_new_file { most_salsa20_cores (encrypt (sample_encryption None (sample_task 1 3 2))) ≡ 2 }
    ensures most_of_info { most_salsa20_cores (inspect None) ≡ 0 }
{}

// What a run makes of a file, by `encfile`, where that is not computed again: the final code is decided with the last byte of
// the text, the first 96 bytes (here with N = 2, r and p 1) stand before those after them, and a task has the limits.
fn files_of_runs()
    ensures whole { decided (codes "word") (codes "salt") (record { log_n = 4; r = 1; p = 2 }) 2 (codes "ab") ≡
        encrypted_file (codes "word") (codes "salt") (record { log_n = 4; r = 1; p = 2 }) (codes "ab") }
    ensures part { decided (codes "word") (codes "salt") (record { log_n = 4; r = 1; p = 2 }) 3 (codes "ab") ≡
        body (codes "word") (codes "salt") (record { log_n = 4; r = 1; p = 2 }) (codes "ab") }
    ensures text { released_text_of_header_and_rest (codes "pw") (replicate 7 0 ++ 1 ∷ 0 ∷ 0 ∷ 0 ∷ 1 ∷ 0 ∷ 0 ∷ 0 ∷ 1 ∷ replicate 80 5) (replicate 33 2) ≡
        released_text (replicate 7 0 ++ 1 ∷ 0 ∷ 0 ∷ 0 ∷ 1 ∷ 0 ∷ 0 ∷ 0 ∷ 1 ∷ replicate 80 5 ++ replicate 33 2) (codes "pw") }
    ensures refusal { front_refusal_of (sample_task 4 3 2) sample_host (codes "pw") ≡
        front_refusal (codes "abcd") (record { limits = record { max_bytes = 3; max_ops = 2 }; keep = 4 }) (codes "pw") }
{}

// The source that a request names, and the request with another S.
fn parts_of_requests()
    ensures source_of_dec { source_of_request (decrypt (sample_task 1 3 2)) ≡ Some (env (codes "PW")) }
    ensures source_of_enc { source_of_request (encrypt (sample_encryption None (sample_task 1 3 2))) ≡ Some (env (codes "PW")) }
    ensures source_of_info { source_of_request (inspect None) ≡ None }
    ensures dec { request_with_keep 8 (decrypt (sample_task 1 3 2)) ≡ decrypt (sample_task 8 3 2) }
    ensures enc { request_with_keep 8 (encrypt (sample_encryption None (sample_task 1 3 2))) ≡ encrypt (sample_encryption None (sample_task 8 3 2)) }
    ensures info { request_with_keep 8 (inspect None) ≡ inspect None }
{}
