//! The definitions of argon2's output, run on what the reference program gives.
ghost use Rattle.std.specs.Prelude.{◌≡◌, ◌+◌, Bool, ℕ, List, [], ◌∷◌, ◌++◌, Ok, Err, None, Some, codes, false, is_ok, map, replicate, true};
ghost use Rattle.argon.specs.Argon2.{argon2_tag};
ghost use Rattle.argon_text.specs.Vectors.{sample_encoded_text, sample_encoded_value};
ghost use Rattle.argon2_command.specs.MemoryRequestEffects.{after_all_requests};
ghost use Rattle.argon2_command.specs.Output.{Encoded, Hex, argon2_command_output, output_for, parameters_of, password_in, request_work, tag_line, tag_of};
ghost use Rattle.argon2_command.specs.Run.{after_password_asked};
ghost use Rattle.host.specs.HostState.{placeholder_host_state, stdin_once};
ghost use Rattle.argon2_words.specs.Settings.{defaults};
ghost use Rattle.argon.specs.declared.kind.Kind.TheVariants.{Id};
ghost use Rattle.argon2_words.specs.declared.settings.Version.TheVariants.{V10};
ghost use Rattle.argon2_words.specs.declared.refusal.Argon2Refusal.TheVariants.{EmptyPassword, LongPassword, MemoryLimit, OneForm, Passes, PasswordFault, SaltLength, WorkLimit};

// printf password | argon2 somesalt -d -t 1 -k 8 -e, by the tag that it has with -r
fn output_of_one_pass()
    ensures output { tag_of (codes "somesalt") (codes "password")
        (record {
          kind = 0;
          version = 0x13;
          passes = 1;
          lanes = 1;
          memory_kib = 8;
          tag_len = 32;
          salt_len = 8;
          password_len = 8;
        }) ≡ sample_encoded_value.tag →
        argon2_command_output
        (codes "somesalt" ∷ codes "-d" ∷ codes "-t" ∷ codes "1" ∷ codes "-k" ∷ codes "8" ∷ codes "-e" ∷ [])
        (record placeholder_host_state { stdin = Some (codes "password") }) ≡ Ok (sample_encoded_text ++ 10 ∷ []) }
{}

// printf password | argon2 somesalt -i -t 2 -k 9 -p 1 -l 32, with -e and with -r: the memory as it is given, of which 8 KiB
// are used
fn lines_of_two_passes()
    ensures encoded { tag_line
        (record { salt = codes "somesalt"; settings = record defaults { passes = 2; memory_kib = 9; encoded = true }; form = Encoded })
        (0x89 ∷ 0x95 ∷ 0xC4 ∷ 0xD7 ∷ 0x64 ∷ 0xED ∷ 0x9F ∷ 0xFD ∷ 0xD6 ∷ 0xBC ∷ 0x1B ∷ 0xCB ∷ 0xA0 ∷ 0x69 ∷ 0xA7 ∷ 0x36 ∷
        0x86 ∷ 0x4B ∷ 0x13 ∷ 0xA7 ∷ 0xE4 ∷ 0xB8 ∷ 0xC8 ∷ 0x19 ∷ 0xAB ∷ 0x9E ∷ 0x47 ∷ 0xAA ∷ 0xE8 ∷ 0x71 ∷ 0x35 ∷ 0x2C ∷ []) ≡
        codes "$argon2i$v=19$m=9,t=2,p=1$c29tZXNhbHQ$iZXE12Ttn/3WvBvLoGmnNoZLE6fkuMgZq55HquhxNSw" ++ 10 ∷ [] }
    ensures hexadecimal { tag_line
        (record { salt = codes "somesalt"; settings = record defaults { passes = 2; memory_kib = 9; hex = true }; form = Hex })
        (0x89 ∷ 0x95 ∷ 0xC4 ∷ 0xD7 ∷ 0x64 ∷ 0xED ∷ 0x9F ∷ 0xFD ∷ 0xD6 ∷ 0xBC ∷ 0x1B ∷ 0xCB ∷ 0xA0 ∷ 0x69 ∷ 0xA7 ∷ 0x36 ∷
        0x86 ∷ 0x4B ∷ 0x13 ∷ 0xA7 ∷ 0xE4 ∷ 0xB8 ∷ 0xC8 ∷ 0x19 ∷ 0xAB ∷ 0x9E ∷ 0x47 ∷ 0xAA ∷ 0xE8 ∷ 0x71 ∷ 0x35 ∷ 0x2C ∷ []) ≡
        codes "8995c4d764ed9ffdd6bc1bcba069a736864b13a7e4b8c819ab9e47aae871352c" ++ 10 ∷ [] }
{}

// Words, password, parameters, limits: the first refusal is told. 127 bytes are a password, and 128 are none.
fn first_refusal_of_a_run()
    ensures words { output_for (codes "s" ∷ []) (Some []) ≡ Err OneForm }
    ensures no_password { output_for (codes "s" ∷ codes "-e" ∷ []) (Some []) ≡ Err EmptyPassword }
    ensures no_input { output_for (codes "s" ∷ codes "-e" ∷ []) None ≡ Err PasswordFault }
    ensures long { output_for (codes "s" ∷ codes "-e" ∷ []) (Some (replicate 128 7)) ≡ Err LongPassword }
    ensures longest { output_for (codes "s" ∷ codes "-e" ∷ []) (Some (replicate 127 7)) ≡ Err SaltLength }
    ensures passes_first { output_for (codes "s" ∷ codes "-t" ∷ codes "0" ∷ codes "-e" ∷ []) (Some (codes "p")) ≡ Err Passes }
    ensures passes_before_limits { output_for (codes "s" ∷ codes "-t" ∷ codes "0" ∷ codes "--maxmem" ∷ codes "1" ∷ codes "-e" ∷ []) (Some (codes "p")) ≡ Err Passes }
    ensures memory_limit { output_for (codes "somesalt" ∷ codes "--maxmem" ∷ codes "4095" ∷ codes "--maxops" ∷ codes "1" ∷ codes "-e" ∷ []) (Some (codes "p")) ≡ Err MemoryLimit }
    ensures work_limit { output_for (codes "somesalt" ∷ codes "--maxmem" ∷ codes "4096" ∷ codes "--maxops" ∷ codes "1" ∷ codes "-e" ∷ []) (Some (codes "p")) ≡ Err WorkLimit }
{}

// Standard input is asked for the password where the words are taken, and nothing is where they are refused.
fn password_by_words()
    ensures taken { (after_password_asked (codes "somesalt" ∷ codes "-e" ∷ []) placeholder_host_state).asked ≡ Some stdin_once }
    ensures refused { (after_password_asked (codes "somesalt" ∷ []) placeholder_host_state).asked ≡ None }
{}

// What is read of standard input: 1 to 127 bytes are a password, docs/FORMATS.md, ranges.
fn passwords()
    ensures empty { password_in (Some []) ≡ Err EmptyPassword }
    ensures none { password_in None ≡ Err PasswordFault }
    ensures lengths { map (λ n. is_ok (password_in (Some (replicate n 112)))) (0 ∷ 1 ∷ 127 ∷ 128 ∷ 129 ∷ 1000 ∷ [])
        ≡ false ∷ true ∷ true ∷ false ∷ false ∷ false ∷ [] }
    ensures long { password_in (Some (replicate 129 112)) ≡ Err LongPassword }
{}

// Each number in its place, as argon2 -id -t 2 -m 5 -p 3 -l 9 -v 10 gives it; and the block functions of what no option sets:
// 3 * 4,096 - 2 blocks, and 2 * 8 for the address blocks of 12 segments of 1,024 columns (RFC 9106, 3.2 and 3.4.1.2).
fn parameters_of_requests()
    ensures each { parameters_of (record { salt = codes "somesalt"; settings = record defaults { kind = Id; passes = 2; memory_kib = 32; lanes = 3; tag_length = 9; version = V10 }; form = Hex }) (codes "pw")
        ≡ record { kind = 2; version = 16; passes = 2; lanes = 3; memory_kib = 32; tag_len = 9; salt_len = 8; password_len = 2 } }
    ensures work { request_work (record { salt = codes "somesalt"; settings = defaults; form = Hex }) ≡ 12478 }
{}

// The memory of the tag is asked for first, then that of its line, then the matrix: here each request leaves its number.
fn requests_of_a_run()
    ensures all { after_all_requests {Source = List ℕ}
        (record {
          after_zeros = λ asked bytes granted. bytes ∷ asked;
          after_line = λ asked request bytes granted. (bytes + request.settings.passes) ∷ asked;
          after_matrix = λ asked parameters granted. parameters.memory_kib ∷ asked;
        })
        (record { salt = codes "somesalt"; settings = defaults; form = Hex }) (record { kind = 1; version = 0x13; passes = 3; lanes = 1; memory_kib = 4096; tag_len = 32; salt_len = 8; password_len = 2 }) []
        ≡ 4096 ∷ 35 ∷ 32 ∷ [] }
    ensures granted { after_all_requests {Source = List Bool}
        (record {
          after_zeros = λ asked bytes granted. granted ∷ asked;
          after_line = λ asked request bytes granted. granted ∷ asked;
          after_matrix = λ asked parameters granted. granted ∷ asked;
        })
        (record { salt = codes "somesalt"; settings = defaults; form = Hex }) (record { kind = 1; version = 0x13; passes = 3; lanes = 1; memory_kib = 4096; tag_len = 32; salt_len = 8; password_len = 2 }) []
        ≡ true ∷ true ∷ true ∷ [] }
{}

// Password and salt each go to their own place, and there is neither a secret nor associated data (RFC 9106, 3.1).
fn inputs_of_a_tag()
    ensures tag { (tag : List ℕ) → argon2_tag
        (record { kind = 0; version = 0x13; passes = 1; lanes = 1; memory_kib = 8; tag_len = 32; salt_len = 8; password_len = 8 })
        (record { password = codes "password"; salt = codes "somesalt"; secret = []; associated = [] }) ≡ tag →
        tag_of (codes "somesalt") (codes "password")
        (record { kind = 0; version = 0x13; passes = 1; lanes = 1; memory_kib = 8; tag_len = 32; salt_len = 8; password_len = 8 }) ≡ tag }
{}
