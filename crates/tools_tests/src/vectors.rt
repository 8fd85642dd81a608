//! What the checker computes of the definitions in specs/ of `tools`: small systems by hand, as the comments at the fields of
//! `SystemState` and `RunState` say what each is.
ghost use Rattle.std.specs.Prelude.{◌≡◌, [], ◌∷◌, None, Some, codes, false, map, true};
ghost use Rattle.std.specs.List.{range_with_len};
ghost use Rattle.host.specs.CallsGrantedByHost.{nothing_asked};
ghost use Rattle.host.specs.Faults.{no_faults};
ghost use Rattle.host.specs.HostState.{env, file, stdin_once};
ghost use Rattle.tools.specs.Failures.{after_read_counted, after_write_counted, read_failure_count, with_file_failure_counted, with_read_failure_counted};
ghost use Rattle.tools.specs.Identity.{is_regular};
ghost use Rattle.tools.specs.RunState.{bytes_or_empty, granted_calls_at_stage, host_over, host_seen, is_before_sync, is_input_open, is_input_unopened, is_output_opened, is_output_unasked, name_opened_for_salt, name_opened_for_secret, rest_of_secret_stream, salt_in, random_salt_of, secret_bytes_in_system};
ghost use Rattle.tools.specs.SystemState.{after_ask_line, after_ask_output, after_ask_sync, after_empty, after_line, after_open_output, after_read, after_sync, after_write, gives, identity_of_stream, is_to_be_emptied, is_to_be_synced, opened_source, placeholder_files, placeholder_state, placeholder_stream, stands_at, state_of_read_stream, with_read_stream_state};
ghost use Rattle.tools.specs.Words.{word_at};
ghost use Rattle.tools.specs.declared.identity.FileIdentity.TheVariants as identity;
ghost use Rattle.tools.specs.declared.run.InputStage.TheVariants as input;
ghost use Rattle.tools.specs.declared.run.OutputStage.TheVariants as output;
ghost use Rattle.tools.specs.declared.system.Reading.TheVariants as reading;
ghost use Rattle.tools.specs.declared.system.StreamRole.TheVariants as stream;

// What each stage of the input and of the output says, and the calls that are granted at some: input, reading, output,
// writing, secret and salt.
fn stages_of_a_run()
    ensures unopened { map is_input_unopened (input.Unopened ∷ input.Opened ∷ input.Ended ∷ []) ≡ true ∷ false ∷ false ∷ [] }
    ensures open { map is_input_open (input.Unopened ∷ input.Opened ∷ input.Ended ∷ []) ≡ false ∷ true ∷ false ∷ [] }
    ensures unasked { map is_output_unasked (output.Unasked ∷ output.Refused ∷ output.Opened ∷ output.Kept ∷ output.Synced ∷ output.Unsynced ∷ []) ≡ true ∷ false ∷ false ∷ false ∷ false ∷ false ∷ [] }
    ensures opened { map is_output_opened (output.Unasked ∷ output.Refused ∷ output.Opened ∷ output.Kept ∷ output.Synced ∷ output.Unsynced ∷ []) ≡ false ∷ false ∷ true ∷ true ∷ true ∷ true ∷ [] }
    ensures before_sync { map is_before_sync (output.Unasked ∷ output.Refused ∷ output.Opened ∷ output.Kept ∷ output.Synced ∷ output.Unsynced ∷ []) ≡ true ∷ true ∷ true ∷ true ∷ false ∷ false ∷ [] }
    ensures first { granted_calls_at_stage input.Unopened output.Unasked None false ≡ record { input = true; readable = false; output = true; writable = false; secret = true; salt = true } }
    ensures reading { granted_calls_at_stage input.Opened output.Unasked (Some stdin_once) false ≡ record { input = false; readable = true; output = true; writable = false; secret = false; salt = true } }
    ensures writing { granted_calls_at_stage input.Ended output.Kept None true ≡ record { input = false; readable = false; output = false; writable = true; secret = true; salt = false } }
    ensures refused { granted_calls_at_stage input.Ended output.Refused (Some stdin_once) true ≡ record { input = false; readable = false; output = false; writable = false; secret = false; salt = false } }
{}

// What a secret's source gives, under which name it is opened, and what is left of it; and 32 random bytes for a salt.
fn secrets_and_salts()
    ensures stdin { secret_bytes_in_system (record placeholder_state { stdin = Some (codes "typed") }) stdin_once ≡ Some (codes "typed") }
    ensures closed_stdin { secret_bytes_in_system placeholder_state stdin_once ≡ None }
    ensures variable { secret_bytes_in_system (record placeholder_state {
      files = record { name = codes "PW"; bytes = codes "kept" } ∷ [];
      variables = record { name = codes "PW"; bytes = codes "set" } ∷ [];
    }) (env (codes "PW")) ≡ Some (codes "set") }
    ensures file { secret_bytes_in_system (record placeholder_state {
      files = record { name = codes "PW"; bytes = codes "kept" } ∷ [];
      variables = record { name = codes "PW"; bytes = codes "set" } ∷ [];
    }) (file (codes "PW")) ≡ Some (codes "kept") }
    ensures names { map name_opened_for_secret (None ∷ Some stdin_once ∷ Some (env (codes "PW")) ∷ Some (file (codes "pw")) ∷ [])
        ≡ None ∷ Some None ∷ None ∷ Some (Some (codes "pw")) ∷ [] }
    ensures name_for_a_salt { map name_opened_for_salt (false ∷ true ∷ []) ≡ None ∷ Some (Some (codes "/dev/urandom")) ∷ [] }
    ensures rest_of_stdin { rest_of_secret_stream stdin_once 2 (record placeholder_state { stdin = Some (codes "typed") }) ≡ codes "ped" }
    ensures rest_of_variable { rest_of_secret_stream (env (codes "PW")) 1 (record placeholder_state {
      secret = record placeholder_stream { left = codes "left" };
      variables = record { name = codes "PW"; bytes = codes "set" } ∷ [];
    }) ≡ codes "left" }
    ensures rest_of_file { rest_of_secret_stream (file (codes "pw")) 1 (record placeholder_state { files = record { name = codes "pw"; bytes = codes "kept" } ∷ [] }) ≡ codes "ept" }
    ensures rest_of_no_file { rest_of_secret_stream (file (codes "pw")) 1 placeholder_state ≡ [] }
    ensures some_or_none { map bytes_or_empty (None ∷ Some (codes "ab") ∷ []) ≡ [] ∷ codes "ab" ∷ [] }
    ensures no_salt { salt_in None ≡ [] }
    ensures salt { random_salt_of (record placeholder_state { files = record { name = codes "/dev/random"; bytes = codes "x" } ∷ record { name = codes "/dev/urandom"; bytes = range_with_len 0 40 } ∷ [] })
        ≡ range_with_len 0 32 }
{}

// Which file a stream is, by its role; what is emptied is a regular file that is named, and what is brought to the disk that or
// a block device.
fn files_of_streams()
    ensures each { map (λ role. identity_of_stream role (record { input = Some (identity.Block 1); secret = Some (identity.Block 2); output = Some (identity.Block 3); error = Some (identity.Block 4) }))
        (stream.Input ∷ stream.Secret ∷ stream.Output ∷ stream.Error ∷ [])
        ≡ Some (identity.Block 1) ∷ Some (identity.Block 2) ∷ Some (identity.Block 3) ∷ Some (identity.Block 4) ∷ [] }
    ensures no_file { map (λ role. identity_of_stream role placeholder_files) (stream.Input ∷ stream.Secret ∷ stream.Output ∷ stream.Error ∷ []) ≡ None ∷ None ∷ None ∷ None ∷ [] }
    ensures regular { map is_regular (identity.Regular 1 2 ∷ identity.Block 1 ∷ []) ≡ true ∷ false ∷ [] }
    ensures emptied { map (is_to_be_emptied (Some (codes "out"))) (None ∷ Some (identity.Regular 1 2) ∷ Some (identity.Block 1) ∷ []) ≡ false ∷ true ∷ false ∷ [] }
    ensures synced { map (is_to_be_synced (Some (codes "out"))) (None ∷ Some (identity.Regular 1 2) ∷ Some (identity.Block 1) ∷ []) ≡ false ∷ true ∷ true ∷ [] }
    ensures standard_output_emptied { map (is_to_be_emptied None) (None ∷ Some (identity.Regular 1 2) ∷ Some (identity.Block 1) ∷ []) ≡ false ∷ false ∷ false ∷ [] }
    ensures standard_output_synced { map (is_to_be_synced None) (None ∷ Some (identity.Regular 1 2) ∷ Some (identity.Block 1) ∷ []) ≡ false ∷ false ∷ false ∷ [] }
{}

// Each stream that is read stands in its own place; it gives what stands under its name, but the input what is left of it; and
// a read takes the next bytes, or finds the end.
fn streams_that_are_read()
    ensures places { map (λ place. (state_of_read_stream place (record placeholder_state {
      input = record placeholder_stream { left = codes "in" };
      secret = record placeholder_stream { left = codes "secret" };
      random = record placeholder_stream { left = codes "random" };
    })).left) (reading.Input ∷ reading.Secret ∷ reading.Random ∷ []) ≡ codes "in" ∷ codes "secret" ∷ codes "random" ∷ [] }
    ensures input { with_read_stream_state reading.Input (opened_source None (codes "a")) placeholder_state
        ≡ record placeholder_state { input = record { opened = Some None; left = codes "a"; is_ended = false } } }
    ensures secret { with_read_stream_state reading.Secret (opened_source (Some (codes "pw")) (codes "a")) placeholder_state
        ≡ record placeholder_state { secret = record { opened = Some (Some (codes "pw")); left = codes "a"; is_ended = false } } }
    ensures random { with_read_stream_state reading.Random (opened_source None []) placeholder_state
        ≡ record placeholder_state { random = record { opened = Some None; left = []; is_ended = false } } }
    ensures some_read { after_read reading.Secret 2 (record placeholder_state { secret = record placeholder_stream { left = codes "abc" } })
        ≡ record placeholder_state { secret = record { opened = None; left = codes "c"; is_ended = false } } }
    ensures end_found { after_read reading.Input 0 placeholder_state ≡ record placeholder_state { input = record { opened = None; left = []; is_ended = true } } }
    ensures stdin_stands { stands_at None (record placeholder_state { stdin = Some (codes "typed") }) ≡ Some (codes "typed") }
    ensures file_stands { stands_at (Some (codes "pw")) (record placeholder_state {
      files = record { name = codes "pw"; bytes = codes "kept" } ∷ [];
      variables = record { name = codes "pw"; bytes = codes "set" } ∷ [];
    }) ≡ Some (codes "kept") }
    ensures given { map (λ place. gives place (Some (codes "pw")) (record placeholder_state {
      input = record placeholder_stream { left = codes "in" };
      files = record { name = codes "pw"; bytes = codes "kept" } ∷ [];
    })) (reading.Input ∷ reading.Secret ∷ reading.Random ∷ []) ≡ Some (codes "in") ∷ Some (codes "kept") ∷ Some (codes "kept") ∷ [] }
    ensures not_given { map (λ place. gives place None placeholder_state) (reading.Input ∷ reading.Secret ∷ reading.Random ∷ []) ≡ Some [] ∷ None ∷ None ∷ [] }
{}

// What each call leaves of an output: its name, whether it is new, emptied, kept, and brought to the disk; and of lines.
fn outputs_and_lines()
    ensures asked { after_ask_output None placeholder_state ≡ record placeholder_state { output_asked = Some None } }
    ensures opened_file { after_open_output (Some (codes "out")) (Some (identity.Regular 1 2)) (record placeholder_state { is_new = true })
        ≡ record placeholder_state { output_asked = Some (Some (codes "out")); is_new = false; is_kept = true } }
    ensures opened_device { after_open_output (Some (codes "out")) (Some (identity.Block 1)) placeholder_state
        ≡ record placeholder_state { output_asked = Some (Some (codes "out")); is_new = true; is_kept = true } }
    ensures opened_pipe { after_open_output (Some (codes "out")) None (record placeholder_state { is_kept = true })
        ≡ record placeholder_state { output_asked = Some (Some (codes "out")); is_new = true; is_kept = false } }
    ensures emptied { after_empty placeholder_state ≡ record placeholder_state { is_new = true; is_emptied = true } }
    ensures written { after_write (codes "ut") (record placeholder_state { output = codes "o" }) ≡ record placeholder_state { output = codes "out" } }
    ensures sync_asked { after_ask_sync placeholder_state ≡ record placeholder_state { sync_asked = true } }
    ensures synced { after_sync placeholder_state ≡ record placeholder_state { sync_asked = true; is_synced = true } }
    ensures said { after_line (codes "two") (record placeholder_state { said = codes "one" ∷ [] })
        ≡ record placeholder_state { line_asked = true; said = codes "one" ∷ codes "two" ∷ [] } }
    ensures unsaid { after_ask_line placeholder_state ≡ record placeholder_state { line_asked = true } }
{}

// What each call counts where it fails: a stream under its kind, the end of random bytes, a write that takes nothing, and a file
// that is not known; and what stands under each kind of stream.
fn failures_by_kind()
    ensures streams { map (λ place. with_read_failure_counted place no_faults) (reading.Input ∷ reading.Secret ∷ reading.Random ∷ [])
        ≡ record no_faults { input = 1 } ∷ record no_faults { secrets = 1 } ∷ record no_faults { salt = 1 } ∷ [] }
    ensures of_streams { map (λ place. read_failure_count place (record { input = 1; output = 2; secrets = 3; salt = 4; lines = 5 }))
        (reading.Input ∷ reading.Secret ∷ reading.Random ∷ []) ≡ 1 ∷ 3 ∷ 4 ∷ [] }
    ensures ends { map (λ place. after_read_counted place 0 no_faults) (reading.Input ∷ reading.Secret ∷ reading.Random ∷ [])
        ≡ no_faults ∷ no_faults ∷ record no_faults { salt = 1 } ∷ [] }
    ensures random { after_read_counted reading.Random 1 no_faults ≡ no_faults }
    ensures writes { map (λ n. after_write_counted n no_faults) (0 ∷ 1 ∷ []) ≡ record no_faults { output = 1 } ∷ no_faults ∷ [] }
    ensures files { map (λ role. with_file_failure_counted role no_faults) (stream.Input ∷ stream.Secret ∷ stream.Output ∷ stream.Error ∷ [])
        ≡ record no_faults { output = 1; lines = 1 } ∷ record no_faults { output = 1; lines = 1 } ∷ record no_faults { output = 1 } ∷ record no_faults { lines = 1 } ∷ [] }
{}

// What is seen of a host: the system's own input, output, lines, standard input, variables and files, the first 32 random
// bytes, and what the run has asked for; an output is opened where it may be written to.
fn hosts_over_systems()
    ensures input { (host_over (record placeholder_state { input = record { opened = Some None; left = codes "a"; is_ended = false } })).input ≡ codes "a" }
    ensures input_opened { (host_over (record placeholder_state { input = record { opened = Some None; left = codes "a"; is_ended = false } })).input_opened ≡ Some None }
    ensures input_is_stdin { (host_over (record placeholder_state { input_is_stdin = true })).input_is_stdin ≡ true }
    ensures rest_of_stdin { rest_of_secret_stream stdin_once 1 (record placeholder_state { stdin = Some (range_with_len 0 40) }) ≡ range_with_len 1 39 }
    ensures rest_of_file { rest_of_secret_stream (file (codes "a")) 1 (record placeholder_state { files = record { name = codes "a"; bytes = range_with_len 0 40 } ∷ [] }) ≡ range_with_len 1 39 }
    ensures written { (host_over (record placeholder_state { output = codes "out" })).output ≡ codes "out" }
    ensures asked_output { (host_over (record placeholder_state { output_asked = Some None })).output_asked ≡ Some None }
    ensures not_writable { (host_over (record placeholder_state { output_asked = Some None })).output_opened ≡ None }
    ensures writable { (host_seen (record { state = record placeholder_state { output_asked = Some None }; failures = no_faults; system_files = placeholder_files; grants = record nothing_asked { writable = true }; asked = None; salted = false; told = false })).output_opened ≡ Some None }
    ensures unasked { (host_over placeholder_state).asked ≡ None }
    ensures unsalted { (host_over placeholder_state).salted ≡ false }
    ensures asked { (host_seen (record { state = placeholder_state; failures = no_faults; system_files = placeholder_files; grants = nothing_asked; asked = Some stdin_once; salted = true; told = false })).asked ≡ Some stdin_once }
    ensures salted { (host_seen (record { state = placeholder_state; failures = no_faults; system_files = placeholder_files; grants = nothing_asked; asked = None; salted = true; told = false })).salted ≡ true }
    ensures said { (host_over (record placeholder_state { said = codes "one" ∷ [] })).said ≡ codes "one" ∷ [] }
    ensures stdin { (host_over (record placeholder_state { stdin = Some (codes "typed") })).stdin ≡ Some (codes "typed") }
    ensures variable { (host_over (record placeholder_state { variables = record { name = codes "a"; bytes = codes "set" } ∷ [] })).variables (codes "a") ≡ Some (codes "set") }
    ensures file { (host_over (record placeholder_state { files = record { name = codes "a"; bytes = codes "kept" } ∷ [] })).files (codes "a") ≡ Some (codes "kept") }
    ensures salt { (host_over (record placeholder_state { files = record { name = codes "/dev/urandom"; bytes = range_with_len 0 40 } ∷ [] })).salt ≡ range_with_len 0 32 }
{}

// The words of a process by their places.
fn words_by_place()
    ensures places { map (word_at (codes "scrypt" ∷ codes "dec" ∷ [])) (0 ∷ 1 ∷ 2 ∷ []) ≡ Some (codes "scrypt") ∷ Some (codes "dec") ∷ None ∷ [] }
{}
