//! What the checker computes of the definitions in specs/: what each call leaves of a host, and what is counted.
ghost use Rattle.std.specs.Prelude.{◌≡◌, [], ◌∷◌, Some, None, codes, false, true};
ghost use Rattle.host.specs.Faults.{with_input_failure_counted, with_line_failure_counted, no_faults, with_output_failure_counted, with_salt_failure_counted, with_secret_failure_counted};
ghost use Rattle.host.specs.CallsGrantedByHost.{nothing_asked, with_input_opened, with_output_asked, with_output_opened, with_salt_asked, with_secret_asked};
ghost use Rattle.host.specs.Lines.{after_line, faults_after_line};
ghost use Rattle.host.specs.Entries.{lookup};
ghost use Rattle.host.specs.FirstLine.{first_line};
ghost use Rattle.host.specs.Output.{after_writing};
ghost use Rattle.host.specs.Secret.{secret_bytes_in_host};
ghost use Rattle.host.specs.HostState.{after_ask_secret, after_ask_output, after_open_input, after_open_output, after_pull, after_push, after_salt, after_say, env, file, stdin_once};
ghost use Rattle.host.specs.Vectors.{sample_host};

// The next bytes of the input are gone; those that are written, and the lines that are said, come after those before them.
fn streams_after_calls()
    ensures pull { (after_pull 3 sample_host).input ≡ codes "d" }
    ensures pull_at_the_end { (after_pull 5 sample_host).input ≡ [] }
    ensures push { (after_push (codes "ut") sample_host).output ≡ codes "out" }
    ensures lines { (after_say (codes "two") (after_say (codes "one") sample_host)).said ≡ codes "one" ∷ codes "two" ∷ [] }
    ensures line_said { (after_line true (codes "one") sample_host).said ≡ codes "one" ∷ [] }
    ensures line_unsaid { (after_line false (codes "one") sample_host).said ≡ [] }
    ensures written { (after_writing None (codes "ut") sample_host).output ≡ codes "out" }
{}

// What is opened and what is asked for is under its name; an output that cannot be opened was asked for, too.
fn names_after_calls()
    ensures input { (after_open_input (Some (codes "in")) sample_host).input_opened ≡ Some (Some (codes "in")) }
    ensures standard_input { (after_open_input None sample_host).input_opened ≡ Some None }
    ensures output { (after_open_output (Some (codes "out")) sample_host).output_opened ≡ Some (Some (codes "out")) }
    ensures output_asked { (after_open_output None sample_host).output_asked ≡ Some None }
    ensures only_asked { (after_ask_output None sample_host).output_asked ≡ Some None }
    ensures not_opened { (after_ask_output None sample_host).output_opened ≡ None }
    ensures written { (after_writing None (codes "ut") sample_host).output_opened ≡ Some None }
    ensures secret { (after_ask_secret (env (codes "PW")) sample_host).asked ≡ Some (env (codes "PW")) }
    ensures salt { (after_salt sample_host).salted ≡ true }
{}

// A failure raises its own count by one, whatever the counts are.
fn counts_after_failures()
    ensures input { with_input_failure_counted (record { input = 10; output = 20; secrets = 30; salt = 40; lines = 50 }) ≡ record { input = 11; output = 20; secrets = 30; salt = 40; lines = 50 } }
    ensures output { with_output_failure_counted (record { input = 10; output = 20; secrets = 30; salt = 40; lines = 50 }) ≡ record { input = 10; output = 21; secrets = 30; salt = 40; lines = 50 } }
    ensures secret { with_secret_failure_counted (record { input = 10; output = 20; secrets = 30; salt = 40; lines = 50 }) ≡ record { input = 10; output = 20; secrets = 31; salt = 40; lines = 50 } }
    ensures salt { with_salt_failure_counted (record { input = 10; output = 20; secrets = 30; salt = 40; lines = 50 }) ≡ record { input = 10; output = 20; secrets = 30; salt = 41; lines = 50 } }
    ensures line { with_line_failure_counted (record { input = 10; output = 20; secrets = 30; salt = 40; lines = 50 }) ≡ record { input = 10; output = 20; secrets = 30; salt = 40; lines = 51 } }
    ensures none { no_faults ≡ record { input = 0; output = 0; secrets = 0; salt = 0; lines = 0 } }
    ensures line_said { faults_after_line true (record { input = 10; output = 20; secrets = 30; salt = 40; lines = 50 }) ≡ record { input = 10; output = 20; secrets = 30; salt = 40; lines = 50 } }
    ensures line_unsaid { faults_after_line false (record { input = 10; output = 20; secrets = 30; salt = 40; lines = 50 }) ≡ record { input = 10; output = 20; secrets = 30; salt = 40; lines = 51 } }
{}

// A source gives what stands in its own place, if anything does.
fn secrets_by_source()
    ensures stdin { secret_bytes_in_host stdin_once sample_host ≡ Some (codes "typed\nmore") }
    ensures variable { secret_bytes_in_host (env (codes "PW")) sample_host ≡ Some (codes "set") }
    ensures no_variable { secret_bytes_in_host (env (codes "pw")) sample_host ≡ None }
    ensures file { secret_bytes_in_host (file (codes "pw")) sample_host ≡ Some (codes "kept") }
    ensures no_file { secret_bytes_in_host (file (codes "PW")) sample_host ≡ None }
    ensures first_of_two { lookup (record { name = codes "a"; bytes = codes "1" } ∷ record { name = codes "b"; bytes = codes "2" }
        ∷ record { name = codes "b"; bytes = codes "3" } ∷ []) (codes "b") ≡ Some (codes "2") }
{}

// A line ends before the first LF or CR; a text may have neither, or nothing before it.
fn first_lines()
    ensures line_feed { first_line (codes "pw\nx\n") ≡ codes "pw" }
    ensures carriage_return { first_line (112 ∷ 13 ∷ 10 ∷ []) ≡ codes "p" }
    ensures no_end { first_line (codes "p w") ≡ codes "p w" }
    ensures empty { first_line (codes "\npw") ≡ [] }
    ensures nothing { first_line [] ≡ [] }
{}

// What was opened may be pulled from, or pushed to; what was asked for is not granted once more.
fn grants_after_calls()
    ensures first { nothing_asked ≡ record { input = true; readable = false; output = true; writable = false; secret = true; salt = true } }
    ensures input { with_input_opened nothing_asked ≡ record { input = false; readable = true; output = true; writable = false; secret = true; salt = true } }
    ensures output_asked { with_output_asked nothing_asked ≡ record { input = true; readable = false; output = false; writable = false; secret = true; salt = true } }
    ensures output { with_output_opened nothing_asked ≡ record { input = true; readable = false; output = false; writable = true; secret = true; salt = true } }
    ensures secret { with_secret_asked nothing_asked ≡ record { input = true; readable = false; output = true; writable = false; secret = false; salt = true } }
    ensures salt { with_salt_asked nothing_asked ≡ record { input = true; readable = false; output = true; writable = false; secret = true; salt = false } }
{}
