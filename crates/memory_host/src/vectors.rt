//! What the checker computes of the definitions in specs/: a host in memory as it is made, and as contracts see it.
ghost use Rattle.std.specs.Prelude.{◌≡◌, ◌-◌, ◌^◌, [], ◌∷◌, Some, None, codes, false, true};
ghost use Rattle.host.specs.HostState.{stdin_once};
ghost use Rattle.memory_host.specs.Memory.{memory_host_grants, memory_host_state, new_host_in_memory, with_environment_variable, with_failing_call, with_file, with_input_as_stdin, with_sizes};

// The three texts each stand in their own place, nothing else is there, and the calls are granted that nothing was asked before.
fn hosts_as_they_are_made()
    ensures input { (memory_host_state (new_host_in_memory (codes "in") (codes "pw") (codes "salt"))).input ≡ codes "in" }
    ensures stdin { (memory_host_state (new_host_in_memory (codes "in") (codes "pw") (codes "salt"))).stdin ≡ Some (codes "pw") }
    ensures salt { (memory_host_state (new_host_in_memory (codes "in") (codes "pw") (codes "salt"))).salt ≡ codes "salt" }
    ensures output { (memory_host_state (new_host_in_memory [] [] [])).output ≡ [] }
    ensures said { (memory_host_state (new_host_in_memory [] [] [])).said ≡ [] }
    ensures asked { (memory_host_state (new_host_in_memory [] [] [])).asked ≡ None }
    ensures is_stdin { (memory_host_state (new_host_in_memory [] [] [])).input_is_stdin ≡ false }
    ensures variable { (memory_host_state (new_host_in_memory [] [] [])).variables (codes "A") ≡ None }
    ensures file { (memory_host_state (new_host_in_memory [] [] [])).files (codes "A") ≡ None }
    ensures grants { memory_host_grants (new_host_in_memory [] [] [])
        ≡ record { input = true; readable = false; output = true; writable = false; secret = true; salt = true } }
    ensures sizes { (new_host_in_memory [] [] []).pull_size ∷ (new_host_in_memory [] [] []).push_size ∷ []
        ≡ (2 ^ 64 - 1) ∷ (2 ^ 64 - 1) ∷ [] }
    ensures calls { (new_host_in_memory [] [] []).failing ∷ (new_host_in_memory [] [] []).calls ∷ [] ≡ 0 ∷ 0 ∷ [] }
{}

// Each name, and each mark, is seen in its own place.
fn hosts_after_calls()
    ensures input_opened { (memory_host_state (record (new_host_in_memory [] [] []) { input_opened = Some (Some (codes "a")) })).input_opened ≡ Some (Some (codes "a")) }
    ensures output_opened { (memory_host_state (record (new_host_in_memory [] [] []) { output_opened = Some (Some (codes "a")) })).output_opened ≡ Some (Some (codes "a")) }
    ensures output_asked { (memory_host_state (record (new_host_in_memory [] [] []) { output_asked = Some (Some (codes "a")) })).output_asked ≡ Some (Some (codes "a")) }
    ensures output { (memory_host_state (record (new_host_in_memory [] [] []) { output = codes "out" })).output ≡ codes "out" }
    ensures said { (memory_host_state (record (new_host_in_memory [] [] []) { said = codes "line" ∷ [] })).said ≡ codes "line" ∷ [] }
    ensures asked { (memory_host_state (record (new_host_in_memory [] [] []) { asked = Some stdin_once })).asked ≡ Some stdin_once }
    ensures salted { (memory_host_state (record (new_host_in_memory [] [] []) { salted = true })).salted ≡ true }
    ensures granted { memory_host_grants (record (new_host_in_memory [] [] []) { input_opened = Some None; readable = true; output_asked = Some None; output_opened = Some None; asked = Some stdin_once; salted = true })
        ≡ record { input = false; readable = true; output = false; writable = true; secret = false; salt = false } }
    ensures granted_to_pull { memory_host_grants (record (new_host_in_memory [] [] []) { readable = true })
        ≡ record { input = true; readable = true; output = true; writable = false; secret = true; salt = true } }
    ensures granted_after_a_secret { memory_host_grants (record (new_host_in_memory [] [] []) { asked = Some stdin_once })
        ≡ record { input = true; readable = false; output = true; writable = false; secret = false; salt = true } }
    ensures granted_before_it_opens { memory_host_grants (record (new_host_in_memory [] [] []) { output_asked = Some None })
        ≡ record { input = true; readable = false; output = false; writable = false; secret = true; salt = true } }
    ensures granted_of_an_input { memory_host_grants (record (new_host_in_memory [] [] []) { input_opened = Some None })
        ≡ record { input = false; readable = false; output = true; writable = false; secret = true; salt = true } }
{}

// A variable and a secret file come before those of before, and not among one another; the rest is one number or one mark.
fn hosts_with_more()
    ensures variable { (memory_host_state (with_environment_variable (codes "A") (codes "1") (with_environment_variable (codes "A") (codes "2") (new_host_in_memory [] [] [])))).variables (codes "A") ≡ Some (codes "1") }
    ensures variable_before { (memory_host_state (with_environment_variable (codes "A") (codes "1") (with_environment_variable (codes "B") (codes "2") (new_host_in_memory [] [] [])))).variables (codes "B") ≡ Some (codes "2") }
    ensures file { (memory_host_state (with_file (codes "A") (codes "1") (with_file (codes "A") (codes "2") (new_host_in_memory [] [] [])))).files (codes "A") ≡ Some (codes "1") }
    ensures file_before { (memory_host_state (with_file (codes "A") (codes "1") (with_file (codes "B") (codes "2") (new_host_in_memory [] [] [])))).files (codes "B") ≡ Some (codes "2") }
    ensures no_file { (memory_host_state (with_environment_variable (codes "A") (codes "1") (new_host_in_memory [] [] []))).files (codes "A") ≡ None }
    ensures no_variable { (memory_host_state (with_file (codes "A") (codes "1") (new_host_in_memory [] [] []))).variables (codes "A") ≡ None }
    ensures is_stdin { (memory_host_state (with_input_as_stdin true (new_host_in_memory [] [] []))).input_is_stdin ≡ true }
    ensures pull { (with_sizes 3 5 (new_host_in_memory [] [] [])).pull_size ≡ 3 }
    ensures push { (with_sizes 3 5 (new_host_in_memory [] [] [])).push_size ≡ 5 }
    ensures failing { (with_failing_call 7 (new_host_in_memory [] [] [])).failing ≡ 7 }
{}
