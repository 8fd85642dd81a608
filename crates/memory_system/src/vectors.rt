//! What the checker computes of the definitions in specs/: a system in memory as it is made, and with more in it.
ghost use Rattle.std.specs.Prelude.{◌≡◌, [], ◌∷◌, Some, None, codes, false, true};
ghost use Rattle.host.specs.Faults.{no_faults};
ghost use Rattle.memory_system.specs.Memory.{append_word, new_system_in_memory, with_environment_variable, with_file, with_input_as_stdin, with_input_bytes, with_standard_error_file, with_stdin_bytes};
ghost use Rattle.tools.specs.SystemState.{placeholder_files};
ghost use Rattle.tools.specs.declared.identity.FileIdentity.TheVariants as identity;

// Nothing is there, and nothing was done.
fn system_as_it_is_made()
    ensures streams { new_system_in_memory.state.input ∷ new_system_in_memory.state.secret ∷ new_system_in_memory.state.random ∷ []
        ≡ record { opened = None; left = []; is_ended = false } ∷ record { opened = None; left = []; is_ended = false } ∷ record { opened = None; left = []; is_ended = false } ∷ [] }
    ensures marks { new_system_in_memory.state.input_is_stdin ∷ new_system_in_memory.state.is_new ∷ new_system_in_memory.state.is_emptied ∷ new_system_in_memory.state.is_kept ∷ new_system_in_memory.state.sync_asked ∷ new_system_in_memory.state.is_synced ∷ new_system_in_memory.state.line_asked ∷ []
        ≡ false ∷ false ∷ false ∷ false ∷ false ∷ false ∷ false ∷ [] }
    ensures output { new_system_in_memory.state.output ≡ [] }
    ensures output_asked { new_system_in_memory.state.output_asked ≡ None }
    ensures said { new_system_in_memory.state.said ≡ [] }
    ensures stdin { new_system_in_memory.state.stdin ≡ None }
    ensures names { new_system_in_memory.state.files ≡ [] }
    ensures variables { new_system_in_memory.state.variables ≡ [] }
    ensures files { new_system_in_memory.files ≡ record { input = None; secret = None; output = None; error = None } }
    ensures tries { new_system_in_memory.tries ≡ 0 }
    ensures failures { new_system_in_memory.failures ≡ no_faults }
    ensures words { new_system_in_memory.words ≡ [] }
{}

// The input is not opened yet; a file and a variable come before the others, and a word after them.
fn systems_with_more()
    ensures input { (with_input_bytes (codes "in") (with_input_bytes (codes "old") new_system_in_memory)).state.input ≡ record { opened = None; left = codes "in"; is_ended = false } }
    ensures input_file { (with_input_bytes (codes "in") (record new_system_in_memory { files = record placeholder_files { input = Some (identity.Block 2) } })).files.input ≡ None }
    ensures is_stdin { (with_input_as_stdin true new_system_in_memory).state.input_is_stdin ≡ true }
    ensures stdin { (with_stdin_bytes (codes "pw") new_system_in_memory).state.stdin ≡ Some (codes "pw") }
    ensures file { (with_file (codes "B") (codes "2") (with_file (codes "A") (codes "1") new_system_in_memory)).state.files
        ≡ record { name = codes "B"; bytes = codes "2" } ∷ record { name = codes "A"; bytes = codes "1" } ∷ [] }
    ensures variable { (with_environment_variable (codes "B") (codes "2") (with_environment_variable (codes "A") (codes "1") new_system_in_memory)).state.variables
        ≡ record { name = codes "B"; bytes = codes "2" } ∷ record { name = codes "A"; bytes = codes "1" } ∷ [] }
    ensures error_file { (with_standard_error_file (Some (identity.Block 2)) new_system_in_memory).files.error ≡ Some (identity.Block 2) }
    ensures word { (append_word (codes "b") (append_word (codes "a") new_system_in_memory)).words ≡ codes "a" ∷ codes "b" ∷ [] }
{}
