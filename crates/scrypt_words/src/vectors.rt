//! The definition of scrypt's words, run: what `clap` defines for words that it takes and words that it
//! does not, and the product's own rules after it.
ghost use Rattle.std.specs.Prelude.{◌≡◌, ◌-◌, ◌^◌, [], Ok, Err, Some, None, codes};
ghost use Rattle.scrypt_request.specs.Request.{decrypt, encrypt, inspect};
ghost use Rattle.scrypt_words.specs.Request.{scrypt_request};
ghost use Rattle.scrypt_words.specs.Vectors.{costs, salt_of_bytes_0_to_31, encryption_without_salt, task_with_default_limits, typed};
ghost use Rattle.host.specs.HostState.{env, file, stdin_once};
ghost use Rattle.scrypt_request.specs.declared.refusal.ScryptRefusal.TheVariants.{CostsOutOfRange, KeepOutOfRange, PassphraseSource, SaltDigits, SameName, SomeCosts, StandardInputTwice, Usage};

// The costs and the salt of a new file, and its digits in upper case.
#[tactic(auto, unfolding(clap::proofs::OnLiterals::clap_on_literals, hex::proofs::OnLiterals::hex_on_literals))]
fn first_48_header_bytes()
    ensures lower_case { scrypt_request (typed (codes "enc --logN 4 -r 1 -p 1 --salt 000102030405060708090a0b0c0d0e0f101112131415161718191a1b1c1d1e1f --passphrase file:pw - out")) ≡
        Ok (encrypt (record (encryption_without_salt (costs 4 1 1) (task_with_default_limits (file (codes "pw")) None (Some (codes "out")))) { salt = Some salt_of_bytes_0_to_31 })) }
    ensures upper_case { scrypt_request (typed (codes "enc --logN 4 -r 1 -p 1 --salt 000102030405060708090A0B0C0D0E0F101112131415161718191A1B1C1D1E1F --passphrase file:pw - out")) ≡
        Ok (encrypt (record (encryption_without_salt (costs 4 1 1) (task_with_default_limits (file (codes "pw")) None (Some (codes "out")))) { salt = Some salt_of_bytes_0_to_31 })) }
{}

// Limits, and the ends of their ranges.
#[tactic(auto, unfolding(clap::proofs::OnLiterals::clap_on_literals))]
fn limits()
    ensures both { scrypt_request (typed (codes "dec -M 2048 --maxops 64 --passphrase file:pw F5")) ≡
        Ok (decrypt (record (task_with_default_limits (file (codes "pw")) (Some (codes "F5")) None) { limits = record { max_bytes = 2048; max_ops = 64 } })) }
    ensures bytes { scrypt_request (typed (codes "dec -M 2047 --passphrase file:pw F5")) ≡
        Ok (decrypt (record (task_with_default_limits (file (codes "pw")) (Some (codes "F5")) None) { limits = record { max_bytes = 2047; max_ops = 2 ^ 33 } })) }
    ensures cores { scrypt_request (typed (codes "dec --maxops 63 --passphrase file:pw F5")) ≡
        Ok (decrypt (record (task_with_default_limits (file (codes "pw")) (Some (codes "F5")) None) { limits = record { max_bytes = 2 ^ 32; max_ops = 63 } })) }
    ensures greatest { scrypt_request (typed (codes "dec -M 1099511627776 --maxops 9223372036854775807 -P F5")) ≡
        Ok (decrypt (record (task_with_default_limits stdin_once (Some (codes "F5")) None) { limits = record { max_bytes = 2 ^ 40; max_ops = 2 ^ 63 - 1 } })) }
    ensures least { scrypt_request (typed (codes "dec -M 1 --maxops 1 -P F5")) ≡
        Ok (decrypt (record (task_with_default_limits stdin_once (Some (codes "F5")) None) { limits = record { max_bytes = 1; max_ops = 1 } })) }
    ensures stdin_named { scrypt_request (typed (codes "dec --passphrase dev:stdin-once F5")) ≡
        Ok (decrypt (task_with_default_limits stdin_once (Some (codes "F5")) None)) }
    ensures leading_zeros { scrypt_request (typed (codes "dec -M 00000000000000002048 -P F5")) ≡
        Ok (decrypt (record (task_with_default_limits stdin_once (Some (codes "F5")) None) { limits = record { max_bytes = 2048; max_ops = 2 ^ 33 } })) }
    ensures no_bytes { scrypt_request (typed (codes "dec -M 0 -P F5")) ≡ Err Usage }
    ensures no_cores { scrypt_request (typed (codes "dec --maxops 0 -P F5")) ≡ Err Usage }
    ensures bytes_above { scrypt_request (typed (codes "dec -M 1099511627777 -P F5")) ≡ Err Usage }
    ensures cores_above { scrypt_request (typed (codes "dec --maxops 9223372036854775808 -P F5")) ≡
        Err Usage }
    ensures no_number { scrypt_request (typed (codes "dec -M 2k -P F5")) ≡ Err Usage }
    ensures empty_number { scrypt_request (typed (codes "dec --maxops= -P F5")) ≡ Err Usage }
    ensures long_number { scrypt_request (typed (codes "dec -M 000000000000000002048 -P F5")) ≡
        Err Usage }
{}

// S, and the ends of its range.
#[tactic(auto, unfolding(clap::proofs::OnLiterals::clap_on_literals, hex::proofs::OnLiterals::hex_on_literals))]
fn keeps()
    ensures given { scrypt_request (typed (codes "dec --keep 4 -M 512 --maxops 160 -P F5")) ≡
        Ok (decrypt (record (task_with_default_limits stdin_once (Some (codes "F5")) None) { limits = record { max_bytes = 512; max_ops = 160 }; keep = 4 })) }
    ensures greatest { scrypt_request (typed (codes "enc --keep 1024 -P a")) ≡
        Ok (encrypt (encryption_without_salt (costs 17 8 1) (record (task_with_default_limits stdin_once (Some (codes "a")) None) { keep = 1024 }))) }
    ensures zero { scrypt_request (typed (codes "dec --keep 0 -P F5")) ≡ Err KeepOutOfRange }
    ensures three { scrypt_request (typed (codes "dec --keep 3 -P F5")) ≡ Err KeepOutOfRange }
    ensures above { scrypt_request (typed (codes "dec --keep 2048 -P F5")) ≡ Err KeepOutOfRange }
    ensures wide { scrypt_request (typed (codes "dec --keep 18446744073709551617 -P F5")) ≡
        Err KeepOutOfRange }
    ensures no_number { scrypt_request (typed (codes "dec --keep x -P F5")) ≡ Err Usage }
    ensures empty_number { scrypt_request (typed (codes "dec --keep= -P F5")) ≡ Err Usage }
    ensures later_than_salt { scrypt_request (typed (codes "enc --keep 3 --salt 00 -P a")) ≡
        Err SaltDigits }
    ensures later_than_source { scrypt_request (typed (codes "dec --keep 3 a")) ≡
        Err PassphraseSource }
    ensures of_info { scrypt_request (typed (codes "info --keep 4 F5")) ≡ Err Usage }
{}

// Costs at the ends of their ranges, and beyond.
#[tactic(auto, unfolding(clap::proofs::OnLiterals::clap_on_literals))]
fn costs_in_range()
    ensures least { scrypt_request (typed (codes "enc --logN 1 -r 1 -p 1 -P a")) ≡
        Ok (encrypt (encryption_without_salt (costs 1 1 1) (task_with_default_limits stdin_once (Some (codes "a")) None))) }
    ensures greatest { scrypt_request (typed (codes "enc --logN 63 -r 1073741823 -p 1 -P a")) ≡
        Ok (encrypt (encryption_without_salt (costs 63 1073741823 1) (task_with_default_limits stdin_once (Some (codes "a")) None))) }
    ensures no_log_n { scrypt_request (typed (codes "enc --logN 0 -r 1 -p 1 -P a")) ≡
        Err CostsOutOfRange }
    ensures log_n_above { scrypt_request (typed (codes "enc --logN 64 -r 1 -p 1 -P a")) ≡
        Err CostsOutOfRange }
    ensures log_n_of_two_bytes { scrypt_request (typed (codes "enc --logN 260 -r 1 -p 1 -P a")) ≡
        Err CostsOutOfRange }
    ensures no_r { scrypt_request (typed (codes "enc --logN 4 -r 0 -p 1 -P a")) ≡
        Err CostsOutOfRange }
    ensures no_p { scrypt_request (typed (codes "enc --logN 4 -r 1 -p 0 -P a")) ≡
        Err CostsOutOfRange }
    ensures product { scrypt_request (typed (codes "enc --logN 4 -r 32768 -p 32768 -P a")) ≡
        Err CostsOutOfRange }
    ensures wide_r { scrypt_request (typed (codes "enc --logN 4 -r 4294967297 -p 1 -P a")) ≡
        Err CostsOutOfRange }
    ensures widest { scrypt_request (typed (codes "enc --logN 4 -r 99999999999999999999 -p 99999999999999999999 -P a")) ≡
        Err CostsOutOfRange }
{}

// Each refusal after the first.
#[tactic(auto, unfolding(clap::proofs::OnLiterals::clap_on_literals, hex::proofs::OnLiterals::hex_on_literals))]
fn refusals()
    ensures stdin_twice { scrypt_request (typed (codes "enc -P - out")) ≡ Err StandardInputTwice }
    ensures stdin_twice_without_outfile { scrypt_request (typed (codes "dec -P -")) ≡ Err StandardInputTwice }
    ensures stdin_named { scrypt_request (typed (codes "dec --passphrase dev:stdin-once - out")) ≡
        Err StandardInputTwice }
    ensures file_without_a_name { scrypt_request (typed (codes "dec --passphrase file: a")) ≡ Err PassphraseSource }
    ensures long_name_of_a_letter { scrypt_request (typed (codes "dec --M 2048 -P a")) ≡ Err Usage }
    ensures long_name_of_the_flag { scrypt_request (typed (codes "dec --P a")) ≡ Err Usage }
    ensures some_costs { scrypt_request (typed (codes "enc --logN 4 --passphrase file:pw a b")) ≡
        Err SomeCosts }
    ensures two_costs { scrypt_request (typed (codes "enc -r 8 -p 1 --passphrase file:pw a b")) ≡
        Err SomeCosts }
    ensures same_name { scrypt_request (typed (codes "enc --passphrase file:pw a a")) ≡
        Err SameName }
    ensures same_stream { scrypt_request (typed (codes "enc --passphrase file:pw - -")) ≡
        Err SameName }
    ensures no_source { scrypt_request (typed (codes "dec a")) ≡ Err PassphraseSource }
    ensures other_method { scrypt_request (typed (codes "dec --passphrase dev:tty-stdin a")) ≡
        Err PassphraseSource }
    ensures two_sources { scrypt_request (typed (codes "dec -P --passphrase file:pw a")) ≡
        Err PassphraseSource }
    ensures no_name { scrypt_request (typed (codes "dec --passphrase env: a")) ≡
        Err PassphraseSource }
    ensures source_twice { scrypt_request (typed (codes "dec -P --passphrase dev:stdin-once a")) ≡
        Err PassphraseSource }
    ensures longer_method { scrypt_request (typed (codes "dec --passphrase dev:stdin-once2 a")) ≡
        Err PassphraseSource }
    ensures empty_source { scrypt_request (typed (codes "dec --passphrase= a")) ≡
        Err PassphraseSource }
    ensures short_salt { scrypt_request (typed (codes "enc --salt 000102030405060708090a0b0c0d0e0f101112131415161718191a1b1c1d1e1 -P a")) ≡
        Err SaltDigits }
    ensures other_digit { scrypt_request (typed (codes "enc --salt 000102030405060708090a0b0c0d0e0f101112131415161718191a1b1c1d1e1g -P a")) ≡
        Err SaltDigits }
    ensures empty_salt { scrypt_request (typed (codes "enc --salt= -P a")) ≡ Err SaltDigits }
{}

// Words that meet several refusals: the first in the order is told.
#[tactic(auto, unfolding(clap::proofs::OnLiterals::clap_on_literals, hex::proofs::OnLiterals::hex_on_literals))]
fn first_refusal()
    ensures usage { scrypt_request (typed (codes "enc -r x --salt 00 - -")) ≡ Err Usage }
    ensures limit { scrypt_request (typed (codes "enc -r 0 --maxops 0 --salt 00 - -")) ≡ Err Usage }
    ensures keep_before_costs { scrypt_request (typed (codes "enc --keep x --logN 4 -P a")) ≡ Err Usage }
    ensures limit_before_source { scrypt_request (typed (codes "dec -M 0 a")) ≡ Err Usage }
    ensures some_costs { scrypt_request (typed (codes "enc -r 0 --salt 00 -P - -")) ≡
        Err SomeCosts }
    ensures costs { scrypt_request (typed (codes "enc --logN 64 -r 1 -p 1 --salt 00 -P - -")) ≡
        Err CostsOutOfRange }
    ensures stdin_twice { scrypt_request (typed (codes "enc --salt 00 -P - -")) ≡
        Err StandardInputTwice }
    ensures same_name { scrypt_request (typed (codes "enc --salt 00 a a")) ≡ Err SameName }
    ensures source { scrypt_request (typed (codes "enc --salt 00 a b")) ≡ Err PassphraseSource }
{}

// Words that clap takes.
#[tactic(auto, unfolding(clap::proofs::OnLiterals::clap_on_literals))]
fn taken()
    ensures bundle { scrypt_request (typed (codes "enc -Pr8 --logN=4 -p 1 a")) ≡
        Ok (encrypt (encryption_without_salt (costs 4 8 1) (task_with_default_limits stdin_once (Some (codes "a")) None))) }
    ensures equals { scrypt_request (typed (codes "enc -r=8 -p=1 --logN=4 -P a")) ≡
        Ok (encrypt (encryption_without_salt (costs 4 8 1) (task_with_default_limits stdin_once (Some (codes "a")) None))) }
    ensures no_costs { scrypt_request (typed (codes "enc -P a")) ≡
        Ok (encrypt (encryption_without_salt (costs 17 8 1) (task_with_default_limits stdin_once (Some (codes "a")) None))) }
    ensures options_last { scrypt_request (typed (codes "dec a b -P")) ≡
        Ok (decrypt (task_with_default_limits stdin_once (Some (codes "a")) (Some (codes "b")))) }
    ensures after_dashes { scrypt_request (typed (codes "dec -P -- -x")) ≡
        Ok (decrypt (task_with_default_limits stdin_once (Some (codes "-x")) None)) }
    ensures outfile_dash { scrypt_request (typed (codes "dec -P a -")) ≡
        Ok (decrypt (task_with_default_limits stdin_once (Some (codes "a")) (Some (codes "-")))) }
    ensures outfile_after_dashes { scrypt_request (typed (codes "dec -P a -- -P")) ≡
        Ok (decrypt (task_with_default_limits stdin_once (Some (codes "a")) (Some (codes "-P")))) }
    ensures name_of_a_command { scrypt_request (typed (codes "dec -P help enc")) ≡
        Ok (decrypt (task_with_default_limits stdin_once (Some (codes "help")) (Some (codes "enc")))) }
    ensures file_named_dash { scrypt_request (typed (codes "dec --passphrase file:- a")) ≡
        Ok (decrypt (task_with_default_limits (file (codes "-")) (Some (codes "a")) None)) }
    ensures variable { scrypt_request (typed (codes "dec --passphrase=env:PW -")) ≡
        Ok (decrypt (task_with_default_limits (env (codes "PW")) None None)) }
    ensures info { scrypt_request (typed (codes "info F5")) ≡ Ok (inspect (Some (codes "F5"))) }
    ensures info_dash { scrypt_request (typed (codes "info -")) ≡ Ok (inspect None) }
    ensures empty_name { scrypt_request (typed (codes "info ")) ≡ Ok (inspect (Some [])) }
{}

// Words that clap refuses.
#[tactic(auto, unfolding(clap::proofs::OnLiterals::clap_on_literals))]
fn not_taken()
    ensures no_words { scrypt_request [] ≡ Err Usage }
    ensures empty_word { scrypt_request (typed (codes "")) ≡ Err Usage }
    ensures help { scrypt_request (typed (codes "--help")) ≡ Err Usage }
    ensures short_help { scrypt_request (typed (codes "-h")) ≡ Err Usage }
    ensures help_of_enc { scrypt_request (typed (codes "enc --help")) ≡ Err Usage }
    ensures help_command { scrypt_request (typed (codes "help")) ≡ Err Usage }
    ensures help_command_of_enc { scrypt_request (typed (codes "help enc")) ≡ Err Usage }
    ensures version { scrypt_request (typed (codes "--version")) ≡ Err Usage }
    ensures short_version { scrypt_request (typed (codes "-V")) ≡ Err Usage }
    ensures other_command { scrypt_request (typed (codes "foo")) ≡ Err Usage }
    ensures short_command { scrypt_request (typed (codes "en -P a")) ≡ Err Usage }
    ensures short_option { scrypt_request (typed (codes "enc --pass file:pw a")) ≡ Err Usage }
    ensures option_twice { scrypt_request (typed (codes "dec -M 1 -M 1 -P a")) ≡ Err Usage }
    ensures flag_twice { scrypt_request (typed (codes "dec -P -P a")) ≡ Err Usage }
    ensures dash_value { scrypt_request (typed (codes "dec -M -1 -P a")) ≡ Err Usage }
    ensures dash_source { scrypt_request (typed (codes "dec --passphrase -x a")) ≡ Err Usage }
    ensures dash_file { scrypt_request (typed (codes "dec -P -x")) ≡ Err Usage }
    ensures no_value { scrypt_request (typed (codes "dec a -M")) ≡ Err Usage }
    ensures no_infile { scrypt_request (typed (codes "dec -P")) ≡ Err Usage }
    ensures three_files { scrypt_request (typed (codes "dec -P a b c")) ≡ Err Usage }
    ensures flag_before { scrypt_request (typed (codes "-P dec a")) ≡ Err Usage }
    ensures dashes_before { scrypt_request (typed (codes "-- dec -P a")) ≡ Err Usage }
    ensures costs_of_dec { scrypt_request (typed (codes "dec --logN 4 -P a")) ≡ Err Usage }
    ensures salt_of_dec { scrypt_request (typed (codes "dec --salt 00 -P a")) ≡ Err Usage }
    ensures source_of_info { scrypt_request (typed (codes "info -P a")) ≡ Err Usage }
    ensures two_files_of_info { scrypt_request (typed (codes "info a b")) ≡ Err Usage }
{}
