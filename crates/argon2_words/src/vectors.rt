//! The definitions of argon2's words, run on what the reference program takes.
ghost use Rattle.std.specs.Prelude.{◌≡◌, [], ◌∷◌, Ok, Err, None, Some, codes, false, map, replicate, true};
ghost use Rattle.argon.specs.declared.kind.Kind.TheVariants.{D, I, Id};
ghost use Rattle.argon.specs.declared.fault.ParamFault.TheVariants as fault;
ghost use Rattle.argon2_words.specs.Items as item;
ghost use Rattle.argon2_words.specs.Items.{item_of_flag, option_of};
ghost use Rattle.argon2_words.specs.Laws.{settings_with_last_item};
ghost use Rattle.argon2_words.specs.Request.{argon2_request};
ghost use Rattle.argon2_words.specs.Settings.{defaults, power_of_two_from_word, version_number};
ghost use Rattle.argon2_words.specs.Refusal.{faults_after_refusal, line_of, refusal_of};
ghost use Rattle.argon2_words.specs.declared.items.Form.TheVariants.{Encoded, Hex};
ghost use Rattle.argon2_words.specs.declared.items.OptionName.TheVariants as option;
ghost use Rattle.argon2_words.specs.declared.refusal.Argon2Refusal.TheVariants.{BadNumber, EmptyPassword, Lanes, LongPassword, Memory, MemoryLimit, MissingValue, OneForm, OutOfMemory, OutputFault, Passes, PasswordFault, SaltLength, TagLength, UnknownWord, Usage, WorkLimit};
ghost use Rattle.argon2_words.specs.declared.settings.Version.TheVariants.{V10, V13};

fn settings_of_two_passes()
    ensures request { argon2_request (codes "somesalt" ∷ codes "-t" ∷ codes "2" ∷ codes "-m" ∷ codes "8"
        ∷ codes "-e" ∷ []) ≡
        Ok (record {
          salt = codes "somesalt";
          settings = record defaults { passes = 2; memory_kib = 256; encoded = true };
          form = Encoded;
        }) }
{}

fn last_type_counts()
    ensures request { argon2_request (codes "somesalt" ∷ codes "-d" ∷ codes "-i" ∷ codes "-id" ∷ codes "-t"
        ∷ codes "2" ∷ codes "-k" ∷ codes "256" ∷ codes "-e" ∷ []) ≡
        Ok (record {
          salt = codes "somesalt";
          settings = record defaults { kind = Id; passes = 2; memory_kib = 256; encoded = true };
          form = Encoded;
        }) }
{}

fn version_is_hexadecimal()
    ensures request { argon2_request (codes "somesalt" ∷ codes "-v" ∷ codes "10" ∷ codes "-e" ∷ []) ≡
        Ok (record {
          salt = codes "somesalt";
          settings = record defaults { version = V10; encoded = true };
          form = Encoded;
        }) }
    ensures decimal { argon2_request (codes "somesalt" ∷ codes "-v" ∷ codes "16" ∷ codes "-e" ∷ []) ≡
        Err BadNumber }
{}

fn first_faulty_item_decides()
    ensures both_forms { argon2_request (codes "somesalt" ∷ codes "-e" ∷ codes "-r" ∷ []) ≡ Err OneForm }
    ensures no_form { argon2_request (codes "somesalt" ∷ []) ≡ Err OneForm }
    ensures no_value { argon2_request (codes "somesalt" ∷ codes "-e" ∷ codes "-t" ∷ []) ≡
        Err MissingValue }
    ensures bad_number { argon2_request (codes "somesalt" ∷ codes "-t" ∷ codes "x" ∷ codes "-q" ∷ []) ≡
        Err BadNumber }
    ensures no_words { argon2_request [] ≡ Err Usage }
{}

// What no word sets, number by number, as Debian's manual page of argon2 tells it; the limits are own.
fn settings_of_no_item()
    ensures request { argon2_request (codes "somesalt" ∷ codes "-r" ∷ []) ≡
        Ok (record {
          salt = codes "somesalt";
          settings = record {
            kind = I;
            passes = 3;
            memory_kib = 4096;
            lanes = 1;
            tag_length = 32;
            version = V13;
            max_memory_kib = 4194304;
            max_ops = 8589934592;
            encoded = false;
            hex = true;
          };
          form = Hex;
        }) }
{}

// Each option sets its own number.
fn each_option()
    ensures numbers { argon2_request (codes "somesalt" ∷ codes "-t" ∷ codes "4294967295" ∷ codes "-p" ∷ codes "5"
        ∷ codes "-l" ∷ codes "6" ∷ codes "-k" ∷ codes "7" ∷ codes "--maxmem" ∷ codes "8" ∷ codes "--maxops" ∷ codes "9" ∷ codes "-v" ∷ codes "13" ∷ codes "-r" ∷ []) ≡
        Ok (record {
          salt = codes "somesalt";
          settings = record defaults { passes = 4294967295; lanes = 5; tag_length = 6; memory_kib = 7; max_memory_kib = 8; max_ops = 9; hex = true };
          form = Hex;
        }) }
{}

// The ends of numbers: 2^32 is none of -t, -m has powers from 1 to 31, --maxmem takes 1 to 2^32 - 1, and --maxops 1 to
// 2^63 - 1 (docs/values.tsv).
fn ends_of_numbers()
    ensures count_above { argon2_request (codes "somesalt" ∷ codes "-t" ∷ codes "4294967296" ∷ codes "-e" ∷ []) ≡ Err BadNumber }
    ensures no_power { argon2_request (codes "somesalt" ∷ codes "-m" ∷ codes "0" ∷ codes "-e" ∷ []) ≡ Err BadNumber }
    ensures greatest_power { argon2_request (codes "somesalt" ∷ codes "-m" ∷ codes "31" ∷ codes "-e" ∷ []) ≡
        Ok (record {
          salt = codes "somesalt";
          settings = record defaults { memory_kib = 2147483648; encoded = true };
          form = Encoded;
        }) }
    ensures power_above { argon2_request (codes "somesalt" ∷ codes "-m" ∷ codes "32" ∷ codes "-e" ∷ []) ≡ Err BadNumber }
    ensures no_memory_limit { argon2_request (codes "somesalt" ∷ codes "--maxmem" ∷ codes "0" ∷ codes "-e" ∷ []) ≡ Err BadNumber }
    ensures no_work_limit { argon2_request (codes "somesalt" ∷ codes "--maxops" ∷ codes "0" ∷ codes "-e" ∷ []) ≡ Err BadNumber }
    ensures greatest_limits { argon2_request (codes "somesalt" ∷ codes "--maxmem" ∷ codes "4294967295" ∷ codes "--maxops" ∷ codes "9223372036854775807"
        ∷ codes "-e" ∷ []) ≡
        Ok (record {
          salt = codes "somesalt";
          settings = record defaults { max_memory_kib = 4294967295; max_ops = 9223372036854775807; encoded = true };
          form = Encoded;
        }) }
    ensures memory_limit_above { argon2_request (codes "somesalt" ∷ codes "--maxmem" ∷ codes "4294967296" ∷ codes "-e" ∷ []) ≡ Err BadNumber }
    ensures work_limit_above { argon2_request (codes "somesalt" ∷ codes "--maxops" ∷ codes "9223372036854775808" ∷ codes "-e" ∷ []) ≡ Err BadNumber }
    ensures unknown { argon2_request (codes "somesalt" ∷ codes "-q" ∷ codes "-t" ∷ codes "x" ∷ []) ≡ Err UnknownWord }
    ensures help { argon2_request (codes "somesalt" ∷ codes "-h" ∷ codes "-q" ∷ []) ≡ Err Usage }
    ensures help_first { argon2_request (codes "-h" ∷ codes "-e" ∷ []) ≡ Err Usage }
    ensures salt_like_an_item { argon2_request (codes "-q" ∷ []) ≡ Err OneForm }
{}

// docs/REFUSALS.md, the table of argon2: the line of each.
fn lines_of_refusals()
    ensures usage { line_of Usage ≡ codes "argon2: usage: argon2 salt [-i|-d|-id] [-t N] [-m N | -k N] [-p N] [-l N] [-v VERSION] [--maxmem KIB] [--maxops N] (-e|-r)" }
    ensures unknown_word { line_of UnknownWord ≡ codes "argon2: unknown word" }
    ensures missing_value { line_of MissingValue ≡ codes "argon2: missing value" }
    ensures bad_number { line_of BadNumber ≡ codes "argon2: bad number" }
    ensures chosen_output_form { line_of OneForm ≡ codes "argon2: exactly one of -e and -r is needed" }
    ensures password_fault { line_of PasswordFault ≡ codes "argon2: password cannot be read" }
    ensures empty_password { line_of EmptyPassword ≡ codes "argon2: password is empty" }
    ensures long_password { line_of LongPassword ≡ codes "argon2: password is longer than 127 bytes" }
    ensures passes { line_of Passes ≡ codes "argon2: passes out of range" }
    ensures lanes { line_of Lanes ≡ codes "argon2: lanes out of range" }
    ensures memory { line_of Memory ≡ codes "argon2: memory out of range" }
    ensures tag_length { line_of TagLength ≡ codes "argon2: tag length out of range" }
    ensures salt_length { line_of SaltLength ≡ codes "argon2: salt length out of range" }
    ensures memory_limit { line_of MemoryLimit ≡ codes "argon2: more memory needed than --maxmem allows" }
    ensures work_limit { line_of WorkLimit ≡ codes "argon2: more work needed than --maxops allows" }
    ensures out_of_memory { line_of OutOfMemory ≡ codes "argon2: out of memory" }
    ensures output_fault { line_of OutputFault ≡ codes "argon2: output cannot be written" }
{}

// A failing call of the host raises its own count, and no other refusal raises one.
fn counts_of_refusals()
    ensures password { faults_after_refusal PasswordFault (record { input = 10; output = 20; secrets = 30; salt = 40; lines = 50 }) ≡ record { input = 10; output = 20; secrets = 31; salt = 40; lines = 50 } }
    ensures output { faults_after_refusal OutputFault (record { input = 10; output = 20; secrets = 30; salt = 40; lines = 50 }) ≡ record { input = 10; output = 21; secrets = 30; salt = 40; lines = 50 } }
    ensures memory { faults_after_refusal OutOfMemory (record { input = 10; output = 20; secrets = 30; salt = 40; lines = 50 }) ≡ record { input = 10; output = 20; secrets = 30; salt = 40; lines = 50 } }
{}

// The names of refusals are those of faults; the row of a password's length is never taken, since that is tested before.
fn refusals_of_faults()
    ensures each { map refusal_of (fault.Passes ∷ fault.Lanes ∷ fault.Memory ∷ fault.TagLength ∷ fault.SaltLength ∷ fault.PasswordLength ∷ fault.MemoryLimit ∷ fault.WorkLimit ∷ [])
        ≡ Passes ∷ Lanes ∷ Memory ∷ TagLength ∷ SaltLength ∷ LongPassword ∷ MemoryLimit ∷ WorkLimit ∷ [] }
{}

// RFC 9106, 3.1, has 0x13; 0x10 is version 1.0 of the reference program (argon2.h: ARGON2_VERSION_10).
fn numbers_of_versions()
    ensures each { version_number V10 ∷ version_number V13 ∷ [] ≡ 0x10 ∷ 0x13 ∷ [] }
{}

// man/argon2.1, -m: 2^N KiB for N from 1 to 31.
fn powers_of_words()
    ensures each { map power_of_two_from_word (codes "0" ∷ codes "1" ∷ codes "2" ∷ codes "10" ∷ codes "31" ∷ codes "32" ∷ [])
        ≡ None ∷ Some 2 ∷ Some 4 ∷ Some 1024 ∷ Some 2147483648 ∷ None ∷ [] }
{}

// man/argon2.1, OPTIONS: each word that stands alone, words beside them, which argon2 0~20171227 knows as little, and each
// option with its value's name.
fn items_of_words()
    ensures flags { map item_of_flag (codes "-d" ∷ codes "-i" ∷ codes "-id" ∷ codes "-e" ∷ codes "-r" ∷ codes "-h" ∷ codes "-di" ∷ codes "d" ∷ codes "-" ∷ codes "" ∷ codes "-D" ∷ [])
        ≡ item.kind D ∷ item.kind I ∷ item.kind Id ∷ item.form Encoded ∷ item.form Hex ∷ item.help ∷ item.unknown_word ∷ item.unknown_word ∷ item.unknown_word ∷ item.unknown_word ∷ item.unknown_word ∷ [] }
    ensures beside_flags { map item_of_flag (codes "-idx" ∷ codes "-ex" ∷ codes "-rx" ∷ codes "-help" ∷ codes "--help" ∷ codes "-E" ∷ codes "-R" ∷ codes "-H" ∷ codes "-I" ∷ codes "-ID" ∷ [])
        ≡ replicate 10 item.unknown_word }
    ensures options { map option_of (codes "-t" ∷ codes "-m" ∷ codes "-k" ∷ codes "-p" ∷ codes "-l" ∷ codes "-v" ∷ codes "--maxmem" ∷ codes "--maxops" ∷ codes "-T" ∷ codes "--max" ∷ [])
        ≡ Some option.Passes ∷ Some option.LogMemory ∷ Some option.Memory ∷ Some option.Lanes ∷ Some option.TagLength ∷ Some option.Version ∷ Some option.MaxMemory ∷ Some option.MaxOps ∷ None ∷ None ∷ [] }
{}

// The last of several counts, and a form that is named twice is one form; the word after an option is its value, whatever it
// is; and 0 is a number of -p, whose range is tested later.
fn words_in_other_places()
    ensures types { argon2_request (codes "somesalt" ∷ codes "-d" ∷ codes "-i" ∷ codes "-e" ∷ []) ≡
        Ok (record { salt = codes "somesalt"; settings = record defaults { encoded = true }; form = Encoded }) }
    ensures versions { argon2_request (codes "somesalt" ∷ codes "-v" ∷ codes "10" ∷ codes "-v" ∷ codes "13" ∷ codes "-e" ∷ []) ≡
        Ok (record { salt = codes "somesalt"; settings = record defaults { encoded = true }; form = Encoded }) }
    ensures forms { argon2_request (codes "somesalt" ∷ codes "-e" ∷ codes "-e" ∷ []) ≡
        Ok (record { salt = codes "somesalt"; settings = record defaults { encoded = true }; form = Encoded }) }
    ensures help_as_a_value { argon2_request (codes "somesalt" ∷ codes "-t" ∷ codes "-h" ∷ codes "-e" ∷ []) ≡ Err BadNumber }
    ensures last_item { settings_with_last_item defaults (item.kind D ∷ item.form Hex ∷ []) (item.kind Id) ≡ Ok (record defaults { kind = Id; hex = true }) }
    ensures no_lanes { argon2_request (codes "somesalt" ∷ codes "-p" ∷ codes "0" ∷ codes "-e" ∷ []) ≡
        Ok (record { salt = codes "somesalt"; settings = record defaults { lanes = 0; encoded = true }; form = Encoded }) }
{}
