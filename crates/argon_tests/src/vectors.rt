//! What the checker computes of the definitions in specs/: each function's clause is an equation,
//! which is proved by computing both sides. So the definitions are run, and not the code.
ghost use Rattle.std.specs.Prelude.{◌≡◌, ◌+◌, ◌-◌, ◌*◌, ◌/◌, ◌%◌, ◌^◌, ◌<◌, ◌++◌, [], ◌∷◌, Ok, Err, None, Some, codes, false, is_some, length, map, replicate, slice_index, true};
ghost use Rattle.std.specs.List.{range_with_len};
ghost use Rattle.argon.specs.Argon2.{argon2_tag, first_hash, matrix_block, next_block, stored_block_by_j1_j2};
ghost use Rattle.argon.specs.Buffer.{block_held, column_number_after_slices};
ghost use Rattle.argon.specs.Filling.{next_slice};
ghost use Rattle.argon.specs.Laws.{after_lane_turns, lane_turn_work, lane_turns_work};
ghost use Rattle.argon.specs.Plan.{entry_at, independent_reference_place, independent_reference_word};
ghost use Rattle.argon.specs.Woven.{first_column, is_column_made, with_next_slice, woven};
ghost use Rattle.argon.specs.Compression.{compression};
ghost use Rattle.argon.specs.Counts.{address_blocks_made_at, column_work, first_index, segment_work, slice_work, work};
ghost use Rattle.argon.specs.Inputs.{InputsFitParameters, inputs_of};
ghost use Rattle.argon.specs.Kind.{type_number};
ghost use Rattle.argon.specs.Range.{admission, checked_parameters, checked_with_any_password_length};
ghost use Rattle.argon.specs.Reference.{address_block, is_independent, reference_lane, reference_number, reference_set, reference_words, relative_place};
ghost use Rattle.four_words.specs.Words.{xored_words};
ghost use Rattle.argon.specs.Vectors.{two_lane_sample_parameters};
ghost use Rattle.argon.specs.SliceProgress.{after_step, lane_work_left, new_slice_progress, next_column_number, next_index_in_segment, work_left};
ghost use Rattle.argon.specs.declared.fault.ParamFault.TheVariants.{Lanes, Memory, MemoryLimit, Passes, PasswordLength, SaltLength, TagLength, WorkLimit};
ghost use Rattle.argon.specs.declared.kind.Kind.TheVariants.{D, I, Id};

use argon::{Inputs, Matrix, Params, Place, Ticks, plan_segment};

// G of two blocks of 128 different words each, whose 128 words are different too, as a Python program of RFC 9106 gives
// it, whose tags are those of RFC 9106, section 5.
fn compression_of_two_blocks()
    ensures words { compression
        (map (λ k. k * 0x9E37_79B9_7F4A_7C15 % 2 ^ 64) (range_with_len 1 128))
        (map (λ k. k * 0xD1B5_4A32_D192_ED03 % 2 ^ 64) (range_with_len 201 128)) ≡
        0x83DB51FCBC46330D ∷ 0xFD50C56A4D175896 ∷ 0xD55607BEB393E48A ∷ 0x0E2FABEB0BF635A8 ∷
        0x57313E1C71F9C680 ∷ 0x50AB2A61336C0659 ∷ 0x058E7845422712D3 ∷ 0xFC20190C99345032 ∷
        0x5AC6F72BBC6C0647 ∷ 0x025295DEC62ED679 ∷ 0x6E666BBDD40308AE ∷ 0x50BFA6EF8F3F87A4 ∷
        0x34D317474B48C5B6 ∷ 0x3AA725DABFA234C4 ∷ 0x9C3B3DA59DEC0227 ∷ 0x61D77E4ABDA828C1 ∷
        0x8EA20F6D5ABDBDE1 ∷ 0xC3578371CF14EB82 ∷ 0x433AAFA2D0F48E63 ∷ 0xB090C7A0D00078AC ∷
        0x4B5203C4AD2CEF91 ∷ 0xE7946195DBA81781 ∷ 0x42AE71397FEAAF00 ∷ 0x2F88EA5631B2B533 ∷
        0x38CE3DE9B3DE3FA8 ∷ 0xB6C8175A5F64742D ∷ 0xCBFDF770AC452A31 ∷ 0x07FA750A92670FB9 ∷
        0x5911B96EADF00848 ∷ 0xFE9844FF9E482B2C ∷ 0x09134508363E6B96 ∷ 0x56844214F3943E11 ∷
        0x9133C4A70031F18B ∷ 0x7C9907F70CB58A52 ∷ 0xA8084D25A011144B ∷ 0xDED69A17E1F07273 ∷
        0xE80BBAD8330F8E39 ∷ 0x5F465D2C8F7A182D ∷ 0x42DD13A7D63865A6 ∷ 0x6A1B65CEB9B709CC ∷
        0x41FA51F4D596298D ∷ 0x9B634C59904D1C91 ∷ 0x41CF225E9ADA92CB ∷ 0x073DA71B85736BB8 ∷
        0xB0ADBF180CB8273E ∷ 0x2E9E7ADBD535A179 ∷ 0xB821E54D1672D3FD ∷ 0x6AB49A0C41DA11E5 ∷
        0xAB8AA34282507B84 ∷ 0xEDAC824162E0D04E ∷ 0xEB6FD1F428EF3E99 ∷ 0x9D366FA9AE7556C6 ∷
        0x62A46390FF1DF322 ∷ 0xDD4FDB2A3F422E83 ∷ 0xA4AC765D7AC65E82 ∷ 0x85D0C648AE714938 ∷
        0x893DD70CE5E20B6A ∷ 0x1525182842459C14 ∷ 0x57CBFC4C3A54A8E7 ∷ 0x6FAA7353C748E15F ∷
        0xAAF876AFF9D71E98 ∷ 0x3AD17B975893B7A2 ∷ 0xA5EB7C8238C48D3B ∷ 0xC46EE889E030AB27 ∷
        0x78DEDECE36E09BEA ∷ 0xF1026AEB59E29A5A ∷ 0x9837C5DE226BB630 ∷ 0x99BF997A871ADDF0 ∷
        0xF71F1F9F52A5D187 ∷ 0xD9F8D8EA720DC910 ∷ 0xC585D557C69FACEC ∷ 0xDB3E8B963F01718B ∷
        0x718A3CB516AB3B32 ∷ 0xB03E92E61AB7D49F ∷ 0x3F8E5570082FEF92 ∷ 0xDC753E2CD6BE035D ∷
        0x61003D6F09990743 ∷ 0x9544D61DDB05D13C ∷ 0x1C0AC09D15DEA196 ∷ 0xBAC8DE76F6F95C1A ∷
        0x6E854D2CCB6D53C6 ∷ 0x99D9E474E05BB371 ∷ 0xC71190C56DFE130C ∷ 0x75F220B617891DE6 ∷
        0x01E704269595C909 ∷ 0x18D7086E52F2D141 ∷ 0x7A1ACDADBAAC2F66 ∷ 0xA9C474E4EED3780A ∷
        0x00412D7C7EA327BA ∷ 0x0B58AF2495F471F1 ∷ 0xE349A9E289454B7C ∷ 0xDC64B05CEA581524 ∷
        0x450A7992ED5CA122 ∷ 0xE4A308D050417D34 ∷ 0xC363808C9FF4C286 ∷ 0xF6E5E486FF9D7BEA ∷
        0x848CED79FD1742EE ∷ 0xF210E5767D8754AD ∷ 0x4700E1D6B10F4626 ∷ 0xC204FDC4671BB503 ∷
        0x86C92178F0EDD245 ∷ 0x18336695FF982040 ∷ 0xF5D32C0D4D1FEDAB ∷ 0xDA1522B71EE9B0A5 ∷
        0x064F821E52586D13 ∷ 0x6AC5FEA836365F35 ∷ 0x14B182D1B9C224F0 ∷ 0x276A9C46C17A7CF7 ∷
        0xDA194FB9C6DE35F7 ∷ 0xFB3A91C7FBACE009 ∷ 0x20BBFBBDC0B2CA32 ∷ 0x10454DC50FC324B1 ∷
        0x483E9678EF2406A6 ∷ 0x1DA9F96DA7BF8125 ∷ 0x6FE42C46BA1E463A ∷ 0xE4A2388A3A6475C0 ∷
        0x995453990B2A6265 ∷ 0xB279C30C3074174C ∷ 0xF4984794D6F78646 ∷ 0x40A23F706968E23C ∷
        0x1B94F17FBB5176BC ∷ 0xD964E397236888CF ∷ 0x8C738835E2FDB634 ∷ 0x4709E1C036CA39EE ∷
        0xF940CE1E24913C31 ∷ 0xEBF1FDCC70A624B2 ∷ 0x47A784BE6100E70B ∷ 0xFDFC6020554E3CC4 ∷ [] }
{}

// printf password | argon2 somesalt -d -t 1 -k 8 -p 1 -l 32 -r
fn tag_of_argon2d_in_one_pass()
    ensures tag { argon2_tag (record {
      kind = 0;
      version = 0x13;
      passes = 1;
      lanes = 1;
      memory_kib = 8;
      tag_len = 32;
      salt_len = 8;
      password_len = 8;
    }) (record {
      password = codes "password";
      salt = codes "somesalt";
      secret = [];
      associated = [];
    }) ≡
        0xC5 ∷ 0x19 ∷ 0xE6 ∷ 0x03 ∷ 0xAC ∷ 0x60 ∷ 0x3E ∷ 0xC1 ∷
        0xAE ∷ 0xB5 ∷ 0xB7 ∷ 0x1E ∷ 0xC4 ∷ 0x4A ∷ 0x61 ∷ 0x79 ∷
        0xE3 ∷ 0xF3 ∷ 0x97 ∷ 0x5B ∷ 0x14 ∷ 0xC0 ∷ 0xC9 ∷ 0x7E ∷
        0x39 ∷ 0x14 ∷ 0xC7 ∷ 0x9E ∷ 0x63 ∷ 0x63 ∷ 0xE1 ∷ 0x78 ∷ [] }
{}

// printf password | argon2 somesalt -d -t 1 -k 8 -p 1 -l 64 -r: the longest tag of one hash
fn tag_of_64_bytes()
    ensures tag { argon2_tag (record {
      kind = 0;
      version = 0x13;
      passes = 1;
      lanes = 1;
      memory_kib = 8;
      tag_len = 64;
      salt_len = 8;
      password_len = 8;
    }) (record {
      password = codes "password";
      salt = codes "somesalt";
      secret = [];
      associated = [];
    }) ≡
        0x5E ∷ 0x85 ∷ 0x42 ∷ 0x4B ∷ 0xCC ∷ 0x54 ∷ 0x99 ∷ 0x14 ∷
        0x47 ∷ 0x99 ∷ 0x59 ∷ 0x2B ∷ 0x3C ∷ 0x49 ∷ 0x5C ∷ 0x83 ∷
        0x2E ∷ 0x35 ∷ 0xA2 ∷ 0x30 ∷ 0x9E ∷ 0x36 ∷ 0x83 ∷ 0x65 ∷
        0x78 ∷ 0x19 ∷ 0x0C ∷ 0x0F ∷ 0x5B ∷ 0x4A ∷ 0xCC ∷ 0xD3 ∷
        0xD6 ∷ 0xE2 ∷ 0x1F ∷ 0x53 ∷ 0xE1 ∷ 0xFE ∷ 0xC4 ∷ 0x57 ∷
        0x44 ∷ 0x38 ∷ 0xA1 ∷ 0x2F ∷ 0x2D ∷ 0x81 ∷ 0xB1 ∷ 0x7D ∷
        0x15 ∷ 0xA6 ∷ 0x68 ∷ 0xC2 ∷ 0x6E ∷ 0x1A ∷ 0x23 ∷ 0xFD ∷
        0x92 ∷ 0x6B ∷ 0xBA ∷ 0x58 ∷ 0x89 ∷ 0xEC ∷ 0x11 ∷ 0xE9 ∷ [] }
{}

// printf password | argon2 somesalt -d -t 1 -k 8 -p 1 -l 4 -r: the shortest tag
fn tag_of_4_bytes()
    ensures tag { argon2_tag (record {
      kind = 0;
      version = 0x13;
      passes = 1;
      lanes = 1;
      memory_kib = 8;
      tag_len = 4;
      salt_len = 8;
      password_len = 8;
    }) (record {
      password = codes "password";
      salt = codes "somesalt";
      secret = [];
      associated = [];
    }) ≡
        0x79 ∷ 0x3F ∷ 0xF6 ∷ 0x94 ∷ [] }
{}

// printf password | argon2 somesalt -id -t 2 -k 8 -p 1 -l 32 -r
fn tag_of_argon2id_in_two_passes()
    ensures tag { argon2_tag (record {
      kind = 2;
      version = 0x13;
      passes = 2;
      lanes = 1;
      memory_kib = 8;
      tag_len = 32;
      salt_len = 8;
      password_len = 8;
    }) (record {
      password = codes "password";
      salt = codes "somesalt";
      secret = [];
      associated = [];
    }) ≡
        0xFD ∷ 0xB4 ∷ 0xDD ∷ 0xB6 ∷ 0xD5 ∷ 0x88 ∷ 0x71 ∷ 0x31 ∷
        0xB6 ∷ 0x6F ∷ 0x0B ∷ 0x2A ∷ 0x37 ∷ 0x40 ∷ 0xC0 ∷ 0x77 ∷
        0xDD ∷ 0x05 ∷ 0xB7 ∷ 0x55 ∷ 0x84 ∷ 0x58 ∷ 0x61 ∷ 0xF6 ∷
        0xB5 ∷ 0xA1 ∷ 0xDD ∷ 0xE8 ∷ 0xB1 ∷ 0x07 ∷ 0x16 ∷ 0x46 ∷ [] }
{}

// printf password | argon2 somesalt -id -t 2 -k 24 -p 2 -l 32 -r: segments of three columns, in which W of the own lane is
// longer than that of the other
fn tag_of_argon2id_with_two_lanes()
    ensures tag { argon2_tag (record {
      kind = 2;
      version = 0x13;
      passes = 2;
      lanes = 2;
      memory_kib = 24;
      tag_len = 32;
      salt_len = 8;
      password_len = 8;
    }) (record {
      password = codes "password";
      salt = codes "somesalt";
      secret = [];
      associated = [];
    }) ≡
        0x63 ∷ 0x5E ∷ 0xD0 ∷ 0x8A ∷ 0xAF ∷ 0x3C ∷ 0x4C ∷ 0x74 ∷
        0x1A ∷ 0x27 ∷ 0x96 ∷ 0x34 ∷ 0x00 ∷ 0x18 ∷ 0x36 ∷ 0xC9 ∷
        0xCB ∷ 0x98 ∷ 0x57 ∷ 0x86 ∷ 0xEB ∷ 0xB7 ∷ 0x3F ∷ 0x32 ∷
        0x85 ∷ 0x25 ∷ 0x5B ∷ 0x3C ∷ 0x11 ∷ 0xEF ∷ 0x46 ∷ 0xE4 ∷ [] }
{}

// printf password | argon2 somesalt -d -t 2 -k 8 -p 1 -l 32 -v 10 -r
fn tag_of_argon2d_of_version_0x10()
    ensures tag { argon2_tag (record {
      kind = 0;
      version = 0x10;
      passes = 2;
      lanes = 1;
      memory_kib = 8;
      tag_len = 32;
      salt_len = 8;
      password_len = 8;
    }) (record {
      password = codes "password";
      salt = codes "somesalt";
      secret = [];
      associated = [];
    }) ≡
        0x1A ∷ 0xB6 ∷ 0x0B ∷ 0x86 ∷ 0x46 ∷ 0x2B ∷ 0x36 ∷ 0x6B ∷
        0xD0 ∷ 0x1B ∷ 0x07 ∷ 0x33 ∷ 0x1B ∷ 0x33 ∷ 0x2B ∷ 0x04 ∷
        0xA7 ∷ 0xEB ∷ 0xF1 ∷ 0x77 ∷ 0xE4 ∷ 0xA4 ∷ 0x5C ∷ 0xDE ∷
        0x32 ∷ 0xD4 ∷ 0x9F ∷ 0x08 ∷ 0x63 ∷ 0xAC ∷ 0xE2 ∷ 0xEA ∷ [] }
{}

// The block functions of RFC 9106, section 5.1, by the contract of `hash`.
fn count_of_argon2d(matrix: &mut Matrix, inputs: &Inputs<'_>, out: &mut [u8], ticks: &mut Ticks)
    requires parameters { matrix.old.parameters ≡ record {
      kind = 0;
      version = 0x13;
      passes = 3;
      lanes = 4;
      memory_kib = 32;
      tag_len = 32;
      salt_len = 16;
      password_len = 32;
    } }
    requires inputs { InputsFitParameters matrix.old.parameters (inputs_of inputs.now) }
    requires len { length out.old ≡ matrix.old.parameters.tag_len }
    ensures count { ticks.new ≡ ticks.old + 88 }
{
    matrix.hash(inputs, out, ticks);
}

// The block functions of RFC 9106, section 5.2, by the contract of `hash`.
fn count_of_argon2i(matrix: &mut Matrix, inputs: &Inputs<'_>, out: &mut [u8], ticks: &mut Ticks)
    requires parameters { matrix.old.parameters ≡ record {
      kind = 1;
      version = 0x13;
      passes = 3;
      lanes = 4;
      memory_kib = 32;
      tag_len = 32;
      salt_len = 16;
      password_len = 32;
    } }
    requires inputs { InputsFitParameters matrix.old.parameters (inputs_of inputs.now) }
    requires len { length out.old ≡ matrix.old.parameters.tag_len }
    ensures count { ticks.new ≡ ticks.old + 184 }
{
    matrix.hash(inputs, out, ticks);
}

// The block functions of RFC 9106, section 5.3, by the contract of `hash`.
fn count_of_argon2id(matrix: &mut Matrix, inputs: &Inputs<'_>, out: &mut [u8], ticks: &mut Ticks)
    requires parameters { matrix.old.parameters ≡ record {
      kind = 2;
      version = 0x13;
      passes = 3;
      lanes = 4;
      memory_kib = 32;
      tag_len = 32;
      salt_len = 16;
      password_len = 32;
    } }
    requires inputs { InputsFitParameters matrix.old.parameters (inputs_of inputs.now) }
    requires len { length out.old ≡ matrix.old.parameters.tag_len }
    ensures count { ticks.new ≡ ticks.old + 104 }
{
    matrix.hash(inputs, out, ticks);
}

// The block functions of a plan in Argon2i with one lane and one pass, by the contract of `plan_segment`: a segment of two
// columns has one address block.
fn count_of_a_plan_of_two_columns(params: &Params, slice: u32, out: &mut [Place], ticks: &mut Ticks)
    requires parameters { params.now ≡ record {
      kind = 1;
      version = 0x13;
      passes = 1;
      lanes = 1;
      memory_kib = 8;
      tag_len = 32;
      salt_len = 8;
      password_len = 8;
    } }
    requires slices { slice < 4 }
    requires size { length out.old ≡ 2 }
    ensures count { ticks.new ≡ ticks.old + 2 }
{
    plan_segment(params, 0, 0, slice, out, ticks);
}

// The same of a segment of 129 columns, which has two address blocks.
fn count_of_a_plan_of_129_columns(params: &Params, slice: u32, out: &mut [Place], ticks: &mut Ticks)
    requires parameters { params.now ≡ record {
      kind = 1;
      version = 0x13;
      passes = 1;
      lanes = 1;
      memory_kib = 516;
      tag_len = 32;
      salt_len = 8;
      password_len = 8;
    } }
    requires slices { slice < 4 }
    requires size { length out.old ≡ 129 }
    ensures count { ticks.new ≡ ticks.old + 4 }
{
    plan_segment(params, 0, 0, slice, out, ticks);
}

// printf password | argon2 somesalt -i -t 2 -k 9 -p 1 -l 32 -r: one KiB more than the blocks have
fn tag_of_argon2i_in_two_passes()
    ensures tag { argon2_tag (record {
      kind = 1;
      version = 0x13;
      passes = 2;
      lanes = 1;
      memory_kib = 9;
      tag_len = 32;
      salt_len = 8;
      password_len = 8;
    }) (record {
      password = codes "password";
      salt = codes "somesalt";
      secret = [];
      associated = [];
    }) ≡
        0x89 ∷ 0x95 ∷ 0xC4 ∷ 0xD7 ∷ 0x64 ∷ 0xED ∷ 0x9F ∷ 0xFD ∷
        0xD6 ∷ 0xBC ∷ 0x1B ∷ 0xCB ∷ 0xA0 ∷ 0x69 ∷ 0xA7 ∷ 0x36 ∷
        0x86 ∷ 0x4B ∷ 0x13 ∷ 0xA7 ∷ 0xE4 ∷ 0xB8 ∷ 0xC8 ∷ 0x19 ∷
        0xAB ∷ 0x9E ∷ 0x47 ∷ 0xAA ∷ 0xE8 ∷ 0x71 ∷ 0x35 ∷ 0x2C ∷ [] }
{}

// RFC 9106, section 5.1: the pre-hashing digest, with a secret and associated data.
fn first_hash_of_the_standard()
    ensures hash { first_hash (record {
      kind = 0;
      version = 0x13;
      passes = 3;
      lanes = 4;
      memory_kib = 32;
      tag_len = 32;
      salt_len = 16;
      password_len = 32;
    }) (record {
      password = replicate 32 1;
      salt = replicate 16 2;
      secret = replicate 8 3;
      associated = replicate 12 4;
    }) ≡
        0xB8 ∷ 0x81 ∷ 0x97 ∷ 0x91 ∷ 0xA0 ∷ 0x35 ∷ 0x96 ∷ 0x60 ∷
        0xBB ∷ 0x77 ∷ 0x09 ∷ 0xC8 ∷ 0x5F ∷ 0xA4 ∷ 0x8F ∷ 0x04 ∷
        0xD5 ∷ 0xD8 ∷ 0x2C ∷ 0x05 ∷ 0xC5 ∷ 0xF2 ∷ 0x15 ∷ 0xCC ∷
        0xDB ∷ 0x88 ∷ 0x54 ∷ 0x91 ∷ 0x71 ∷ 0x7C ∷ 0xF7 ∷ 0x57 ∷
        0x08 ∷ 0x2C ∷ 0x28 ∷ 0xB9 ∷ 0x51 ∷ 0xBE ∷ 0x38 ∷ 0x14 ∷
        0x10 ∷ 0xB5 ∷ 0xFC ∷ 0x2E ∷ 0xB7 ∷ 0x27 ∷ 0x40 ∷ 0x33 ∷
        0xB9 ∷ 0xFD ∷ 0xC7 ∷ 0xAE ∷ 0x67 ∷ 0x2B ∷ 0xCA ∷ 0xAC ∷
        0x5D ∷ 0x17 ∷ 0x90 ∷ 0x97 ∷ 0xA4 ∷ 0xAF ∷ 0x31 ∷ 0x09 ∷ [] }
{}

// The word J of a column that the second address block of its segment has, in the third pass, the second lane and the
// last slice, as tests/library/address_block.c prints it of Debian's libargon2 0~20171227, the reference implementation, whose
// `index_alpha` gives the place.
fn word_of_the_second_address_block()
    ensures word { reference_words two_lane_sample_parameters 2 1 3 200 [] ≡ 0xC5D6A329209A6F59 }
    ensures place { (independent_reference_place two_lane_sample_parameters 2 1 3 200).lane ∷ (independent_reference_place two_lane_sample_parameters 2 1 3 200).column ∷ [] ≡ 1 ∷ 788 ∷ [] }
{}

// W of segments of three columns, by RFC 9106, section 3.4.2, by hand: column c of pass r has the number 12 * r + c.
fn reference_sets_of_three_columns()
    ensures own_lane { reference_set 3 1 2 2 true ≡ range_with_len 9 10 }
    ensures own_lane_first_column { reference_set 3 1 2 0 true ≡ range_with_len 9 8 }
    ensures other_lane { reference_set 3 1 2 2 false ≡ range_with_len 9 9 }
    ensures other_lane_first_column { reference_set 3 1 2 0 false ≡ range_with_len 9 8 }
    ensures first_slice { reference_set 3 1 0 1 true ≡ range_with_len 3 9 }
    ensures last_slice { reference_set 3 1 3 1 true ≡ range_with_len 12 9 }
    ensures first_pass { reference_set 3 0 1 2 true ≡ range_with_len 0 4 }
    ensures block_from_h0 { reference_set 3 0 0 2 true ≡ 0 ∷ [] }
{}

// J 1 of 0, of a half and of the greatest word, by RFC 9106, section 3.4.2: x is 0, a quarter and almost all.
fn places_of_three_words()
    ensures none { relative_place 10 0 ≡ 9 }
    ensures half { relative_place 10 (2 ^ 31) ≡ 7 }
    ensures greatest { relative_place 10 (2 ^ 32 - 1) ≡ 0 }
{}

// z of segments of four columns, by RFC 9106, section 3.4.2, by hand, of a block in lane 1 of 3: column c of pass r has the
// number 16 * r + c. J 1 of 0 names the last of W, J 1 of a half the one after which a quarter of W stands, and the greatest J 1
// the first. Other lanes stand before and after lane 1. The last four are of lane 0, of two lanes or one. So does `index_alpha` of
// libargon2 0~20171227 (core.c), by columns.
fn columns_that_words_name()
    ensures own_lane { map (λ j1. reference_number (record two_lane_sample_parameters { lanes = 3; memory_kib = 48 }) 2 1 1 3 (1 * 2 ^ 32 + j1)) (0 ∷ 0x8000_0000 ∷ 0xFFFF_FFFF ∷ []) ≡ 37 ∷ 34 ∷ 24 ∷ [] }
    ensures later_lane { map (λ j1. reference_number (record two_lane_sample_parameters { lanes = 3; memory_kib = 48 }) 2 1 1 3 (5 * 2 ^ 32 + j1)) (0 ∷ 0x8000_0000 ∷ 0xFFFF_FFFF ∷ []) ≡ 35 ∷ 32 ∷ 24 ∷ [] }
    ensures earlier_lane { map (λ j1. reference_number (record two_lane_sample_parameters { lanes = 3; memory_kib = 48 }) 2 1 1 3 (3 * 2 ^ 32 + j1)) (0 ∷ 0x8000_0000 ∷ 0xFFFF_FFFF ∷ []) ≡ 35 ∷ 32 ∷ 24 ∷ [] }
    ensures first_column { map (λ j1. reference_number (record two_lane_sample_parameters { lanes = 3; memory_kib = 48 }) 1 1 2 0 (2 * 2 ^ 32 + j1)) (0 ∷ 0x8000_0000 ∷ 0xFFFF_FFFF ∷ []) ≡ 22 ∷ 20 ∷ 12 ∷ [] }
    ensures first_column_of_own_lane { map (λ j1. reference_number (record two_lane_sample_parameters { lanes = 3; memory_kib = 48 }) 1 1 2 0 (1 * 2 ^ 32 + j1)) (0 ∷ 0x8000_0000 ∷ 0xFFFF_FFFF ∷ []) ≡ 22 ∷ 20 ∷ 12 ∷ [] }
    ensures last_slice { map (λ j1. reference_number (record two_lane_sample_parameters { lanes = 3; memory_kib = 48 }) 2 1 3 1 (4 * 2 ^ 32 + j1)) (0 ∷ 0x8000_0000 ∷ 0xFFFF_FFFF ∷ []) ≡ 43 ∷ 40 ∷ 32 ∷ [] }
    ensures first_slice_later { map (λ j1. reference_number (record two_lane_sample_parameters { lanes = 3; memory_kib = 48 }) 1 1 0 2 (1 * 2 ^ 32 + j1)) (0 ∷ 0x8000_0000 ∷ 0xFFFF_FFFF ∷ []) ≡ 16 ∷ 13 ∷ 4 ∷ [] }
    ensures first_slice_later_of_other_lane { map (λ j1. reference_number (record two_lane_sample_parameters { lanes = 3; memory_kib = 48 }) 1 1 0 2 (0 * 2 ^ 32 + j1)) (0 ∷ 0x8000_0000 ∷ 0xFFFF_FFFF ∷ []) ≡ 15 ∷ 12 ∷ 4 ∷ [] }
    ensures first_pass { map (λ j1. reference_number (record two_lane_sample_parameters { lanes = 3; memory_kib = 48 }) 0 1 2 3 (4 * 2 ^ 32 + j1)) (0 ∷ 0x8000_0000 ∷ 0xFFFF_FFFF ∷ []) ≡ 9 ∷ 7 ∷ 0 ∷ [] }
    ensures first_pass_of_other_lane { map (λ j1. reference_number (record two_lane_sample_parameters { lanes = 3; memory_kib = 48 }) 0 1 2 3 (2 * 2 ^ 32 + j1)) (0 ∷ 0x8000_0000 ∷ 0xFFFF_FFFF ∷ []) ≡ 7 ∷ 5 ∷ 0 ∷ [] }
    ensures first_slice { map (λ j1. reference_number (record two_lane_sample_parameters { lanes = 3; memory_kib = 48 }) 0 1 0 3 (2 * 2 ^ 32 + j1)) (0 ∷ 0x8000_0000 ∷ 0xFFFF_FFFF ∷ []) ≡ 1 ∷ 1 ∷ 0 ∷ [] }
    ensures last_slice_of_first_pass { reference_number (record two_lane_sample_parameters { lanes = 2; memory_kib = 32 }) 0 0 3 2 (2 ^ 32) ≡ 11 }
    ensures first_slice_of_pass_2 { reference_number (record two_lane_sample_parameters { lanes = 2; memory_kib = 32 }) 2 0 0 2 (2 ^ 32) ≡ 31 }
    ensures pass_3 { reference_number (record two_lane_sample_parameters { lanes = 1; memory_kib = 16 }) 3 0 1 1 0 ≡ 51 }
    ensures column_257 { reference_number (record two_lane_sample_parameters { lanes = 1; memory_kib = 1200 }) 0 0 0 257 0 ≡ 255 }
{}

// G takes the block before, in the own lane, and the block that J names; from the second pass on the old block of the place is
// xored in, which is 16 columns before, but not in version 0x10 (RFC 9106, section 3.2, steps 5 and 6). Each block is its
// number and its lane, and G is not computed.
fn blocks_that_g_takes()
    ensures later_pass { stored_block_by_j1_j2 (record two_lane_sample_parameters { lanes = 3; memory_kib = 48 }) (λ number lane. number ∷ lane ∷ []) 39 2 0 1 3 (5 * 2 ^ 32 + 2 ^ 31 - 1) ≡
        xored_words (compression (38 ∷ 0 ∷ []) (33 ∷ 2 ∷ [])) (23 ∷ 0 ∷ []) }
    ensures first_slice_later { stored_block_by_j1_j2 (record two_lane_sample_parameters { lanes = 3; memory_kib = 48 }) (λ number lane. number ∷ lane ∷ []) 18 1 1 0 2 (2 * 2 ^ 32) ≡
        xored_words (compression (17 ∷ 1 ∷ []) (15 ∷ 2 ∷ [])) (2 ∷ 1 ∷ []) }
    ensures own_lane { stored_block_by_j1_j2 (record two_lane_sample_parameters { lanes = 3; memory_kib = 48 }) (λ number lane. number ∷ lane ∷ []) 39 2 2 1 3 (5 * 2 ^ 32) ≡
        xored_words (compression (38 ∷ 2 ∷ []) (37 ∷ 2 ∷ [])) (23 ∷ 2 ∷ []) }
    ensures first_pass { stored_block_by_j1_j2 (record two_lane_sample_parameters { lanes = 3; memory_kib = 48 }) (λ number lane. number ∷ lane ∷ []) 11 0 1 2 3 (6 * 2 ^ 32 - 1) ≡
        compression (10 ∷ 1 ∷ []) (0 ∷ 2 ∷ []) }
    ensures first_slice { stored_block_by_j1_j2 (record two_lane_sample_parameters { lanes = 3; memory_kib = 48 }) (λ number lane. number ∷ lane ∷ []) 3 0 1 0 3 (2 * 2 ^ 32) ≡
        compression (2 ∷ 1 ∷ []) (1 ∷ 1 ∷ []) }
    ensures version_0x10 { stored_block_by_j1_j2 (record two_lane_sample_parameters { version = 0x10; lanes = 3; memory_kib = 48 }) (λ number lane. number ∷ lane ∷ []) 39 2 0 1 3 (5 * 2 ^ 32 + 2 ^ 31 - 1) ≡
        compression (38 ∷ 0 ∷ []) (33 ∷ 2 ∷ []) }
    ensures by_number { next_block (record two_lane_sample_parameters { lanes = 3; memory_kib = 48 }) (λ number lane. number ∷ lane ∷ []) 39 0
        ≡ stored_block_by_j1_j2 (record two_lane_sample_parameters { lanes = 3; memory_kib = 48 }) (λ number lane. number ∷ lane ∷ []) 39 2 0 1 3 (reference_words (record two_lane_sample_parameters { lanes = 3; memory_kib = 48 }) 2 0 1 3 (38 ∷ 0 ∷ [])) }
    ensures by_another_number { next_block (record two_lane_sample_parameters { lanes = 3; memory_kib = 48 }) (λ number lane. number ∷ lane ∷ []) 46 1
        ≡ stored_block_by_j1_j2 (record two_lane_sample_parameters { lanes = 3; memory_kib = 48 }) (λ number lane. number ∷ lane ∷ []) 46 2 1 3 2 (reference_words (record two_lane_sample_parameters { lanes = 3; memory_kib = 48 }) 2 1 3 2 (45 ∷ 1 ∷ [])) }
{}

// The numbers y of the types (RFC 9106, 3.1).
fn numbers_of_types()
    ensures argon2d { type_number D ≡ 0 }
    ensures argon2i { type_number I ≡ 1 }
    ensures argon2id { type_number Id ≡ 2 }
{}

// Which lane J 2 names, of two and, slice by slice, of three, and which segments are addressed without blocks (RFC 9106,
// 3.4.1.3 and 3.4.2).
fn lanes_and_kinds_of_segments()
    ensures other_lane { reference_lane two_lane_sample_parameters 0 0 1 (2 ^ 32) ≡ 1 }
    ensures slices { map (λ slice. reference_lane (record two_lane_sample_parameters { lanes = 3 }) 0 1 slice (5 * 2 ^ 32 + 7)) (range_with_len 0 4) ≡ 1 ∷ 2 ∷ 2 ∷ 2 ∷ [] }
    ensures slices_later { map (λ slice. reference_lane (record two_lane_sample_parameters { lanes = 3 }) 1 1 slice (5 * 2 ^ 32 + 7)) (range_with_len 0 4) ≡ 2 ∷ 2 ∷ 2 ∷ 2 ∷ [] }
    ensures first_slice_later { reference_lane two_lane_sample_parameters 1 1 0 (2 ^ 33) ≡ 0 }
    ensures argon2i { is_independent two_lane_sample_parameters 2 3 ≡ true }
    ensures argon2d { is_independent (record two_lane_sample_parameters { kind = 0 }) 0 0 ≡ false }
    ensures argon2id { is_independent (record two_lane_sample_parameters { kind = 2 }) 0 1 ≡ true }
    ensures argon2id_third_slice { is_independent (record two_lane_sample_parameters { kind = 2 }) 0 2 ≡ false }
    ensures argon2id_second_pass { is_independent (record two_lane_sample_parameters { kind = 2 }) 1 0 ≡ false }
{}

// Block functions of a column, of what a lane has left of a segment of 201 columns, and of what two lanes have: one for
// each column, and two for each address block, of which the first is made with the segment. Of 4,824 blocks of a hash 4
// come from H0; two address blocks has each of 24 segments of Argon2i, of 4 of Argon2id, and none of Argon2d.
fn work_by_columns()
    ensures first_indices { first_index 0 0 ∷ first_index 0 1 ∷ first_index 1 0 ∷ first_index 1 1 ∷ [] ≡ 2 ∷ 0 ∷ 0 ∷ 0 ∷ [] }
    ensures first_indices_of_passes { map (λ pass. first_index pass 0) (range_with_len 0 5) ≡ 2 ∷ 0 ∷ 0 ∷ 0 ∷ 0 ∷ [] }
    ensures first_column { address_blocks_made_at 0 ≡ 0 }
    ensures column_64 { address_blocks_made_at 64 ≡ 0 }
    ensures column_127 { address_blocks_made_at 127 ≡ 0 }
    ensures column_128 { address_blocks_made_at 128 ≡ 1 }
    ensures column_256 { address_blocks_made_at 256 ≡ 1 }
    ensures work_of_column_127 { column_work two_lane_sample_parameters 1 2 127 ≡ 1 }
    ensures work_of_column_128 { column_work two_lane_sample_parameters 1 2 128 ≡ 3 }
    ensures work_of_argon2id { column_work (record two_lane_sample_parameters { kind = 2 }) 0 1 128 ∷ column_work (record two_lane_sample_parameters { kind = 2 }) 1 0 128 ∷ [] ≡ 3 ∷ 1 ∷ [] }
    ensures work_of_argon2d { column_work (record two_lane_sample_parameters { kind = 0 }) 1 2 128 ≡ 1 }
    ensures all_left { lane_work_left two_lane_sample_parameters 1 2 201 ≡ 203 }
    ensures before_column_128 { lane_work_left two_lane_sample_parameters 1 2 73 ≡ 75 }
    ensures after_column_128 { lane_work_left two_lane_sample_parameters 1 2 72 ≡ 72 }
    ensures none_left { lane_work_left two_lane_sample_parameters 1 2 0 ≡ 0 }
    ensures left_of_argon2d { lane_work_left (record two_lane_sample_parameters { kind = 0 }) 1 2 201 ≡ 201 }
    ensures left_of_argon2id { lane_work_left (record two_lane_sample_parameters { kind = 2 }) 0 1 201 ∷ lane_work_left (record two_lane_sample_parameters { kind = 2 }) 1 0 201 ∷ [] ≡ 203 ∷ 201 ∷ [] }
    ensures segments_of_argon2id { map (segment_work (record two_lane_sample_parameters { kind = 2 }) 0) (range_with_len 0 4) ≡ 203 ∷ 205 ∷ 201 ∷ 201 ∷ [] }
    ensures first_segment_later { segment_work (record two_lane_sample_parameters { kind = 2 }) 1 0 ≡ 201 }
    ensures slice { slice_work two_lane_sample_parameters 1 2 ≡ 410 }
    ensures first_slice { slice_work two_lane_sample_parameters 0 0 ≡ 406 }
    ensures slices_of_argon2id { slice_work (record two_lane_sample_parameters { kind = 2 }) 0 1 ∷ slice_work (record two_lane_sample_parameters { kind = 2 }) 1 0 ∷ [] ≡ 410 ∷ 402 ∷ [] }
    ensures whole { work two_lane_sample_parameters ≡ 4916 }
    ensures whole_of_argon2id { work (record two_lane_sample_parameters { kind = 2 }) ≡ 4836 }
    ensures whole_of_argon2d { work (record two_lane_sample_parameters { kind = 0 }) ≡ 4820 }
    ensures two_lanes_left { map (λ slices. work_left (record {
      matrix = record { parameters = (record two_lane_sample_parameters { kind = 2 }); is_started = true; first_hash = []; slices_made = slices; blocks = [] };
      left = 201 ∷ 72 ∷ [];
    })) (range_with_len 0 5) ≡ 275 ∷ 275 ∷ 273 ∷ 273 ∷ 273 ∷ [] }
    ensures five_lanes_left { work_left (record {
      matrix = record { parameters = (record two_lane_sample_parameters { lanes = 5; memory_kib = 80 }); is_started = true; first_hash = []; slices_made = 4; blocks = [] };
      left = 1 ∷ 1 ∷ 1 ∷ 1 ∷ 4 ∷ [];
    }) ≡ 8 }
    ensures left_of_pass_2 { work_left (record {
      matrix = record { parameters = (record two_lane_sample_parameters { kind = 2; lanes = 1; memory_kib = 804 }); is_started = true; first_hash = []; slices_made = 8; blocks = [] };
      left = 201 ∷ [];
    }) ≡ 201 }
{}

// Parameters at the ends of their ranges, the first fault of several, and limits (RFC 9106, 3.1; the upper ends of tag,
// salt and password, and the lower ends of salt and password, are own).
fn faults_of_parameters()
    ensures least { checked_parameters (record { kind = 0; version = 0x10; passes = 1; lanes = 1; memory_kib = 8; tag_len = 4; salt_len = 8; password_len = 1 })
        ≡ Ok (record { kind = 0; version = 0x10; passes = 1; lanes = 1; memory_kib = 8; tag_len = 4; salt_len = 8; password_len = 1 }) }
    ensures greatest { checked_parameters (record { kind = 2; version = 0x13; passes = 2 ^ 32 - 1; lanes = 2 ^ 24 - 1; memory_kib = 2 ^ 32 - 1; tag_len = 4096; salt_len = 255; password_len = 127 })
        ≡ Ok (record { kind = 2; version = 0x13; passes = 2 ^ 32 - 1; lanes = 2 ^ 24 - 1; memory_kib = 2 ^ 32 - 1; tag_len = 4096; salt_len = 255; password_len = 127 }) }
    ensures no_password { checked_parameters (record two_lane_sample_parameters { password_len = 0 }) ≡ Err PasswordLength }
    ensures passes { checked_parameters (record two_lane_sample_parameters { passes = 0; lanes = 0; memory_kib = 0; tag_len = 0; salt_len = 0; password_len = 0 }) ≡ Err Passes }
    ensures lanes { checked_parameters (record two_lane_sample_parameters { lanes = 0; memory_kib = 2 ^ 32; tag_len = 0; salt_len = 0; password_len = 0 }) ≡ Err Lanes }
    ensures memory { checked_parameters (record two_lane_sample_parameters { memory_kib = 15; tag_len = 0; salt_len = 0; password_len = 0 }) ≡ Err Memory }
    ensures tag { checked_parameters (record two_lane_sample_parameters { memory_kib = 16; tag_len = 3; salt_len = 0; password_len = 0 }) ≡ Err TagLength }
    ensures salt { checked_parameters (record two_lane_sample_parameters { tag_len = 4; salt_len = 7; password_len = 0 }) ≡ Err SaltLength }
    ensures password { checked_parameters (record two_lane_sample_parameters { tag_len = 4096; salt_len = 255; password_len = 128 }) ≡ Err PasswordLength }
    ensures passes_above { checked_parameters (record two_lane_sample_parameters { passes = 2 ^ 32 }) ≡ Err Passes }
    ensures lanes_above { checked_parameters (record two_lane_sample_parameters { lanes = 2 ^ 24 }) ≡ Err Lanes }
    ensures memory_above { checked_parameters (record two_lane_sample_parameters { memory_kib = 2 ^ 32 }) ≡ Err Memory }
    ensures tag_above { checked_parameters (record two_lane_sample_parameters { tag_len = 4097 }) ≡ Err TagLength }
    ensures salt_above { checked_parameters (record two_lane_sample_parameters { salt_len = 256 }) ≡ Err SaltLength }
    ensures admitted { admission two_lane_sample_parameters 1608 4916 ≡ Ok tt }
    ensures memory_limit { admission two_lane_sample_parameters 1607 4915 ≡ Err MemoryLimit }
    ensures work_limit { admission two_lane_sample_parameters 1608 4915 ≡ Err WorkLimit }
{}

// The same with any password, whose range is that of RFC 9106, 3.1: it is tested last.
fn faults_of_parameters_with_any_password()
    ensures empty { checked_with_any_password_length (record two_lane_sample_parameters { password_len = 0 }) ≡ Ok (record two_lane_sample_parameters { password_len = 0 }) }
    ensures least { checked_with_any_password_length (record { kind = 0; version = 0x10; passes = 1; lanes = 1; memory_kib = 8; tag_len = 4; salt_len = 8; password_len = 0 })
        ≡ Ok (record { kind = 0; version = 0x10; passes = 1; lanes = 1; memory_kib = 8; tag_len = 4; salt_len = 8; password_len = 0 }) }
    ensures greatest { checked_with_any_password_length (record { kind = 2; version = 0x13; passes = 2 ^ 32 - 1; lanes = 2 ^ 24 - 1; memory_kib = 2 ^ 32 - 1; tag_len = 4096; salt_len = 255; password_len = 2 ^ 32 - 1 })
        ≡ Ok (record { kind = 2; version = 0x13; passes = 2 ^ 32 - 1; lanes = 2 ^ 24 - 1; memory_kib = 2 ^ 32 - 1; tag_len = 4096; salt_len = 255; password_len = 2 ^ 32 - 1 }) }
    ensures password { checked_with_any_password_length (record two_lane_sample_parameters { tag_len = 4096; salt_len = 255; password_len = 2 ^ 32 }) ≡ Err PasswordLength }
    ensures passes { checked_with_any_password_length (record two_lane_sample_parameters { passes = 0; lanes = 0; memory_kib = 0; tag_len = 0; salt_len = 0; password_len = 2 ^ 32 }) ≡ Err Passes }
    ensures lanes { checked_with_any_password_length (record two_lane_sample_parameters { lanes = 0; memory_kib = 2 ^ 32; tag_len = 0; salt_len = 0; password_len = 2 ^ 32 }) ≡ Err Lanes }
    ensures memory { checked_with_any_password_length (record two_lane_sample_parameters { memory_kib = 15; tag_len = 0; salt_len = 0; password_len = 2 ^ 32 }) ≡ Err Memory }
    ensures tag { checked_with_any_password_length (record two_lane_sample_parameters { memory_kib = 16; tag_len = 3; salt_len = 0; password_len = 2 ^ 32 }) ≡ Err TagLength }
    ensures salt { checked_with_any_password_length (record two_lane_sample_parameters { tag_len = 4; salt_len = 7; password_len = 2 ^ 32 }) ≡ Err SaltLength }
    ensures passes_above { checked_with_any_password_length (record two_lane_sample_parameters { passes = 2 ^ 32 }) ≡ Err Passes }
    ensures lanes_above { checked_with_any_password_length (record two_lane_sample_parameters { lanes = 2 ^ 24 }) ≡ Err Lanes }
    ensures memory_above { checked_with_any_password_length (record two_lane_sample_parameters { memory_kib = 2 ^ 32 }) ≡ Err Memory }
    ensures tag_above { checked_with_any_password_length (record two_lane_sample_parameters { tag_len = 4097 }) ≡ Err TagLength }
    ensures salt_above { checked_with_any_password_length (record two_lane_sample_parameters { salt_len = 256 }) ≡ Err SaltLength }
{}

// A matrix of two lanes of eight columns whose sixth slice, columns 2 and 3 of pass 1, is made by lanes in turn, by hand from RFC
// 9106, sections 3.2 and 3.4: each old block is the number of its place, and B is not computed.
fn slice_made_by_lanes()
    ensures next_slices { map (λ slices. next_slice (record { parameters = (record two_lane_sample_parameters { memory_kib = 16 }); is_started = true; first_hash = []; slices_made = slices; blocks = map (λ place. place ∷ []) (range_with_len 0 16) })) (0 ∷ 5 ∷ 11 ∷ 12 ∷ []) ≡ Some (0, 0) ∷ Some (1, 1) ∷ Some (2, 3) ∷ None ∷ [] }
    ensures slices_left { map (λ slices. is_some (next_slice (record { parameters = (record two_lane_sample_parameters { memory_kib = 16 }); is_started = true; first_hash = []; slices_made = slices; blocks = map (λ place. place ∷ []) (range_with_len 0 16) }))) (11 ∷ 12 ∷ []) ≡ true ∷ false ∷ [] }
    ensures not_started { next_slice (record { parameters = (record two_lane_sample_parameters { memory_kib = 16 }); is_started = false; first_hash = []; slices_made = 5; blocks = map (λ place. place ∷ []) (range_with_len 0 16) }) ≡ None }
    ensures columns_after { map (column_number_after_slices (record two_lane_sample_parameters { memory_kib = 16 })) (0 ∷ 1 ∷ 5 ∷ []) ≡ 2 ∷ 2 ∷ 10 ∷ [] }
    ensures left { (new_slice_progress (record { parameters = (record two_lane_sample_parameters { memory_kib = 16 }); is_started = true; first_hash = []; slices_made = 5; blocks = map (λ place. place ∷ []) (range_with_len 0 16) })).left ≡ 2 ∷ 2 ∷ [] }
    ensures left_of_the_first { (new_slice_progress (record { parameters = (record two_lane_sample_parameters { memory_kib = 16 }); is_started = true; first_hash = []; slices_made = 0; blocks = map (λ place. place ∷ []) (range_with_len 0 16) })).left ≡ 0 ∷ 0 ∷ [] }
    ensures next_indices { map (next_index_in_segment (record { matrix = record { parameters = (record two_lane_sample_parameters { memory_kib = 16 }); is_started = true; first_hash = []; slices_made = 5; blocks = map (λ place. place ∷ []) (range_with_len 0 16) }; left = 2 ∷ 1 ∷ [] })) (0 ∷ 1 ∷ []) ≡ 0 ∷ 1 ∷ [] }
    ensures next_numbers { map (next_column_number (record { matrix = record { parameters = (record two_lane_sample_parameters { memory_kib = 16 }); is_started = true; first_hash = []; slices_made = 5; blocks = map (λ place. place ∷ []) (range_with_len 0 16) }; left = 2 ∷ 1 ∷ [] })) (0 ∷ 1 ∷ []) ≡ 10 ∷ 11 ∷ [] }
    ensures step { (after_step (record { matrix = record { parameters = (record two_lane_sample_parameters { memory_kib = 16 }); is_started = true; first_hash = []; slices_made = 5; blocks = map (λ place. place ∷ []) (range_with_len 0 16) }; left = 2 ∷ 1 ∷ [] }) 1).matrix.blocks ≡ map (λ place. place ∷ []) (range_with_len 0 11) ++ matrix_block (record two_lane_sample_parameters { memory_kib = 16 }) [] 11 1 ∷ map (λ place. place ∷ []) (range_with_len 12 4) }
    ensures left_after_step { (after_step (record { matrix = record { parameters = (record two_lane_sample_parameters { memory_kib = 16 }); is_started = true; first_hash = []; slices_made = 5; blocks = map (λ place. place ∷ []) (range_with_len 0 16) }; left = 2 ∷ 1 ∷ [] }) 1).left ≡ 2 ∷ 0 ∷ [] }
    ensures left_after_turns { (after_lane_turns (record { matrix = record { parameters = (record two_lane_sample_parameters { memory_kib = 16 }); is_started = true; first_hash = []; slices_made = 5; blocks = map (λ place. place ∷ []) (range_with_len 0 16) }; left = 2 ∷ 1 ∷ [] }) (0 ∷ 1 ∷ 1 ∷ [])).left ≡ 1 ∷ 0 ∷ [] }
    ensures work_of_turns { lane_turns_work (record { matrix = record { parameters = (record two_lane_sample_parameters { memory_kib = 16 }); is_started = true; first_hash = []; slices_made = 5; blocks = map (λ place. place ∷ []) (range_with_len 0 16) }; left = 2 ∷ 1 ∷ [] }) (0 ∷ 1 ∷ 1 ∷ []) ≡ 2 }
    ensures held { block_held (record two_lane_sample_parameters { memory_kib = 16 }) (map (λ place. place ∷ []) (range_with_len 0 16)) 11 1 ≡ 11 ∷ [] }
    ensures made { map (is_column_made (record { parameters = (record two_lane_sample_parameters { memory_kib = 16 }); is_started = true; first_hash = []; slices_made = 5; blocks = map (λ place. place ∷ []) (range_with_len 0 16) }) (2 ∷ 1 ∷ []) 1) (range_with_len 0 5) ≡ false ∷ false ∷ true ∷ false ∷ false ∷ [] }
    ensures whole_slice { (with_next_slice (record { parameters = (record two_lane_sample_parameters { memory_kib = 16 }); is_started = true; first_hash = []; slices_made = 5; blocks = map (λ place. place ∷ []) (range_with_len 0 16) })).blocks ≡ map (λ place. place ∷ []) (range_with_len 0 2) ++ matrix_block (record two_lane_sample_parameters { memory_kib = 16 }) [] 10 0 ∷ matrix_block (record two_lane_sample_parameters { memory_kib = 16 }) [] 11 0 ∷ map (λ place. place ∷ []) (range_with_len 4 6) ++ matrix_block (record two_lane_sample_parameters { memory_kib = 16 }) [] 10 1 ∷ matrix_block (record two_lane_sample_parameters { memory_kib = 16 }) [] 11 1 ∷ map (λ place. place ∷ []) (range_with_len 12 4) }
    ensures slices_made { (with_next_slice (record { parameters = (record two_lane_sample_parameters { memory_kib = 16 }); is_started = true; first_hash = []; slices_made = 5; blocks = map (λ place. place ∷ []) (range_with_len 0 16) })).slices_made ≡ 6 }
{}

// The slices of both ends of a pass, counted by hand by RFC 9106, 3.4: each segment has two columns, and the first two of the
// first pass come from H_0.
fn slices_of_passes()
    ensures first_columns { map (λ slices. first_column (record { parameters = (record two_lane_sample_parameters { memory_kib = 16 }); is_started = true; first_hash = []; slices_made = slices; blocks = [] })) (0 ∷ 1 ∷ 3 ∷ 4 ∷ 6 ∷ 8 ∷ []) ≡ 2 ∷ 2 ∷ 6 ∷ 0 ∷ 4 ∷ 0 ∷ [] }
    ensures next_slice { next_slice (record { parameters = (record two_lane_sample_parameters { memory_kib = 16 }); is_started = true; first_hash = []; slices_made = 4; blocks = [] }) ≡ Some (1, 0) }
    ensures left { map (λ slices. (new_slice_progress (record { parameters = (record two_lane_sample_parameters { memory_kib = 16 }); is_started = true; first_hash = []; slices_made = slices; blocks = [] })).left) (1 ∷ 3 ∷ 4 ∷ 8 ∷ []) ≡ replicate 4 (2 ∷ 2 ∷ []) }
    ensures left_of_three_lanes { (new_slice_progress (record { parameters = (record two_lane_sample_parameters { lanes = 3; memory_kib = 24 }); is_started = true; first_hash = []; slices_made = 4; blocks = [] })).left ≡ 2 ∷ 2 ∷ 2 ∷ [] }
    ensures next_numbers { map (λ slices. next_column_number (record { matrix = record { parameters = (record two_lane_sample_parameters { memory_kib = 16 }); is_started = true; first_hash = []; slices_made = slices; blocks = [] }; left = 2 ∷ 1 ∷ [] }) 1) (6 ∷ 9 ∷ []) ≡ 13 ∷ 19 ∷ [] }
    ensures work_of_turns { map (λ slices. lane_turn_work (record { matrix = record { parameters = (record two_lane_sample_parameters { kind = 2 }); is_started = true; first_hash = []; slices_made = slices; blocks = [] }; left = 73 ∷ 0 ∷ [] }) 0) (range_with_len 0 6) ≡ 3 ∷ 3 ∷ 1 ∷ 1 ∷ 1 ∷ 1 ∷ [] }
    ensures no_turn { lane_turn_work (record { matrix = record { parameters = (record two_lane_sample_parameters { memory_kib = 16 }); is_started = true; first_hash = []; slices_made = 1; blocks = [] }; left = 73 ∷ 0 ∷ [] }) 1 ≡ 0 }
    ensures no_block_after_more_turns { (after_lane_turns (record { matrix = record { parameters = (record two_lane_sample_parameters { memory_kib = 16 }); is_started = true; first_hash = []; slices_made = 5; blocks = map (λ place. place ∷ []) (range_with_len 0 16) }; left = 0 ∷ 0 ∷ [] }) (0 ∷ 1 ∷ [])).matrix.blocks ≡ map (λ place. place ∷ []) (range_with_len 0 16) }
    ensures planned_lanes { map (λ index. (independent_reference_place two_lane_sample_parameters 0 1 0 index).lane) (range_with_len 2 4) ≡ replicate 4 1 }
    ensures planned_lanes_later { map (λ index. (independent_reference_place two_lane_sample_parameters 1 0 0 index).lane) (range_with_len 0 6)
        ≡ map (λ index. independent_reference_word two_lane_sample_parameters 1 0 0 index / 2 ^ 32 % 2) (range_with_len 0 6) }
    ensures planned_column { (independent_reference_place two_lane_sample_parameters 0 1 1 5).column
        ≡ reference_number two_lane_sample_parameters 0 1 1 5 (independent_reference_word two_lane_sample_parameters 0 1 1 5) % 804 }
    ensures planned_words { map (independent_reference_word two_lane_sample_parameters 2 1 3) (127 ∷ 128 ∷ [])
        ≡ slice_index (address_block two_lane_sample_parameters 2 1 3 1) 127 ∷ slice_index (address_block two_lane_sample_parameters 2 1 3 2) 0 ∷ [] }
    ensures words { map (λ index. reference_words two_lane_sample_parameters 2 1 3 index []) (127 ∷ 128 ∷ [])
        ≡ slice_index (address_block two_lane_sample_parameters 2 1 3 1) 127 ∷ slice_index (address_block two_lane_sample_parameters 2 1 3 2) 0 ∷ [] }
    ensures word_of_the_block_before { reference_words (record two_lane_sample_parameters { kind = 2 }) 1 0 0 5 (9 ∷ []) ≡ 9 }
    ensures word_of_the_block_before_in_slice_2 { reference_words (record two_lane_sample_parameters { kind = 2 }) 0 1 2 1 (9 ∷ []) ≡ 9 }
    ensures no_entry { entry_at [] 0 ≡ record { lane = 0; column = 0 } }
    ensures work_of_one_lane { work (record two_lane_sample_parameters { kind = 2; lanes = 1; memory_kib = 804 }) ≡ 2418 }
    ensures block_of_pass_1 { (woven (record { parameters = (record two_lane_sample_parameters { kind = 0; lanes = 1; memory_kib = 8 }); is_started = true; first_hash = []; slices_made = 4; blocks = map (λ place. place ∷ []) (range_with_len 0 8) }) (1 ∷ [])).matrix.blocks ≡ matrix_block (record two_lane_sample_parameters { kind = 0; lanes = 1; memory_kib = 8 }) [] 8 0 ∷ map (λ place. place ∷ []) (range_with_len 1 7) }
    ensures block_of_slice_2 { (woven (record { parameters = (record two_lane_sample_parameters { kind = 0; lanes = 1; memory_kib = 8 }); is_started = true; first_hash = []; slices_made = 6; blocks = map (λ place. place ∷ []) (range_with_len 0 8) }) (1 ∷ [])).matrix.blocks ≡ map (λ place. place ∷ []) (range_with_len 0 4) ++ matrix_block (record two_lane_sample_parameters { kind = 0; lanes = 1; memory_kib = 8 }) [] 12 0 ∷ map (λ place. place ∷ []) (range_with_len 5 3) }
{}
