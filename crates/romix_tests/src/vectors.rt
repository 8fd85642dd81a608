//! Vectors that the checker computes by the definitions alone.
ghost use Rattle.std.specs.Prelude.{◌≡◌, ◌+◌, ◌-◌, ◌*◌, ◌^◌, ◌++◌, [], ◌∷◌, codes, filter, if◌then◌else◌, replicate, true, false, Some, None};
ghost use Rattle.std.specs.List.{range_with_len};
ghost use Rattle.romix.specs.BlockMix.{block_count, block_mix};
ghost use Rattle.romix.specs.Costs.{cores, parts_bytes, table_bytes};
ghost use Rattle.romix.specs.Faults.{cost_fault, keep_parameter_fault, limit_fault, sparse_limit_fault};
ghost use Rattle.romix.specs.Requests.{after_table_and_row_requests};
ghost use Rattle.romix.specs.Romix.{integerify, romix};
ghost use Rattle.romix.specs.Salsa20.{quarter_round, salsa20_8};
ghost use Rattle.romix.specs.Scrypt.{scrypt, words_of};
ghost use Rattle.romix.specs.Sparse.{sparse_table_core_count};
ghost use Rattle.romix.specs.SparseCosts.{cores_bound, is_valid_keep, sparse_table_bytes, whole};
ghost use Rattle.romix.specs.declared.fault.CostFault.TheVariants.{Keep, KeepAboveN, LogN, Memory, Product, Work, Zero};

// Salsa20 specification, section 3, the last example.
fn quarter_round_example()
    ensures words { quarter_round 0xD3917C5B 0x55F1C407 0x52A58A7A 0x8F887A3B
        ≡ (0x3E2F308C, 0xD90A8F36, 0x6AB2A923, 0x2883524C) }
{}

// RFC 7914, section 8.
fn salsa20_8_vector()
    ensures words { salsa20_8 (
        0x219A877E ∷ 0x86C93E4F ∷ 0xE640A97C ∷ 0x268F7141 ∷ 0x5B55EEBA ∷ 0xB5C1618C ∷
        0x1146F80D ∷ 0x1D3BCD6D ∷ 0x19F324EE ∷ 0x853D9BDF ∷ 0x4B1E1214 ∷ 0x32AAC55A ∷
        0x291D0276 ∷ 0x2948C709 ∷ 0x8DC6EBED ∷ 0x5EC2B8B8 ∷ []) ≡
        0x9C851FA4 ∷ 0x99CC0866 ∷ 0xCBCA813B ∷ 0x05EF0C02 ∷ 0x81214B04 ∷ 0x7D33FDA2 ∷
        0x631C7BFD ∷ 0x292F6896 ∷ 0x683139B4 ∷ 0xBCE6C9E3 ∷ 0xB7C56BFE ∷ 0xBA966DA0 ∷
        0x10CC24E4 ∷ 0x5C74912C ∷ 0x3D67AD24 ∷ 0x818F61C7 ∷ [] }
{}

// RFC 7914, section 9.
fn block_mix_vector()
    ensures words { block_mix (
        0x650BCEF7 ∷ 0xA4722D3D ∷ 0xABF58C10 ∷ 0xDDFF12E9 ∷ 0xDB167677 ∷ 0x0EA727BB ∷
        0xAEF30482 ∷ 0xAD6F0F2D ∷ 0x488FF689 ∷ 0x7BE8D111 ∷ 0x40D73BCC ∷ 0x29FD9F0A ∷
        0x84014F09 ∷ 0xF3749563 ∷ 0x31A1E59A ∷ 0xD7BC1752 ∷ 0x44914989 ∷ 0x22BB1372 ∷
        0x4DB5256C ∷ 0xFB7063A8 ∷ 0x804398CD ∷ 0xBB664637 ∷ 0xBFB5FC8F ∷ 0xB054C240 ∷
        0x517CD267 ∷ 0xFED54ACE ∷ 0x0BC929D8 ∷ 0x1B575A50 ∷ 0xAD1C4D7F ∷ 0xDA3C526A ∷
        0xBC670E77 ∷ 0x897EAFEA ∷ []) ≡
        0x9C851FA4 ∷ 0x99CC0866 ∷ 0xCBCA813B ∷ 0x05EF0C02 ∷ 0x81214B04 ∷ 0x7D33FDA2 ∷
        0x631C7BFD ∷ 0x292F6896 ∷ 0x683139B4 ∷ 0xBCE6C9E3 ∷ 0xB7C56BFE ∷ 0xBA966DA0 ∷
        0x10CC24E4 ∷ 0x5C74912C ∷ 0x3D67AD24 ∷ 0x818F61C7 ∷ 0x75C9ED20 ∷ 0xA8813832 ∷
        0x4CF64005 ∷ 0x3CCD2D16 ∷ 0xFE7C0721 ∷ 0xE25F8D5F ∷ 0x8F16A4B1 ∷ 0xB7783695 ∷
        0x803D3B7D ∷ 0xABE4603B ∷ 0xE5960992 ∷ 0xB6534D9B ∷ 0x58222A5D ∷ 0xF5EDD577 ∷
        0xF1B92C84 ∷ 0x25E4EF4E ∷ [] }
{}

// RFC 7914, section 10: N is 16.
fn romix_vector()
    ensures words { romix (
        0x650BCEF7 ∷ 0xA4722D3D ∷ 0xABF58C10 ∷ 0xDDFF12E9 ∷ 0xDB167677 ∷ 0x0EA727BB ∷
        0xAEF30482 ∷ 0xAD6F0F2D ∷ 0x488FF689 ∷ 0x7BE8D111 ∷ 0x40D73BCC ∷ 0x29FD9F0A ∷
        0x84014F09 ∷ 0xF3749563 ∷ 0x31A1E59A ∷ 0xD7BC1752 ∷ 0x44914989 ∷ 0x22BB1372 ∷
        0x4DB5256C ∷ 0xFB7063A8 ∷ 0x804398CD ∷ 0xBB664637 ∷ 0xBFB5FC8F ∷ 0xB054C240 ∷
        0x517CD267 ∷ 0xFED54ACE ∷ 0x0BC929D8 ∷ 0x1B575A50 ∷ 0xAD1C4D7F ∷ 0xDA3C526A ∷
        0xBC670E77 ∷ 0x897EAFEA ∷ []) 16 ≡
        0x93C1CC79 ∷ 0xCAEB9D62 ∷ 0x700B7F04 ∷ 0xB6F64B60 ∷ 0x4ADDE32C ∷ 0x55E32696 ∷
        0x9861FCFA ∷ 0x462BEAE6 ∷ 0x671384D5 ∷ 0x29B0993B ∷ 0x57C365D6 ∷ 0x26B41F60 ∷
        0xBBF4B2A0 ∷ 0x9FEE00A2 ∷ 0x9BD1430A ∷ 0x719C1A57 ∷ 0xE64211EF ∷ 0x6F265A5D ∷
        0x2C83CADD ∷ 0x7CAA9FE5 ∷ 0xF19C0BAC ∷ 0xCAFF2BBE ∷ 0xEE010D30 ∷ 0xC4197638 ∷
        0x44FD12AE ∷ 0xA003F238 ∷ 0x7EC4E1E4 ∷ 0x1F8614C3 ∷ 0xCB87904E ∷ 0x686A3933 ∷
        0xD2F9E873 ∷ 0x8E4B9A53 ∷ [] }
{}

// RFC 7914, section 12, the first: N is 16, r and p are 1. Its one part is the row of section 10,
// whose ROMix is not computed again.
fn scrypt_of_nothing()
    ensures key { scrypt [] [] 16 1 1 64 ≡
        0x77 ∷ 0xD6 ∷ 0x57 ∷ 0x62 ∷ 0x38 ∷ 0x65 ∷ 0x7B ∷ 0x20 ∷
        0x3B ∷ 0x19 ∷ 0xCA ∷ 0x42 ∷ 0xC1 ∷ 0x8A ∷ 0x04 ∷ 0x97 ∷
        0xF1 ∷ 0x6B ∷ 0x48 ∷ 0x44 ∷ 0xE3 ∷ 0x07 ∷ 0x4A ∷ 0xE8 ∷
        0xDF ∷ 0xDF ∷ 0xFA ∷ 0x3F ∷ 0xED ∷ 0xE2 ∷ 0x14 ∷ 0x42 ∷
        0xFC ∷ 0xD0 ∷ 0x06 ∷ 0x9D ∷ 0xED ∷ 0x09 ∷ 0x48 ∷ 0xF8 ∷
        0x32 ∷ 0x6A ∷ 0x75 ∷ 0x3A ∷ 0x0F ∷ 0xC8 ∷ 0x1F ∷ 0x17 ∷
        0xE8 ∷ 0xD3 ∷ 0xE0 ∷ 0xFB ∷ 0x2E ∷ 0x0D ∷ 0x36 ∷ 0x28 ∷
        0xCF ∷ 0x35 ∷ 0xE2 ∷ 0x0C ∷ 0x38 ∷ 0xD1 ∷ 0x89 ∷ 0x06 ∷ [] }
{
    romix_vector();
}

// The same over sparse tables, of eight rows down to one. A program in Python that makes the rows
// between again, and gives the key above, counted its cores.
fn sparse_cores_of_nothing()
    ensures keep_2 { sparse_table_core_count [] [] (record { costs = record { log_n = 4; r = 1; p = 1 }; keep = 2 }) ≡ 82 }
    ensures keep_4 { sparse_table_core_count [] [] (record { costs = record { log_n = 4; r = 1; p = 1 }; keep = 4 }) ≡ 122 }
    ensures keep_8 { sparse_table_core_count [] [] (record { costs = record { log_n = 4; r = 1; p = 1 }; keep = 8 }) ≡ 178 }
    ensures keep_16 { sparse_table_core_count [] [] (record { costs = record { log_n = 4; r = 1; p = 1 }; keep = 16 }) ≡ 290 }
{}

// All sixteen words of the last block count, the lowest first.
fn integerify_of_a_row()
    ensures number { integerify (replicate 16 9 ++ 1 ∷ 2 ∷ 3 ∷ replicate 12 0 ++ 4 ∷ [])
        ≡ 1 + 2 * 2 ^ 32 + 3 * 2 ^ 64 + 4 * 2 ^ 480 }
{}

// N is 4, r is 2, p is 3, the password has 65 bytes and the key 70, by Python's hashlib.scrypt. So rows have four blocks, the
// first key of HMAC is hashed, there are three parts, and of the last block of PBKDF2 not all is taken.
fn scrypt_of_three_parts()
    ensures key { scrypt (replicate 65 0x70) (codes "s") 4 2 3 70 ≡
        0xC3 ∷ 0x7D ∷ 0x52 ∷ 0x7F ∷ 0x39 ∷ 0x46 ∷ 0x00 ∷ 0x29 ∷
        0xBD ∷ 0xDA ∷ 0x55 ∷ 0x54 ∷ 0xEB ∷ 0xF1 ∷ 0x29 ∷ 0x73 ∷
        0x63 ∷ 0xA1 ∷ 0x48 ∷ 0x86 ∷ 0x62 ∷ 0x1D ∷ 0x13 ∷ 0x08 ∷
        0x4D ∷ 0x5F ∷ 0xC0 ∷ 0x01 ∷ 0xBE ∷ 0x68 ∷ 0x00 ∷ 0xD4 ∷
        0x4D ∷ 0x52 ∷ 0x2E ∷ 0xBA ∷ 0xE7 ∷ 0x0A ∷ 0x2B ∷ 0xC9 ∷
        0x1D ∷ 0x49 ∷ 0x92 ∷ 0x96 ∷ 0x58 ∷ 0x70 ∷ 0x8E ∷ 0x59 ∷
        0xF2 ∷ 0x4F ∷ 0xAE ∷ 0xBA ∷ 0xBE ∷ 0x3E ∷ 0x86 ∷ 0x02 ∷
        0x9E ∷ 0x3D ∷ 0xD9 ∷ 0x55 ∷ 0x98 ∷ 0xA4 ∷ 0x3B ∷ 0x6A ∷
        0xFD ∷ 0xA2 ∷ 0x22 ∷ 0x3F ∷ 0xBB ∷ 0xA8 ∷ [] }
{}

// N is 2, r is 3 and p is 1, by Python's hashlib.scrypt: rows have six blocks, and r is another number than p.
fn scrypt_of_six_blocks()
    ensures key { scrypt (codes "password") (codes "NaCl") 2 3 1 32 ≡
        0x5E ∷ 0x74 ∷ 0x42 ∷ 0xCF ∷ 0x41 ∷ 0x27 ∷ 0x24 ∷ 0xF0 ∷
        0xC9 ∷ 0x6B ∷ 0x34 ∷ 0xEC ∷ 0x77 ∷ 0x92 ∷ 0xAD ∷ 0xDE ∷
        0xEC ∷ 0x79 ∷ 0x8D ∷ 0x27 ∷ 0x34 ∷ 0x5E ∷ 0xED ∷ 0x4D ∷
        0xBB ∷ 0xF9 ∷ 0x33 ∷ 0xDE ∷ 0x1E ∷ 0xC3 ∷ 0x12 ∷ 0xE2 ∷ [] }
    ensures two_bytes { scrypt (codes "password") (codes "NaCl") 2 3 1 2 ≡ 0x5E ∷ 0x74 ∷ [] }
{}

// The cores of a derivation of two parts where every second row of V is kept, and where one of four is. A program in Python that
// makes the rows between again, and gives the key of hashlib.scrypt, counted them.
fn sparse_cores_of_two_parts()
    ensures keep_2 { sparse_table_core_count (replicate 65 0x70) (codes "s") (record { costs = record { log_n = 2; r = 2; p = 2 }; keep = 2 }) ≡ 80 }
    ensures of_eight_rows { sparse_table_core_count (codes "pw") (codes "salt") (record { costs = record { log_n = 3; r = 1; p = 2 }; keep = 8 }) ≡ 164 }
    ensures keep_4 { sparse_table_core_count (replicate 65 0x70) (codes "s") (record { costs = record { log_n = 2; r = 2; p = 2 }; keep = 4 }) ≡ 112 }
{}

// The numbers of costs with r and p above 1, by RFC 7914, 4 to 6: N is 16, and every fourth row is kept.
fn numbers_of_costs()
    ensures table { table_bytes (record { log_n = 4; r = 3; p = 5 }) ≡ 6144 }
    ensures parts { parts_bytes (record { log_n = 4; r = 3; p = 5 }) ≡ 1920 }
    ensures cores { cores (record { log_n = 4; r = 3; p = 5 }) ≡ 960 }
    ensures sparse_table { sparse_table_bytes (record { costs = record { log_n = 4; r = 3; p = 5 }; keep = 4 }) ≡ 1536 }
    ensures bound { cores_bound (record { costs = record { log_n = 4; r = 3; p = 5 }; keep = 4 }) ≡ 2400 }
    ensures bound_of_32_rows { cores_bound (record { costs = record { log_n = 5; r = 3; p = 5 }; keep = 4 }) ≡ 4800 }
    ensures bound_of_whole { cores_bound (record { costs = record { log_n = 4; r = 3; p = 5 }; keep = 1 }) ≡ 960 }
{}

// Numbers at both ends of their ranges, and the first fault of several.
fn faults_of_costs()
    ensures least { cost_fault 1 1 1 ≡ None }
    ensures greatest { cost_fault 63 (2 ^ 30 - 1) 1 ≡ None }
    ensures no_log_n { cost_fault 0 0 1 ≡ Some LogN }
    ensures log_n_above { cost_fault 64 (2 ^ 15) (2 ^ 15) ≡ Some LogN }
    ensures no_r { cost_fault 4 0 1 ≡ Some Zero }
    ensures no_p { cost_fault 4 (2 ^ 30) 0 ≡ Some Zero }
    ensures product { cost_fault 4 (2 ^ 15) (2 ^ 15) ≡ Some Product }
{}

// The limits at 6144 bytes of V and 960 cores, at 1920 bytes of B, and where both are exceeded; and S.
fn faults_of_limits()
    ensures admitted { limit_fault (record { log_n = 4; r = 3; p = 5 }) (record { max_bytes = 6144; max_ops = 960 }) ≡ None }
    ensures parts_admitted { limit_fault (record { log_n = 1; r = 3; p = 5 }) (record { max_bytes = 1920; max_ops = 120 }) ≡ None }
    ensures memory { limit_fault (record { log_n = 4; r = 3; p = 5 }) (record { max_bytes = 6143; max_ops = 959 }) ≡ Some Memory }
    ensures work { limit_fault (record { log_n = 4; r = 3; p = 5 }) (record { max_bytes = 6144; max_ops = 959 }) ≡ Some Work }
    ensures parts { limit_fault (record { log_n = 1; r = 3; p = 5 }) (record { max_bytes = 1919; max_ops = 960 }) ≡ Some Memory }
    ensures keep { keep_parameter_fault (record { costs = record { log_n = 1; r = 1; p = 1 }; keep = 3 }) ≡ Some Keep }
    ensures keep_above { keep_parameter_fault (record { costs = record { log_n = 4; r = 1; p = 1 }; keep = 32 }) ≡ Some KeepAboveN }
    ensures greatest_keep { keep_parameter_fault (record { costs = record { log_n = 10; r = 1; p = 1 }; keep = 1024 }) ≡ None }
    ensures keep_of_2048 { keep_parameter_fault (record { costs = record { log_n = 11; r = 1; p = 1 }; keep = 2048 }) ≡ Some Keep }
    ensures keep_of_n { keep_parameter_fault (record { costs = record { log_n = 4; r = 1; p = 1 }; keep = 16 }) ≡ None }
    ensures sparse { sparse_limit_fault (record { costs = record { log_n = 4; r = 3; p = 5 }; keep = 4 }) (record { max_bytes = 1919; max_ops = 1 }) ≡ Some Memory }
    ensures sparse_work { sparse_limit_fault (record { costs = record { log_n = 4; r = 3; p = 5 }; keep = 4 }) (record { max_bytes = 1920; max_ops = 2399 }) ≡ Some Work }
    ensures sparse_admitted { sparse_limit_fault (record { costs = record { log_n = 4; r = 3; p = 5 }; keep = 4 }) (record { max_bytes = 1920; max_ops = 2400 }) ≡ None }
{}

// docs/FORMATS.md: the numbers up to 2,049 that S can be, and powers of two above.
fn values_of_keep()
    ensures powers { filter is_valid_keep (range_with_len 0 2050) ≡
        1 ∷ 2 ∷ 4 ∷ 8 ∷ 16 ∷ 32 ∷ 64 ∷ 128 ∷ 256 ∷ 512 ∷ 1024 ∷ [] }
    ensures beyond { filter is_valid_keep (4096 ∷ 65536 ∷ []) ≡ [] }
{}

// With S of 1 every row is kept; and a workspace asks for the words of V first, of which a quarter is kept, and then for those of
// each row of 128 * r bytes (RFC 7914, 5), until one is refused.
fn requests_of_a_workspace()
    ensures whole { whole (record { log_n = 4; r = 3; p = 5 }) ≡ record { costs = record { log_n = 4; r = 3; p = 5 }; keep = 1 } }
    ensures table { after_table_and_row_requests (λ asked words granted. (if granted then words else 0) ∷ asked) (record { costs = record { log_n = 4; r = 3; p = 5 }; keep = 4 }) [] 0 true ≡ 384 ∷ [] }
    ensures rows { after_table_and_row_requests (λ asked words granted. (if granted then words else 0) ∷ asked) (record { costs = record { log_n = 4; r = 3; p = 5 }; keep = 4 }) [] 2 false ≡ 0 ∷ 96 ∷ 384 ∷ [] }
{}

// A row of r = 8, 1,024 octets or 256 words, has 16 blocks (RFC 7914, 4); four octets are a word, the lowest first.
fn blocks_and_words_of_a_row()
    ensures words { words_of (range_with_len 1 8) 2 ≡ 0x04030201 ∷ 0x08070605 ∷ [] }
    ensures count { block_count (replicate 256 0) ≡ 16 }
{}
