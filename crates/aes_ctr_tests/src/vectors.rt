//! The checker computes the definitions on vectors: each function has no body, and its clause is the vector.
ghost use Rattle.std.specs.Prelude.{◌≡◌, ◌+◌, ◌-◌, ◌*◌, ◌^◌, [], ◌∷◌, drop, map, replicate};
ghost use Rattle.std.specs.List.{range_with_len};
ghost use Rattle.aes_ctr.specs.Aes.{aes256, inverse, key_of, key_schedule, key_words, product, sub_byte, word_at};
ghost use Rattle.aes_ctr.specs.CounterMode.{counter_mode_from, key_stream_block};
ghost use Rattle.aes_ctr.specs.Planes.{round_key};

// FIPS 197, 4.2
fn product_of_57_and_83()
    ensures product { product 0x57 0x83 ≡ 0xC1 }
{}

// FIPS 197, 4.2: the product of a byte and its inverse is 1, for each byte but 0, which stays 0 (5.1.1).
fn inverses_of_all_bytes()
    ensures products { map (λ b. product b (inverse b)) (range_with_len 1 255) ≡ replicate 255 1 }
    ensures of_zero { inverse 0 ≡ 0 }
{}

// FIPS 197, 5.1.1
fn s_box_entry_of_53()
    ensures entry { sub_byte 0x53 ≡ 0xED }
{}

// FIPS 197, A.3: the last word of the key schedule
fn last_word_of_key_schedule()
    ensures word { word_at (key_schedule (0x60 ∷ 0x3D ∷ 0xEB ∷ 0x10 ∷ 0x15 ∷ 0xCA ∷ 0x71 ∷ 0xBE
        ∷ 0x2B ∷ 0x73 ∷ 0xAE ∷ 0xF0 ∷ 0x85 ∷ 0x7D ∷ 0x77 ∷ 0x81
        ∷ 0x1F ∷ 0x35 ∷ 0x2C ∷ 0x07 ∷ 0x3B ∷ 0x61 ∷ 0x08 ∷ 0xD7
        ∷ 0x2D ∷ 0x98 ∷ 0x10 ∷ 0xA3 ∷ 0x09 ∷ 0x14 ∷ 0xDF ∷ 0xF4 ∷ [])) 59
        ≡ 0x70 ∷ 0x6C ∷ 0x63 ∷ 0x1E ∷ [] }
{}

// FIPS 197, C.3
fn cipher_text_of_c_3()
    ensures cipher_text { aes256 (range_with_len 0 32)
        (0x00 ∷ 0x11 ∷ 0x22 ∷ 0x33 ∷ 0x44 ∷ 0x55 ∷ 0x66 ∷ 0x77
        ∷ 0x88 ∷ 0x99 ∷ 0xAA ∷ 0xBB ∷ 0xCC ∷ 0xDD ∷ 0xEE ∷ 0xFF ∷ [])
        ≡ 0x8E ∷ 0xA2 ∷ 0xB7 ∷ 0xCA ∷ 0x51 ∷ 0x67 ∷ 0x45 ∷ 0xBF
        ∷ 0xEA ∷ 0xFC ∷ 0x49 ∷ 0x90 ∷ 0x4B ∷ 0x49 ∷ 0x60 ∷ 0x89 ∷ [] }
{}

// NIST SP 800-38A, F.5.5: block 1
fn output_block_of_f_5_5()
    ensures output_block { aes256 (0x60 ∷ 0x3D ∷ 0xEB ∷ 0x10 ∷ 0x15 ∷ 0xCA ∷ 0x71 ∷ 0xBE
        ∷ 0x2B ∷ 0x73 ∷ 0xAE ∷ 0xF0 ∷ 0x85 ∷ 0x7D ∷ 0x77 ∷ 0x81
        ∷ 0x1F ∷ 0x35 ∷ 0x2C ∷ 0x07 ∷ 0x3B ∷ 0x61 ∷ 0x08 ∷ 0xD7
        ∷ 0x2D ∷ 0x98 ∷ 0x10 ∷ 0xA3 ∷ 0x09 ∷ 0x14 ∷ 0xDF ∷ 0xF4 ∷ [])
        (0xF0 ∷ 0xF1 ∷ 0xF2 ∷ 0xF3 ∷ 0xF4 ∷ 0xF5 ∷ 0xF6 ∷ 0xF7
        ∷ 0xF8 ∷ 0xF9 ∷ 0xFA ∷ 0xFB ∷ 0xFC ∷ 0xFD ∷ 0xFE ∷ 0xFF ∷ [])
        ≡ 0x0B ∷ 0xDF ∷ 0x7D ∷ 0xF1 ∷ 0x59 ∷ 0x17 ∷ 0x16 ∷ 0x33
        ∷ 0x5E ∷ 0x9A ∷ 0x8B ∷ 0x15 ∷ 0xC8 ∷ 0x60 ∷ 0xC5 ∷ 0x02 ∷ [] }
{}

// Block 2^32 + 4 of the key stream, as Python's cryptography 48.0.0 gives it (AES, CTR with that first counter block)
fn key_stream_block_past_2_32()
    ensures block { key_stream_block (range_with_len 0 32) (2 ^ 32 + 4)
        ≡ 0x3A ∷ 0x96 ∷ 0x67 ∷ 0xF1 ∷ 0x28 ∷ 0x2C ∷ 0x84 ∷ 0x3C
        ∷ 0x59 ∷ 0xDF ∷ 0xC3 ∷ 0x01 ∷ 0x6C ∷ 0xE4 ∷ 0x07 ∷ 0x33 ∷ [] }
{}

// A byte 0xFF at place 3 of that block
fn byte_past_2_32_blocks()
    ensures byte { counter_mode_from (range_with_len 0 32) (16 * (2 ^ 32 + 4) + 3) (0xFF ∷ []) ≡ 0x0E ∷ [] }
{}

// The byte after the last one of a block is the first of the next block, here of that one, with a byte 0xFF.
fn byte_of_the_next_block()
    ensures byte { drop 1 (counter_mode_from (range_with_len 0 32) (16 * (2 ^ 32 + 4) - 1) (0 ∷ 0xFF ∷ [])) ≡ 0xC5 ∷ [] }
{}

// The key is the first eight words of its schedule, and each round has four of the words (FIPS 197, 5.1.4 and 5.2).
fn parts_of_a_schedule()
    ensures key { key_of (map (λ i. i ∷ []) (range_with_len 0 60)) ≡ range_with_len 0 8 }
    ensures words { key_of (key_words (range_with_len 0 32) 8) ≡ range_with_len 0 32 }
    ensures round { round_key (map (λ i. (4 * i) ∷ (4 * i + 1) ∷ (4 * i + 2) ∷ (4 * i + 3) ∷ []) (range_with_len 0 60)) 2 ≡ range_with_len 32 16 }
{}
