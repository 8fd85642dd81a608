//! Laws of the definitions: each function has no body, and its clause is the law.
ghost use Rattle.std.specs.Prelude.{◌≡◌, ℕ, List, ◌+◌, ◌<◌, ◌++◌, bit_xor, length, slice_index};
ghost use Rattle.aes_ctr.specs.CounterMode.{counter_mode_from, key_stream};

// From place i on byte j of a text is xored with the byte of the key stream at place i + j.
fn byte_of_counter_mode()
    ensures byte { (key text : List ℕ) (i j : ℕ) → j < length text
        → slice_index (counter_mode_from key i text) j ≡ bit_xor (slice_index text j) (key_stream key (i + j)) }
{}

// A text that is xored in two pieces, one after the other, becomes what it becomes in one.
fn counter_mode_of_pieces()
    ensures pieces { (key first second : List ℕ) (i : ℕ) → counter_mode_from key i (first ++ second)
        ≡ counter_mode_from key i first ++ counter_mode_from key (i + length first) second }
{}

// A text that is xored twice, from the same place on, is the text again.
fn counter_mode_twice()
    ensures twice { (key text : List ℕ) (i : ℕ) → counter_mode_from key i (counter_mode_from key i text) ≡ text }
{}
