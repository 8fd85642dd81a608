//! A law of the definitions: the function has no body, and its clause is the law.
ghost use Rattle.std.specs.Prelude.{◌≡◌, ℕ, ◌+◌, ◌*◌, ◌≤◌, List, take, drop};
ghost use Rattle.macs.specs.Pbkdf2.{pbkdf2, pbkdf2_block};

// The 32 bytes from byte 32 * i on of a key, of any length, are its block i + 1.
fn key_is_its_blocks()
    ensures block { (password salt : List ℕ) (len i : ℕ) → 32 * (i + 1) ≤ len
        → take 32 (drop (32 * i) (pbkdf2 password salt len)) ≡ pbkdf2_block password salt (i + 1) }
{}
