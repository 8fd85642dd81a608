//! The types of Argon2 (RFC 9106, section 3.1).
ghost use Rattle.std.specs.Prelude.{◌≡◌};
ghost use Rattle.argon.specs.Kind.{type_number};

/// The type y: where the words come from that choose the blocks to read (RFC 9106, sections 1 and
/// 3.4.1.3).
#[derive(Clone, Copy, Debug, PartialEq, Eq)]
pub enum Kind {
    /// Argon2d, number 0: from the blocks, and so from the password.
    D,
    /// Argon2i, number 1: from the position alone.
    I,
    /// Argon2id, number 2: from the position alone in the first two slices of the first pass, and
    /// then from the blocks.
    Id,
}

impl Kind {
    /// The number y of the type, 0 to 2 (RFC 9106, section 3.1).
    pub fn number(self) -> u32
        ensures value { result ≡ type_number self }
    {
        match self {
            Kind::D => 0,
            Kind::I => 1,
            Kind::Id => 2,
        }
    }
}
