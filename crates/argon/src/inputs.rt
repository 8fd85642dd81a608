//! What is hashed (RFC 9106, section 3.1).

/// The texts that a hash takes in (RFC 9106, section 3.1).
#[derive(Drop)]
pub struct Inputs<'a> {
    /// The password P: as many bytes as the parameters say, 0 to 2^32-1.
    pub password: &'a [u8],
    /// The salt S: as many bytes as the parameters say, 8 to 255.
    pub salt: &'a [u8],
    /// The secret value K: 0 to 2^32-1 bytes.
    pub secret: &'a [u8],
    /// The associated data X: 0 to 2^32-1 bytes.
    pub associated: &'a [u8],
}
