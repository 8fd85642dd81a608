//! The comparison of tags and codes.
//!
//! ```
//! assert!(rt; are_same(b"tag", b"tag"));
//! assert!(rt; !are_same(b"tag", b"tap"));
//! ```
#![tactic(auto)]

ghost use Rattle.std.specs.Prelude.{◌≡◌, ◌↔◌, length, IsTrue};

/// Whether two texts of one length are the same. It looks at every byte before it decides; what its
/// time tells is not promised.
pub fn are_same(left: &[u8], right: &[u8]) -> bool
    requires same_length { length left.now ≡ length right.now }
    ensures same { IsTrue result ↔ (left.now ≡ right.now) }
{
    let mut difference = 0u8;
    for i in 0..left.len() {
        difference |= left[i] ^ right[i];
    }
    difference == 0
}
