//! The version of the library.
ghost use Rattle.std.specs.Prelude.{◌≡◌};

/// The version as one number: 10,000 times the first of its three, 100 times the second, and the third.
#[unsafe(no_mangle)]
pub extern "C" fn pikhsen_version() -> u32
    ensures version { result ≡ 100 }
{
    100
}
