//! The salt that the words give.
ghost use Rattle.std.specs.Prelude.{◌≡◌, ◌↔◌, IfErr, IsSome, codes};
ghost use Rattle.scrypt_request.specs.Refusal.{IsOfNoFailedCall};
ghost use Rattle.scrypt_words.specs.Inside.{Are64HexDigits};
ghost use Rattle.scrypt_words.specs.Request.{salt_from_words, salt_from_hex};
ghost use Rattle.scrypt_words.specs.Words.{rows_of_arg_matches};
ghost use Rattle.clap.specs.Words.{first_of as argument_value};

use crate::words::argument_value;
use clap::ArgMatches;
use hex::FromHex;
use scrypt_request::ScryptRefusal;

// The 32 bytes that 64 hexadecimal digits write, in either case.
fn salt_from_hex(text: &str) -> Option<[u8; 32]>
    ensures salt { result ≡ salt_from_hex text.now }
    ensures digits { IsSome result ↔ Are64HexDigits text.now }
{
    <[u8; 32] as FromHex>::from_hex(text).ok()
}

/// The salt that the words of `enc` give, or `None` where they give none.
pub fn salt_from_words(matches: &ArgMatches<'_>) -> Result<Option<[u8; 32]>, ScryptRefusal>
    ensures salt { result ≡ salt_from_words (argument_value (codes "salt") (rows_of_arg_matches matches.now)) }
    ensures counts { IfErr result IsOfNoFailedCall }
{
    let Some(text) = argument_value(matches, "salt") else {
        return Ok(None);
    };
    let salt = salt_from_hex(text).ok_or(ScryptRefusal::SaltDigits)?;
    Ok(Some(salt))
}
