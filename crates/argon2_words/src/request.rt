//! What the words ask for.
ghost use Rattle.std.specs.Prelude.{◌≡◌, IfErr, map, string_bytes};
ghost use Rattle.command_words.specs.Answer.{map_ok};
ghost use Rattle.argon2_words.specs.Refusal.{IsBeforeMemoryAndOutput, IsOfNoFailedCall};
ghost use Rattle.argon2_words.specs.Request.{argon2_request, chosen_output_form};
ghost use Rattle.argon2_words.specs.RequestView.{argon2_request_view};

use crate::items::Form;
use crate::refusal::Argon2Refusal;
use crate::settings::{Settings, read_settings};

/// What the words ask for.
#[derive(Clone, Copy)]
pub struct Request<'a> {
    /// The first word, whose UTF-8 bytes are the salt.
    pub salt: &'a str,
    /// What the other words set.
    pub settings: Settings,
    /// The form of the output.
    pub form: Form,
}

// The one form of output that is asked for.
fn chosen_output_form(encoded: bool, hex: bool) -> Result<Form, Argon2Refusal>
    ensures form { result ≡ chosen_output_form encoded hex }
    ensures early { IfErr result IsBeforeMemoryAndOutput }
    ensures counts { IfErr result IsOfNoFailedCall }
{
    match (encoded, hex) {
        (true, false) => Ok(Form::Encoded),
        (false, true) => Ok(Form::Hex),
        _ => Err(Argon2Refusal::OneForm),
    }
}

/// Reads the words after the program's name.
pub fn read_request(words: &[String]) -> Result<Request<'_>, Argon2Refusal>
    ensures early { IfErr result IsBeforeMemoryAndOutput }
    ensures counts { IfErr result IsOfNoFailedCall }
    ensures request { map_ok argon2_request_view result ≡ argon2_request (map string_bytes words.now) }
{
    let Some((salt, others)) = words.split_first() else {
        return Err(Argon2Refusal::Usage);
    };
    if salt.as_str() == "-h" {
        return Err(Argon2Refusal::Usage);
    }
    let settings = read_settings(others)?;
    let form = chosen_output_form(settings.encoded, settings.hex)?;
    Ok(Request {
        salt: salt.as_str(),
        settings,
        form,
    })
}
