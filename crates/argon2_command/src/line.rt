//! The line that standard output gets: a tag as an encoded text or in hexadecimal, and a line feed.
ghost use Rattle.std.specs.Prelude.{◌≡◌, ℕ, List, IfOk, length, true};
ghost use Rattle.argon_text.specs.EncodedText.{encoded_text};
ghost use Rattle.argon_text.specs.Value.{is_in_range};
ghost use Rattle.argon2_command.specs.Output.{tag_line, tag_text, value_of_request_and_tag};
ghost use Rattle.argon2_words.specs.RequestView.{argon2_request_view};

use crate::bytes::Bytes;
use argon_text::Encoded;
use argon2_words::{Form, Request};
use std::alloc::{AllocError, Global};

// The encoded text of a tag.
fn encoded(alloc: Global, request: &Request<'_>, tag: &[u8]) -> Result<Vec<u8>, AllocError>
    requires in_range { is_in_range (value_of_request_and_tag (argon2_request_view request.now) tag.now) ≡ true }
    ensures text { IfOk result (λ text.
        text.items ≡ encoded_text (value_of_request_and_tag (argon2_request_view request.now) tag.now)) }
{
    let settings = &request.settings;
    let salt = request.salt.as_bytes().to_vec(alloc)?;
    let tag = tag.to_vec(alloc)?;
    let encoded = Encoded {
        kind: settings.kind,
        version: settings.version.number(),
        memory: settings.memory_kib,
        passes: settings.passes,
        lanes: settings.lanes,
        salt,
        tag,
    };
    let mut text = Vec::new(alloc);
    encoded.write(&mut text)?;
    Ok(text)
}

/// The line of a tag, in the form that is asked for.
pub fn tag_line(alloc: Global, request: &Request<'_>, tag: &[u8]) -> Result<Bytes, AllocError>
    requires in_range { is_in_range (value_of_request_and_tag (argon2_request_view request.now) tag.now) ≡ true }
    ensures line { IfOk result (λ line. line.list.items ≡ tag_line (argon2_request_view request.now) tag.now) }
{
    let mut line = match request.form {
        Form::Encoded => encoded(alloc, request, tag)?,
        Form::Hex => hex::encode(alloc, tag)?.into_bytes(),
    };
    line.push(b'\n')?;
    Ok(Bytes::new(line))
}

/// Writes a tag over that of a line, of the same length. It takes no memory: so the line is made
/// before the hash, and nothing is refused after it.
pub fn replace_tag(request: &Request<'_>, line: &mut [u8], tag: &[u8])
    ensures line { (other : List ℕ) → line.old ≡ tag_line (argon2_request_view request.now) other
        → length other ≡ length tag.now → line.new ≡ tag_line (argon2_request_view request.now) tag.now }
{
    let end = line.len().saturating_sub(1);
    overwrite_tag_in_text(request, &mut line[..end], tag);
}

// The same without the line feed.
fn overwrite_tag_in_text(request: &Request<'_>, text: &mut [u8], tag: &[u8])
    ensures text { (other : List ℕ)
        → text.old ≡ tag_text request.now.form (argon2_request_view request.now) other → length other ≡ length tag.now
        → text.new ≡ tag_text request.now.form (argon2_request_view request.now) tag.now }
{
    match request.form {
        Form::Encoded => argon_text::replace_tag(text, tag),
        Form::Hex => {
            let _ = hex::encode_to_slice(tag, text);
        }
    }
}
