//! What each number says.
ghost use Rattle.std.specs.Prelude.{◌≡◌, ◌≤◌, ◌<◌, length};
ghost use Rattle.pikhsen_c.specs.Argon2.{room_status};
ghost use Rattle.pikhsen_c.specs.Message.{IsWrittenAsCString, sentence_of};
ghost use Rattle.pikhsen_c.specs.Status.{IsUnchangedIfRefused, ReturnsNoLengthIfRefused};

use crate::encoded::copy_text;
use crate::status;

// The sentence of a number.
fn sentence(status: u32) -> &'static str
    ensures sentence { result.now ≡ sentence_of status }
    ensures short { length result.now < 80 }
{
    match status {
        0 => "the call did its work",
        1 => "Argon2: passes are not 1 to 2^32-1",
        2 => "Argon2: lanes are not 1 to 2^24-1",
        3 => "Argon2: memory is not 8 * lanes to 2^32-1 KiB",
        4 => "Argon2: the tag is not 4 to 4096 bytes long",
        5 => "Argon2: the salt is not 8 to 255 bytes long",
        6 => "Argon2: the password is 2^32 bytes or longer",
        7 => "more memory is needed than the limit allows",
        8 => "more work is needed than the limit allows",
        9 => "memory was refused",
        10 => "Argon2: the kind is not 0, 1 or 2",
        11 => "Argon2: the version is not 0x10 or 0x13",
        12 => "Argon2: the secret or the data is 2^32 bytes or longer",
        13 => "out is not as long as the function needs",
        14 => "the text is not an encoded hash",
        15 => "the text is an encoded hash with a value out of range",
        16 => "the password is not that of the text",
        17 => "scrypt: log2 N is not 1 to 63",
        18 => "scrypt: r or p is below 1",
        19 => "scrypt: r * p is 2^30 or more",
        20 => "scrypt: keep is not a power of two from 1 to 1024",
        21 => "scrypt: keep is above N",
        22 => "file: it does not begin with \"scrypt\"",
        23 => "file: the version of its format is not 0",
        24 => "file: the checksum of its header is wrong",
        25 => "file: its costs are out of range",
        26 => "file: it is shorter than 96 bytes, or than 64 to read its costs alone",
        27 => "file: the passphrase is not the file's",
        28 => "file: it is damaged, or cut short, after its first 96 bytes",
        29 => "file: the text is 2^60 bytes or longer",
        30 => "file: the salt is not 32 bytes long",
        31 => "text: its version is not 16 or 19",
        32 => "text: its passes are not 1 to 2^32-1",
        33 => "text: its lanes are not 1 to 2^24-1",
        34 => "text: its memory is not 8 * lanes to 2^32-1 KiB",
        35 => "text: its tag is not 4 to 4096 bytes long",
        36 => "text: its salt is not 8 to 255 bytes long",
        37 => "file: the stream runs already, or does not run in this direction",
        _ => "unknown number",
    }
}

/// What a number says, at the front of `out`, and a byte 0 after it; its length, without that byte, goes to `text_len`.
#[unsafe(no_mangle)]
pub extern "C" fn pikhsen_message(status: u32, out: &mut [u8], text_len: &mut usize) -> u32
    ensures written { result ≡ 0 → IsWrittenAsCString (sentence_of status) text_len.new out.old out.new }
    ensures status { result ≡ room_status (length (sentence_of status)) (length out.old) }
    ensures room { 80 ≤ length out.old → result ≡ 0 }
    ensures untouched { IsUnchangedIfRefused result out.old out.new }
    ensures nothing { ReturnsNoLengthIfRefused result text_len.new }
{
    *text_len = 0;
    let text = sentence(status).as_bytes();
    if out.len() <= text.len() {
        return status::BUFFER;
    }
    copy_text(text, out);
    *text_len = text.len();
    status::OK
}
