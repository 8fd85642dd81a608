//! The fields of an encoded text, taken from its bytes one after another, without memory.
ghost use Rattle.std.specs.Prelude.{◌≡◌, ◌==◌, MatchOption, option_map};
ghost use Rattle.std.specs.List.{list_all, position};
ghost use Rattle.std.specs.Char.{is_ascii_digit};
ghost use Rattle.argon_text.specs.Grammar.{is_number};
ghost use Rattle.argon_text.specs.Inside.Steps.{Steps};
ghost use Rattle.argon_text.specs.Reading.{after, cut, fields_at, kind_at, kind_named, number_at, version_at};
ghost use Rattle.argon_text.specs.Inside.FieldsRead.{fields_of};

use argon::Kind;
use std::marker::Model;

/// The fields of a text as they are written: the digits of its numbers, the symbols of salt and tag.
/// The version may be left out.
#[derive(Clone, Copy)]
pub(crate) struct Fields<'a> {
    pub kind: Kind,
    pub version: Option<&'a [u8]>,
    pub memory: &'a [u8],
    pub passes: &'a [u8],
    pub lanes: &'a [u8],
    pub salt: &'a [u8],
    pub tag: &'a [u8],
}

/// The bytes that are still to be read, which is what contracts see of it. What it gives is a part
/// of the text.
#[derive(Drop)]
struct Reader<'a> {
    left: &'a [u8],
}

impl<'a> Model for Reader<'a> {
    ghost use Rattle.std.specs.Prelude.{ℕ, List};

    ghost Value = { List ℕ };

    ghost view = { λ reader. reader.left.now };
}

impl<'a> Reader<'a> {
    // Passes over a label.
    fn label(&mut self, label: &[u8]) -> Option<()>
        ensures found { MatchOption result (after label.now self.old ≡ None)
            (λ _. after label.now self.old ≡ Some self.new) }
    {
        self.left = self.left.strip_prefix(label)?;
        Some(())
    }

    // What stands before the first byte `mark`, which is passed over too.
    fn until(&mut self, mark: u8) -> Option<&'a [u8]>
        ensures found { Steps (λ part. part.now) result self.new (cut mark self.old) }
    {
        let place = index_of_byte_in_text(self.left, mark)?;
        let (before, from) = self.left.split_at(place);
        self.left = &from[1..];
        Some(before)
    }

    // The digits of a number between a label and the byte `mark`.
    #[tactic(auto, unfolding(crate::specs::Reading::number_at))]
    fn number(&mut self, label: &[u8], mark: u8) -> Option<&'a [u8]>
        ensures found { Steps (λ digits. digits.now) result self.new
            (number_at label.now mark self.old) }
    {
        self.label(label)?;
        let digits = self.until(mark)?;
        if is_number(digits) {
            Some(digits)
        } else {
            None
        }
    }

    // The type, which stands first.
    #[tactic(auto, unfolding(crate::specs::Reading::kind_at))]
    fn kind(&mut self) -> Option<Kind>
        ensures found { Steps (λ kind. kind) result self.new (kind_at self.old) }
    {
        self.label(b"$argon2")?;
        let name = self.until(b'$')?;
        kind_named(name)
    }

    // The digits of the version, where the text has one.
    #[tactic(auto, unfolding(crate::specs::Reading::version_at))]
    fn version(&mut self) -> Option<Option<&'a [u8]>>
        ensures found { Steps (option_map (λ digits. digits.now)) result self.new (version_at self.old) }
    {
        if self.left.starts_with(b"v=") {
            Some(Some(self.number(b"v=", b'$')?))
        } else {
            Some(None)
        }
    }
}

// The place of the first byte `mark`.
fn index_of_byte_in_text(text: &[u8], mark: u8) -> Option<usize>
    ensures place { result ≡ position (λ x. x == mark) text.now }
{
    text.iter().position(|byte| *byte == mark)
}

// The type of a name.
fn kind_named(name: &[u8]) -> Option<Kind>
    ensures kind { result ≡ kind_named name.now }
{
    if name == b"d".as_slice() {
        Some(Kind::D)
    } else if name == b"i".as_slice() {
        Some(Kind::I)
    } else if name == b"id".as_slice() {
        Some(Kind::Id)
    } else {
        None
    }
}

// The digit 0 alone, or a digit from 1 to 9 and any digits after it.
fn is_number(text: &[u8]) -> bool
    ensures form { result ≡ is_number text.now }
{
    match text.split_first() {
        None => false,
        Some((first, others)) => {
            (*first == b'0' && others.is_empty())
                || (b'1' <= *first && *first <= b'9' && are_digits(others))
        }
    }
}

// Whether each byte is a digit.
fn are_digits(text: &[u8]) -> bool
    ensures all { result ≡ list_all is_ascii_digit text.now }
{
    text.iter().all(|byte| byte.is_ascii_digit())
}

/// The fields of a text, which is the whole of `text`. None where it has no such fields.
#[tactic(auto, unfolding(crate::specs::Reading::fields_at))]
pub(crate) fn fields_in(text: &[u8]) -> Option<Fields<'_>>
    ensures fields { MatchOption result (fields_at text.now ≡ None)
        (λ fields. fields_at text.now ≡ Some (fields_of fields)) }
{
    let mut reader = Reader { left: text };
    Some(Fields {
        kind: reader.kind()?,
        version: reader.version()?,
        memory: reader.number(b"m=", b',')?,
        passes: reader.number(b"t=", b',')?,
        lanes: reader.number(b"p=", b'$')?,
        salt: reader.until(b'$')?,
        tag: reader.left,
    })
}
