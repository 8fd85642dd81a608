//! The items of the words after the salt: flags, and options with the word after them.
ghost use Rattle.std.specs.Prelude.{◌≡◌, map, string_bytes};
ghost use Rattle.argon2_words.specs.Items.{item_of_flag, items, option_of};
ghost use Rattle.argon2_words.specs.ItemView.{item_of, items_left};

use argon::Kind;
use std::slice::Iter;

/// The form of the output: `-e` or `-r`.
#[derive(Clone, Copy)]
pub enum Form {
    /// The encoded text.
    Encoded,
    /// The tag in lower hexadecimal.
    Hex,
}

/// An option: a word that takes the next word as its value.
#[derive(Clone, Copy)]
pub enum OptionName {
    /// `-t`: the passes.
    Passes,
    /// `-m`: the memory as a power of two, in KiB.
    LogMemory,
    /// `-k`: the memory in KiB.
    Memory,
    /// `-p`: the lanes.
    Lanes,
    /// `-l`: the length of the tag in bytes.
    TagLength,
    /// `-v`: the version, in hexadecimal.
    Version,
    /// `--maxmem`: the most memory in KiB.
    MaxMemory,
    /// `--maxops`: the most block functions.
    MaxOps,
}

/// An item of the words after the salt.
#[derive(Clone, Copy)]
pub enum Item<'a> {
    /// `-d`, `-i` or `-id`.
    Kind(Kind),
    /// `-e` or `-r`.
    Form(Form),
    /// `-h`.
    Help,
    /// A word that is no flag and no option.
    UnknownWord,
    /// An option and its value.
    Valued(OptionName, &'a str),
    /// An option as the last word.
    MissingValue,
}

// The option of that name.
fn option_named(word: &str) -> Option<OptionName>
    ensures option { result ≡ option_of word.now }
{
    match word {
        "-t" => Some(OptionName::Passes),
        "-m" => Some(OptionName::LogMemory),
        "-k" => Some(OptionName::Memory),
        "-p" => Some(OptionName::Lanes),
        "-l" => Some(OptionName::TagLength),
        "-v" => Some(OptionName::Version),
        "--maxmem" => Some(OptionName::MaxMemory),
        "--maxops" => Some(OptionName::MaxOps),
        _ => None,
    }
}

// The item of a word that is no option.
fn flag_named(word: &str) -> Item<'static>
    ensures item { item_of result ≡ item_of_flag word.now }
{
    match word {
        "-d" => Item::Kind(Kind::D),
        "-i" => Item::Kind(Kind::I),
        "-id" => Item::Kind(Kind::Id),
        "-e" => Item::Form(Form::Encoded),
        "-r" => Item::Form(Form::Hex),
        "-h" => Item::Help,
        _ => Item::UnknownWord,
    }
}

/// The items of words, from the left. Contracts see the items that are left.
#[derive(Drop)]
pub struct Items<'a> {
    words: Iter<'a, String>,
}

impl<'a> Items<'a> {
    /// The items of these words.
    pub fn new(words: &'a [String]) -> Items<'a>
        ensures items { items_left result ≡ items (map string_bytes words.now) }
    {
        Items {
            words: words.iter(),
        }
    }
}

impl<'a> Iterator for Items<'a> {
    ghost use Rattle.std.specs.Iterator.{YieldsFirstBy, item_count};
    ghost use Rattle.argon2_words.specs.ItemView.{item_of, items_left};

    type Item = Item<'a>;

    ghost next_gives = { YieldsFirstBy item_of items_left };

    ghost remaining = { item_count items_left };

    fn next(&mut self) -> Option<Item<'a>> {
        let word = self.words.next()?.as_str();
        match option_named(word) {
            None => Some(flag_named(word)),
            Some(name) => match self.words.next() {
                None => Some(Item::MissingValue),
                Some(value) => Some(Item::Valued(name, value.as_str())),
            },
        }
    }
}
