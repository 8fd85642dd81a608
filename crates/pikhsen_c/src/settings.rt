//! The settings that an encoded text says, and whether a hash is to be made anew.
ghost use Rattle.std.specs.Prelude.{◌≡◌, ◌≤◌, ◌<◌};
ghost use Rattle.argon_text.specs.Grammar.{IsEncodedText, IsEncodedTextInRange};
ghost use Rattle.argon_text.specs.declared.fault.ReadFault.TheVariants.{NotInGrammar, OutOfMemory, OutOfRange};
ghost use Rattle.argon_text.specs.View.{value_of};
ghost use Rattle.pikhsen_c.specs.Heap.{ReadsOnce};
ghost use Rattle.pikhsen_c.specs.Inside.Numbers.{IsTextOutOfRange, was_memory_granted, had_memory_to_read};
ghost use Rattle.pikhsen_c.specs.Settings.{HasSettings, ComparesSettings, IsOutOfRange, IsStatusOfReading, c_settings_of_value};
ghost use Rattle.pikhsen_c.specs.Status.{IsUnchangedIfRefused};

use crate::call_memory::CallMemory;
use crate::machine::Machine;
use crate::reading::Reading;
use crate::status;
use crate::wiping::{Answer, wipe_stack};
use argon_text::{ReadFault, first_encoded_range_fault};

/// What an encoded text says but for the bytes of its salt and its tag, of which it has the lengths.
#[repr(C)]
#[derive(Clone, Copy, PartialEq, Eq)]
pub struct PikhsenArgon2Settings {
    pub kind: u32,
    pub version: u32,
    pub passes: u32,
    pub memory_kib: u32,
    pub lanes: u32,
    pub salt_len: usize,
    pub tag_len: usize,
}

// The settings of what was read.
fn settings_of_reading(reading: &Reading) -> PikhsenArgon2Settings
    ensures settings { result ≡ c_settings_of_value (value_of reading.now.encoded) }
{
    let settings = reading.settings();
    PikhsenArgon2Settings {
        kind: settings.kind.number(),
        version: settings.version,
        passes: settings.passes,
        memory_kib: settings.memory,
        lanes: settings.lanes,
        salt_len: settings.salt_len,
        tag_len: settings.tag_len,
    }
}

// 1 where settings differ, and 0 where they are the same.
fn differs(told: &PikhsenArgon2Settings, wanted: &PikhsenArgon2Settings) -> u32
    ensures same { result ≡ 0 → told.now ≡ wanted.now }
    ensures other { result ≡ 1 → told.now ≡ wanted.now → ⊥ }
    ensures high { result ≤ 1 }
{
    if *told == *wanted { 0 } else { 1 }
}

// The number of the first part of a text that is out of range.
fn out_of_range_status(text: &[u8]) -> u32
    requires text { IsEncodedText text.now }
    requires outside { IsEncodedTextInRange text.now → ⊥ }
    ensures first { IsOutOfRange text.now result }
    ensures low { 31 ≤ result }
    ensures high { result ≤ 36 }
{
    match first_encoded_range_fault(text) {
        Some(fault) => status::range_fault_status(fault),
        None => status::OUT_OF_RANGE,
    }
}

// The number of why a text is not read.
fn unreadable_text_status(text: &[u8], fault: ReadFault) -> u32
    requires outside { fault ≡ OutOfRange → IsTextOutOfRange text.now }
    ensures not_in_grammar { result ≡ 14 → fault ≡ NotInGrammar }
    ensures out_of_range { 31 ≤ result → IsOutOfRange text.now result }
    ensures memory { result ≡ 9 → fault ≡ OutOfMemory }
    ensures granted { had_memory_to_read fault ≡ was_memory_granted result }
    ensures low { 9 ≤ result }
    ensures gap { 9 < result → 14 ≤ result }
    ensures gap_after_14 { 14 < result → 31 ≤ result }
    ensures high { result ≤ 36 }
{
    match fault {
        ReadFault::NotInGrammar => status::NOT_ENCODED,
        ReadFault::OutOfRange => out_of_range_status(text),
        ReadFault::OutOfMemory => status::OUT_OF_MEMORY,
    }
}

// The settings of a text, with memory from `source`: for its salt and its tag.
fn read_encoded_settings_with_memory<S: CallMemory>(
    source: &mut S,
    text: &[u8],
    settings: &mut PikhsenArgon2Settings,
) -> u32
    ensures found { result ≡ 0 → HasSettings text.now settings.new }
    ensures reading { IsStatusOfReading text.now result }
    ensures untouched { IsUnchangedIfRefused result settings.old settings.new }
    // Its reading is asked for, once; want of memory is told where that was refused, and only there.
    ensures asked { source.new ≡ S.after_reading source.old text.now (was_memory_granted result) }
{
    match source.read(text) {
        Ok(reading) => {
            *settings = settings_of_reading(&reading);
            status::OK
        }
        Err(fault) => unreadable_text_status(text, fault),
    }
}

/// The settings of an encoded text. Nothing is hashed, and no password is tested.
#[unsafe(no_mangle)]
pub extern "C" fn pikhsen_argon2_settings(
    machine: Machine,
    text: &[u8],
    settings: &mut PikhsenArgon2Settings,
) -> Answer
    ensures found { result.status ≡ 0 → HasSettings text.now settings.new }
    ensures reading { IsStatusOfReading text.now result.status }
    ensures untouched { IsUnchangedIfRefused result.status settings.old settings.new }
    ensures machine { ReadsOnce result.status machine result.machine }
{
    let mut machine = machine;
    let status = read_encoded_settings_with_memory(&mut machine.heap, text, settings);
    wipe_stack(status, machine)
}

/// Whether the hash of an encoded text was made by other settings than these, and is to be made anew: 1 goes to `needs`
/// where it was, and 0 where it has just these.
#[unsafe(no_mangle)]
pub extern "C" fn pikhsen_argon2_needs_rehash(
    machine: Machine,
    text: &[u8],
    wanted: &PikhsenArgon2Settings,
    needs: &mut u32,
) -> Answer
    ensures compared { result.status ≡ 0 → ComparesSettings text.now wanted.now needs.new }
    ensures reading { IsStatusOfReading text.now result.status }
    ensures untouched { IsUnchangedIfRefused result.status needs.old needs.new }
    ensures machine { ReadsOnce result.status machine result.machine }
{
    let mut machine = machine;
    // Only a place: what is compared is what the text's settings are written over it.
    let mut said = *wanted;
    let status = read_encoded_settings_with_memory(&mut machine.heap, text, &mut said);
    if status == status::OK {
        *needs = differs(&said, wanted);
    }
    wipe_stack(status, machine)
}
