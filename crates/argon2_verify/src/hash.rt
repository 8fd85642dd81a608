//! The hash: the first line of the file.
ghost use Rattle.std.specs.Prelude.{◌≡◌, ◌≤◌, ◌^◌, true, false, None, Some, take, IfOk, IfErr, OnOk, MatchResult, IsTrue};
ghost use Rattle.argon_text.specs.View.{value_of};
ghost use Rattle.host.specs.Faults.{AreBelow};
ghost use Rattle.argon2_verify.specs.Hash.{limits_refusal, read_refusal};
ghost use Rattle.argon2_verify.specs.Inside.Steps.{GrantsAsOpened, ReadsHash, RefusesHash};
ghost use Rattle.argon2_verify.specs.Reading.{IsFileRefused, after_file_read, hash_line, is_hash_end};
ghost use Rattle.argon2_verify.specs.Refusal.{CountsFault, IsNotOutOfMemory, IsOfNoFailedCall};

use crate::refusal::VerifyRefusal;
use crate::request::Limits;
use argon::{ParamFault, Params};
use argon_text::{DecodeMemory, Encoded, ReadFault, read_encoded_with_memory};
use host::{Host, is_line_end};

// The refusal of a text that is not read.
fn read_refusal(fault: ReadFault) -> VerifyRefusal
    ensures refusal { result ≡ read_refusal fault }
{
    match fault {
        ReadFault::NotInGrammar => VerifyRefusal::NotHash,
        ReadFault::OutOfRange => VerifyRefusal::OutOfRange,
        ReadFault::OutOfMemory => VerifyRefusal::OutOfMemory,
    }
}

/// Opens the file, and reads the hash in its first line.
pub(crate) fn read_hash<R: DecodeMemory, H: Host>(
    memory: &mut R,
    host: &mut H,
    file: &str,
) -> Result<Encoded, VerifyRefusal>
    requires room { AreBelow (2 ^ 63) (H.faults host.old) }
    requires unopened { (H.grants host.old).input ≡ true }
    ensures counts { CountsFault result (H.faults host.old) (H.faults host.new) }
    ensures granted { GrantsAsOpened result (H.grants host.old) (H.grants host.new) }
    ensures hash { IfOk result (λ e. ReadsHash R.after_decoded H.tells file.now
        (H.seen host.old) (H.seen host.new) (value_of e) memory.old memory.new) }
    ensures refused { IfErr result (λ r. RefusesHash R.after_decoded H.tells file.now r
        (H.seen host.old) (H.seen host.new) memory.old memory.new) }
{
    // One byte more than a line may have tells that it is too long.
    let mut buf = [0u8; 8192];
    let len = read_line(host, file, &mut buf)?;
    match read_encoded_with_memory(memory, &buf[..len]) {
        Ok(hash) => Ok(hash),
        Err(fault) => Err(read_refusal(fault)),
    }
}

// Whether a byte ends the line of a hash.
fn is_hash_end(byte: u8) -> bool
    ensures end { result ≡ is_hash_end byte }
{
    is_line_end(byte) || byte == 0
}

// Opens the file, which is refused if it is standard input itself, and puts its first line into the buffer, without its
// end: how many bytes it has. A byte is pulled at a time, and none behind the line's end: a pipe that stays open is not
// waited for.
fn read_line<H: Host>(
    host: &mut H,
    file: &str,
    buf: &mut [u8; 8192],
) -> Result<usize, VerifyRefusal>
    requires room { AreBelow (2 ^ 63) (H.faults host.old) }
    requires unopened { (H.grants host.old).input ≡ true }
    ensures counts { CountsFault result (H.faults host.old) (H.faults host.new) }
    ensures granted { GrantsAsOpened result (H.grants host.old) (H.grants host.new) }
    ensures early { IfErr result IsNotOutOfMemory }
    ensures apart { IsTrue H.tells → OnOk result ((H.seen host.old).input_is_stdin ≡ false) }
    ensures short { IfOk result (λ len. len ≤ 8191) }
    ensures line { IsTrue H.tells → IfOk result (λ len. take len buf.new ≡ hash_line (H.seen host.old).input) }
    ensures read { IsTrue H.tells → OnOk result (H.seen host.new ≡ after_file_read file.now (H.seen host.old)) }
    ensures refused { IsTrue H.tells → IfErr result (λ r. IsFileRefused file.now r (H.seen host.old) (H.seen host.new)) }
{
    let Ok(()) = host.open_input(Some(file)) else {
        return Err(VerifyRefusal::FileFault);
    };
    match host.input_is_stdin() {
        Ok(false) => {}
        Ok(true) => return Err(VerifyRefusal::FileIsStdin),
        Err(_) => return Err(VerifyRefusal::FileFault),
    }
    let mut len = 0;
    while len < buf.len() {
        let mut byte = [0u8; 1];
        let Ok(n) = host.pull(&mut byte) else {
            return Err(VerifyRefusal::FileFault);
        };
        if n == 0 {
            return Ok(len);
        }
        if is_hash_end(byte[0]) {
            return Ok(len);
        }
        buf[len] = byte[0];
        len += 1;
    }
    Err(VerifyRefusal::NotHash)
}

/// Holds a hash against the limits, of memory first.
pub(crate) fn test_limits(hash: &Encoded, limits: &Limits) -> Result<(), VerifyRefusal>
    ensures limits { MatchResult result (λ _. limits_refusal limits.now (value_of hash.now) ≡ None)
        (λ r. limits_refusal limits.now (value_of hash.now) ≡ Some r) }
    ensures counts { IfErr result IsOfNoFailedCall }
    ensures early { IfErr result IsNotOutOfMemory }
{
    // The blocks and the block functions are the same for each password.
    let Ok(params) = Params::with_any_password_length(
        hash.kind,
        hash.version,
        hash.passes,
        hash.lanes,
        hash.memory,
        hash.tag.len(),
        hash.salt.len(),
        0,
    ) else {
        // Not met: the ranges of a hash that was read are tested.
        return Err(VerifyRefusal::OutOfRange);
    };
    match params.admitted(limits.max_kib, limits.max_ops) {
        Ok(()) => Ok(()),
        Err(ParamFault::MemoryLimit) => Err(VerifyRefusal::MemoryLimit),
        Err(_) => Err(VerifyRefusal::WorkLimit),
    }
}
