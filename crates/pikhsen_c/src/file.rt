//! scrypt's encrypted files, whole in memory.
ghost use Rattle.std.specs.Prelude.{◌≡◌, ℕ, ◌+◌, ◌-◌, ◌^◌, ◌<◌, ◌≤◌, List, [], length, take, drop, IfOk, IfErr, OnOk, OnErr};
ghost use Rattle.encfile.specs.Encrypting.{HasEncrypted};
ghost use Rattle.pikhsen_c.specs.File.{HasRightHeaderHmac, IsEncryptionOf, IsFileVerdict, Parameters, WritesTextOfWholeFile, costs_of, encrypt_status, encrypted_file, front_status, header_fault, header_status, lengths_status, number_of, salsa20_cores_to_open};
ghost use Rattle.pikhsen_c.specs.Heap.{CountsWorkOnce, CountsWorkUnlessEarly, DerivesAtMostOnce, OpensAtMostOnce};
ghost use Rattle.pikhsen_c.specs.Inside.File.{BeginsWithHeader, FitsFile, HasFront, IsOpened, length_of_text_to_encrypt, text_to_encrypt};
ghost use Rattle.pikhsen_c.specs.Inside.Numbers.{IsRefusalStatus, RefusesEarly, RefusesEarlyOrMemory, status_of_result};
ghost use Rattle.pikhsen_c.specs.Inside.Settings.{RequestsWorkspaceAtMostOnce, RequestsWorkspaceToOpen, costs_of_settings, encryption_refusal, front_refusal, header_and_limits_status_of_settings, salsa20_cores_of_settings};
ghost use Rattle.pikhsen_c.specs.Scrypt.{costs_of_numbers, costs_with_keep, salsa20_cores_of_numbers};
ghost use Rattle.pikhsen_c.specs.Status.{IsUnchangedIfRefused, RefusesByFirst, ReturnsFirstOrLateStatus, wrong_passphrase_status};

use crate::call_memory::CallMemory;
use crate::machine::Machine;
use crate::scrypt::{ScryptCostsAndLimits, ScryptLimits, admitted, costs_of, workspace};
use crate::status;
use crate::wiping::{Answer, wipe_stack};
use encfile::{Dec, Enc, Header, TooLong};
use romix::{Ticks, Workspace};

/// What a file asks for.
#[repr(C)]
#[derive(Drop)]
pub struct PikhsenScryptCosts {
    pub log_n: u32,
    pub r: u32,
    pub p: u32,
}

// The header of a file of at least 64 bytes, or the number of the first fault.
fn read_file_header(file: &[u8]) -> Result<Header, u32>
    requires long { 64 ≤ length file.now }
    ensures header { IfOk result (λ header. BeginsWithHeader file.now header) }
    ensures status { number_of (header_fault (take 64 file.now)) ≡ status_of_result result }
    ensures at_least_22 { IfErr result (λ status. 22 ≤ status) }
    ensures below { IfErr result (λ status. status ≤ 25) }
{
    let mut front = [0u8; 64];
    front.copy_from_slice(&file[..64]);
    match Header::read(&front) {
        Ok(header) => Ok(header),
        Err(fault) => Err(status::header_fault_status(fault)),
    }
}

/// The costs that the header of a file says. Anyone can make a header, so nothing is known of who wrote it.
#[unsafe(no_mangle)]
pub extern "C" fn pikhsen_scrypt_info(file: &[u8], costs: &mut PikhsenScryptCosts) -> u32
    ensures costs { result ≡ 0 → costs_of_numbers costs.new.log_n costs.new.r costs.new.p ≡ costs_of (take 64 file.now) }
    ensures status { result ≡ header_status file.now }
    ensures untouched { IsUnchangedIfRefused result costs.old costs.new }
{
    if file.len() < 64 {
        return status::TOO_SHORT;
    }
    match read_file_header(file) {
        Ok(header) => {
            let said = header.costs();
            *costs = PikhsenScryptCosts {
                log_n: u32::from(said.log_n()),
                r: said.r(),
                p: said.p(),
            };
            status::OK
        }
        Err(status) => status,
    }
}

// Whether salt, text and file have lengths that fit, or the number of the first fault.
fn check_lengths(salt: &[u8], text_len: usize, out_len: usize) -> Result<(), u32>
    ensures refusal { RefusesEarly (lengths_status (length salt.now) text_len out_len) result }
    ensures salt { OnOk result (length salt.now ≡ 32) }
    ensures fits { OnOk result (FitsFile text_len out_len) }
{
    if salt.len() != 32 {
        return Err(status::FILE_SALT);
    }
    if text_len as u64 >= 1 << 60 {
        return Err(status::TOO_LONG);
    }
    if out_len != text_len + 128 {
        return Err(status::BUFFER);
    }
    Ok(())
}

/// What an encryption is refused for before memory is asked for, if it is, by its number.
pub(crate) fn check_encryption(
    settings: &ScryptCostsAndLimits,
    salt: &[u8],
    text_len: usize,
    out_len: usize,
) -> Result<(), u32>
    ensures refusal { RefusesEarly (encryption_refusal settings.now (length salt.now) text_len out_len) result }
{
    let costs = costs_of(settings.log_n, settings.r, settings.p)?;
    check_lengths(salt, text_len, out_len)?;
    admitted(&costs, &settings.limits)?;
    Ok(())
}

/// The encryption of a text of this length, of which nothing is fed yet, with memory from `source`: one request. Or the
/// number of what it is refused for.
pub(crate) fn start_encryption<S: CallMemory>(
    source: &mut S,
    settings: &ScryptCostsAndLimits,
    passphrase: &[u8],
    salt: &[u8],
    text_len: usize,
    out_len: usize,
    ticks: &mut Ticks,
) -> Result<Enc, u32>
    ensures begun { IfOk result (λ enc. HasEncrypted enc passphrase.now salt.now (costs_of_settings settings.now) []) }
    ensures fits { OnOk result (FitsFile text_len out_len) }
    ensures refusal { RefusesEarlyOrMemory (encryption_refusal settings.now (length salt.now) text_len out_len) result }
    ensures asked { RequestsWorkspaceAtMostOnce S.after_workspace settings.now.limits (costs_of_settings settings.now)
        (status_of_result result) source.old source.new }
    // No derivation begins before every refusal is ruled out, and then one.
    ensures works { CountsWorkOnce (salsa20_cores_of_settings settings.now passphrase.now salt.now)
        (status_of_result result) ticks.old ticks.new }
{
    let costs = costs_of(settings.log_n, settings.r, settings.p)?;
    check_lengths(salt, text_len, out_len)?;
    let mut whole_salt = [0u8; 32];
    whole_salt.copy_from_slice(salt);
    let mut workspace = workspace(source, &costs, &settings.limits)?;
    Ok(Enc::start(&costs, &whole_salt, passphrase, &mut workspace, ticks))
}

// The length of the text that is given, or else of a buffer of `out_len` bytes without its last 128.
fn length_of(text: Option<&[u8]>, out_len: usize) -> usize
    ensures length { result ≡ length_of_text_to_encrypt text.entry out_len }
{
    match text {
        Some(text) => text.len(),
        None => out_len.saturating_sub(128),
    }
}

// Puts the text to where it stands in a file.
fn place_text(text: Option<&[u8]>, out: &mut [u8])
    requires room { length out.old ≡ length_of_text_to_encrypt text (length out.old) + 128 }
    ensures placed { take (length out.old - 128) (drop 96 out.new) ≡ text_to_encrypt text.entry out.old }
{
    let text_len = out.len() - 128;
    match text {
        Some(text) => out[96..96 + text_len].copy_from_slice(text),
        None => out.copy_within(..text_len, 96),
    }
}

// Makes the file of the text that stands in its place, by an encryption of nothing yet. It is never too long.
fn make_file_in_place(enc: Enc, out: &mut [u8]) -> Result<(), TooLong>
    requires room { 128 ≤ length out.old }
    requires short { length out.old < 2 ^ 60 + 128 }
    ensures file { OnOk result ((passphrase salt : List ℕ) (costs : Parameters)
        → HasEncrypted enc passphrase salt costs []
        → out.new ≡ encrypted_file passphrase salt costs (take (length out.old - 128) (drop 96 out.old))) }
    ensures never { OnErr result ((passphrase salt : List ℕ) (costs : Parameters)
        → HasEncrypted enc passphrase salt costs [] → ⊥) }
{
    let mut enc = enc;
    let text_len = out.len() - 128;
    let (head, rest) = out.split_at_mut(96);
    let (body, code) = rest.split_at_mut(text_len);
    head.copy_from_slice(&enc.header());
    enc.feed(body)?;
    code.copy_from_slice(&enc.finish());
    Ok(())
}

// The file of a text, which is given or lies at the front of `out`, with memory from `source`: one request.
#[inline(never)]
fn encrypt_in<S: CallMemory>(
    source: &mut S,
    settings: &ScryptCostsAndLimits,
    passphrase: &[u8],
    salt: &[u8],
    text: Option<&[u8]>,
    out: &mut [u8],
    ticks: &mut Ticks,
) -> u32
    ensures file { result ≡ 0 → out.new
        ≡ encrypted_file passphrase.now salt.now (costs_of_settings settings.now) (text_to_encrypt text.entry out.old) }
    ensures refusal { RefusesByFirst (encryption_refusal settings.now (length salt.now)
        (length_of_text_to_encrypt text.entry (length out.old)) (length out.old)) result out.old out.new }
    ensures asked { RequestsWorkspaceAtMostOnce S.after_workspace settings.now.limits (costs_of_settings settings.now)
        result source.old source.new }
    // No derivation begins before every refusal is ruled out, and then one.
    ensures works { CountsWorkOnce (salsa20_cores_of_settings settings.now passphrase.now salt.now) result ticks.old ticks.new }
{
    let out_len = out.len();
    let text_len = length_of(text, out_len);
    match start_encryption(source, settings, passphrase, salt, text_len, out_len, ticks) {
        Ok(enc) => {
            place_text(text, out);
            match make_file_in_place(enc, out) {
                Ok(()) => status::OK,
                Err(_) => status::TOO_LONG,
            }
        }
        Err(status) => status,
    }
}

/// The file of a text. `out` has 128 bytes more than the text.
#[unsafe(no_mangle)]
pub extern "C" fn pikhsen_scrypt_encrypt(
    machine: Machine,
    passphrase: &[u8],
    salt: &[u8],
    log_n: u32,
    r: u32,
    p: u32,
    keep: u32,
    max_bytes: u64,
    max_ops: u64,
    text: &[u8],
    out: &mut [u8],
) -> Answer
    ensures file { result.status ≡ 0
        → out.new ≡ encrypted_file passphrase.now salt.now (costs_of_numbers log_n r p) text.now }
    // Memory is asked for, and refused, only where nothing else is.
    ensures refusal { RefusesByFirst (encrypt_status (costs_of_numbers log_n r p) keep max_bytes max_ops
        (length salt.now) (length text.now) (length out.old)) result.status out.old out.new }
    ensures machine { DerivesAtMostOnce (salsa20_cores_of_numbers passphrase.now salt.now log_n r p keep) result.status
        machine result.machine }
{
    let mut machine = machine;
    let settings = ScryptCostsAndLimits::new(log_n, r, p, keep, max_bytes, max_ops);
    let status = encrypt_in(
        &mut machine.heap,
        &settings,
        passphrase,
        salt,
        Some(text),
        out,
        &mut machine.cores,
    );
    wipe_stack(status, machine)
}

/// The file of the text that is all of `out` but its last 128 bytes, which need not be set. The file takes its place.
#[unsafe(no_mangle)]
pub extern "C" fn pikhsen_scrypt_encrypt_in_place(
    machine: Machine,
    passphrase: &[u8],
    salt: &[u8],
    log_n: u32,
    r: u32,
    p: u32,
    keep: u32,
    max_bytes: u64,
    max_ops: u64,
    out: &mut [u8],
) -> Answer
    ensures file { result.status ≡ 0 → out.new ≡ encrypted_file passphrase.now salt.now (costs_of_numbers log_n r p)
        (take (length out.old - 128) out.old) }
    // The text stays where it is not encrypted.
    ensures refusal { RefusesByFirst (encrypt_status (costs_of_numbers log_n r p) keep max_bytes max_ops
        (length salt.now) (length out.old - 128) (length out.old)) result.status out.old out.new }
    ensures machine { DerivesAtMostOnce (salsa20_cores_of_numbers passphrase.now salt.now log_n r p keep) result.status
        machine result.machine }
{
    let mut machine = machine;
    let settings = ScryptCostsAndLimits::new(log_n, r, p, keep, max_bytes, max_ops);
    let status = encrypt_in(
        &mut machine.heap,
        &settings,
        passphrase,
        salt,
        None,
        out,
        &mut machine.cores,
    );
    wipe_stack(status, machine)
}

// The first 96 bytes of a file.
fn front_of(file: &[u8]) -> [u8; 96]
    requires long { HasFront file.now }
    ensures front { result ≡ take 96 file.now }
{
    let mut front = [0u8; 96];
    front.copy_from_slice(&file[..96]);
    front
}

/// What a file is refused for before memory is asked for, if it is, by its number.
pub(crate) fn check_header_and_limits(file: &[u8], limits: &ScryptLimits) -> Result<(), u32>
    requires long { HasFront file.now }
    ensures refusal { RefusesEarly (header_and_limits_status_of_settings limits.now file.now) result }
{
    let header = match read_file_header(file) {
        Ok(header) => header,
        Err(status) => return Err(status),
    };
    admitted(header.costs(), limits)?;
    Ok(())
}

// The header of a file, and the memory of the derivation that opens it; or the number of what the file is refused for.
fn header_and_workspace<S: CallMemory>(
    source: &mut S,
    limits: &ScryptLimits,
    file: &[u8],
) -> Result<(Header, Workspace), u32>
    requires long { HasFront file.now }
    ensures header { IfOk result (λ both. BeginsWithHeader file.now both.0) }
    ensures sparse { IfOk result (λ both.
        both.1.sparse ≡ costs_with_keep (costs_of (take 64 file.now)) limits.now.keep) }
    ensures refusal { RefusesEarlyOrMemory (header_and_limits_status_of_settings limits.now file.now) result }
    ensures below { IfErr result (λ status. status ≤ 25) }
    ensures asked { RequestsWorkspaceAtMostOnce S.after_workspace limits.now (costs_of (take 64 file.now))
        (status_of_result result) source.old source.new }
{
    let header = match read_file_header(file) {
        Ok(header) => header,
        Err(status) => return Err(status),
    };
    match workspace(source, header.costs(), limits) {
        Ok(workspace) => Ok((header, workspace)),
        Err(status) => Err(status),
    }
}

/// A decryption after the first 96 bytes of a file, or the number of what the file is refused for.
pub(crate) fn start_decryption<S: CallMemory>(
    source: &mut S,
    limits: &ScryptLimits,
    passphrase: &[u8],
    file: &[u8],
    ticks: &mut Ticks,
) -> Result<Dec, u32>
    requires long { HasFront file.now }
    ensures opened { IfOk result (λ dec. IsOpened file.now passphrase.now dec) }
    ensures wrong { IfErr result (λ status. status ≡ wrong_passphrase_status
        → HasRightHeaderHmac (take 96 file.now) passphrase.now → ⊥) }
    ensures first { ReturnsFirstOrLateStatus (status_of_result result ≡ wrong_passphrase_status)
        (header_and_limits_status_of_settings limits.now file.now) (status_of_result result) }
    ensures at_least_1 { IfErr result IsRefusalStatus }
    ensures below { IfErr result (λ status. status ≤ 27) }
    ensures asked { RequestsWorkspaceToOpen (status_of_result result ≡ wrong_passphrase_status) S.after_workspace limits.now
        file.now (status_of_result result) source.old source.new }
    // There is one derivation, after which the passphrase alone is refused.
    ensures works { CountsWorkUnlessEarly (status_of_result result ≡ wrong_passphrase_status)
        (salsa20_cores_to_open passphrase.now file.now limits.now.keep) (status_of_result result) ticks.old ticks.new }
{
    let (header, workspace) = match header_and_workspace(source, limits, file) {
        Ok(both) => both,
        Err(status) => return Err(status),
    };
    let mut workspace = workspace;
    let front = front_of(file);
    let dec = Dec::open(&front, header, passphrase, &mut workspace, ticks);
    drop(workspace);
    match dec {
        Ok(dec) => Ok(dec),
        Err(_) => Err(status::WRONG_PASSPHRASE),
    }
}

// The text of a file whose first 96 bytes are read, at the front of `out`, if the file is whole.
fn decrypt_rest(dec: Dec, file: &[u8], out: &mut [u8]) -> Result<usize, u32>
    requires long { HasFront file.now }
    requires room { length file.now ≤ length out.old }
    ensures whole { IfOk result (λ n. (passphrase : List ℕ) → IsOpened file.now passphrase dec
        → IsEncryptionOf file.now passphrase (take n out.new)) }
    ensures verdict { IfErr result (λ status. (passphrase : List ℕ) → IsOpened file.now passphrase dec
        → IsFileVerdict file.now passphrase status) }
    ensures at_least_28 { IfErr result (λ status. 28 ≤ status) }
    ensures within { IfOk result (λ n. n ≤ length out.new) }
{
    let mut dec = dec;
    let Ok(len) = dec.feed(&file[96..], out) else {
        return Err(status::TOO_LONG);
    };
    match dec.finish() {
        Ok(()) => Ok(len),
        Err(_) => Err(status::DAMAGED),
    }
}

// The text of a file, with memory from `source`: one request.
#[inline(never)]
fn decrypt_in<S: CallMemory>(
    source: &mut S,
    limits: &ScryptLimits,
    passphrase: &[u8],
    file: &[u8],
    out: &mut [u8],
    text_len: &mut usize,
    ticks: &mut Ticks,
) -> u32
    ensures text { WritesTextOfWholeFile file.now passphrase.now out.old out.new text_len.new result }
    ensures verdict { IsFileVerdict file.now passphrase.now result }
    ensures first { ReturnsFirstOrLateStatus (wrong_passphrase_status ≤ result)
        (front_refusal limits.now file.now (length out.old)) result }
    ensures asked { RequestsWorkspaceToOpen (wrong_passphrase_status ≤ result) S.after_workspace limits.now file.now
        result source.old source.new }
    // No derivation begins before these refusals are ruled out, and then one.
    ensures works { CountsWorkUnlessEarly (wrong_passphrase_status ≤ result)
        (salsa20_cores_to_open passphrase.now file.now limits.now.keep)
        result ticks.old ticks.new }
{
    *text_len = 0;
    if out.len() < file.len() {
        return status::BUFFER;
    }
    if file.len() < 96 {
        return status::TOO_SHORT;
    }
    let dec = match start_decryption(source, limits, passphrase, file, ticks) {
        Ok(dec) => dec,
        Err(status) => return status,
    };
    match decrypt_rest(dec, file, out) {
        Ok(len) => {
            out[len..].fill(0);
            *text_len = len;
            status::OK
        }
        Err(status) => {
            out.fill(0);
            status
        }
    }
}

/// The text of a file, if the file is whole and the passphrase is right; nothing of it otherwise. `out` has
/// at least as many bytes as the file, and the text is the first `text_len` of them; the others are zeros.
#[unsafe(no_mangle)]
pub extern "C" fn pikhsen_scrypt_decrypt(
    machine: Machine,
    passphrase: &[u8],
    keep: u32,
    max_bytes: u64,
    max_ops: u64,
    file: &[u8],
    out: &mut [u8],
    text_len: &mut usize,
) -> Answer
    ensures text { WritesTextOfWholeFile file.now passphrase.now out.old out.new text_len.new result.status }
    ensures verdict { IsFileVerdict file.now passphrase.now result.status }
    // What is refused whatever the passphrase is told by the first fault, and nothing else is then told.
    ensures first { ReturnsFirstOrLateStatus (wrong_passphrase_status ≤ result.status)
        (front_status file.now keep max_bytes max_ops (length out.old)) result.status }
    ensures machine { OpensAtMostOnce (wrong_passphrase_status ≤ result.status) (salsa20_cores_to_open passphrase.now file.now keep)
        result.status machine result.machine }
{
    let mut machine = machine;
    let limits = ScryptLimits::new(keep, max_bytes, max_ops);
    let status = decrypt_in(
        &mut machine.heap,
        &limits,
        passphrase,
        file,
        out,
        text_len,
        &mut machine.cores,
    );
    wipe_stack(status, machine)
}
