//! scrypt's encrypted files in pieces.
ghost use Rattle.std.specs.Prelude.{◌≡◌, ◌≢◌, ◌+◌, ◌<◌, ◌≤◌, [], length, true};
ghost use Rattle.pikhsen_c.specs.File.{salsa20_cores_to_open};
ghost use Rattle.pikhsen_c.specs.Heap.{BeginsDecryptionAtMostOnce, BeginsEncryptionAtMostOnce, CountsWorkOnce, CountsWorkUnlessEarly, RequestsMemoryToStart};
ghost use Rattle.pikhsen_c.specs.Inside.StreamState.{is_decryption, is_encryption};
ghost use Rattle.pikhsen_c.specs.Inside.Settings.{salsa20_cores_of_settings, costs_of_settings, decryption_start_refusal, encryption_start_refusal};
ghost use Rattle.pikhsen_c.specs.Scrypt.{costs_of_numbers, salsa20_cores_of_numbers};
ghost use Rattle.pikhsen_c.specs.Status.{IsUnchangedIfRefused, RefusesByFirst, ReturnsFirstOrLateStatus, damaged_status, long_text_status, wrong_buffer_status, wrong_passphrase_status, wrong_stream_state_status};
ghost use Rattle.pikhsen_c.specs.Stream.{AreLastFileBytes, BeginsToRead, EncryptsPiece, EndsStream, IsAsBefore, IsOver, JudgesFile, ReadsPiece, StreamHasEncrypted, StreamHasRead, StreamStateHasEncrypted, StreamStateHasRead, TellsOfStream, body, decrypt_start_status, encrypt_start_status};

use crate::file::{check_encryption, check_header_and_limits, start_decryption, start_encryption};
use crate::heap::Heap;
use crate::machine::Machine;
use crate::scrypt::{ScryptCostsAndLimits, ScryptLimits};
use crate::status;
use crate::stream::{PikhsenStream, STREAM_DECRYPTS, STREAM_ENCRYPTS, StreamState};
use crate::wiping::{Answer, wipe_stack};
use romix::Ticks;
use std::alloc::Global;

// Begins an encryption, with two requests: for the stream's block, and then for the memory of the derivation.
#[inline(never)]
fn encrypt_start_in(
    heap: &mut Heap,
    settings: &ScryptCostsAndLimits,
    passphrase: &[u8],
    salt: &[u8],
    stream: &mut PikhsenStream,
    head: &mut [u8],
    ticks: &mut Ticks,
) -> u32
    ensures begun { result ≡ 0 → StreamHasEncrypted stream.new passphrase.now salt.now (costs_of_settings settings.now) [] }
    ensures head { result ≡ 0 → head.new ≡ body passphrase.now salt.now (costs_of_settings settings.now) [] }
    ensures refusal { RefusesByFirst (encryption_start_refusal stream.old.runs settings.now
        (length salt.now) (length head.old)) result stream.old stream.new }
    ensures untouched { IsUnchangedIfRefused result head.old head.new }
    ensures asked { RequestsMemoryToStart result heap.old heap.new }
    ensures works { CountsWorkOnce (salsa20_cores_of_settings settings.now passphrase.now salt.now) result ticks.old ticks.new }
{
    if stream.runs != 0 {
        return status::STREAM;
    }
    let file_len = head.len() + 32;
    if let Err(status) = check_encryption(settings, salt, 0, file_len) {
        return status;
    }
    let Ok(mut block) = heap.block() else {
        return status::OUT_OF_MEMORY;
    };
    match start_encryption(heap, settings, passphrase, salt, 0, file_len, ticks) {
        Ok(enc) => {
            head.copy_from_slice(&enc.header());
            drop(Box::replace(&mut block, StreamState::Enc(enc)));
            stream.begin(STREAM_ENCRYPTS, block);
            status::OK
        }
        Err(status) => status,
    }
}

/// Begins an encryption, and gives the first 96 bytes of its file.
#[unsafe(no_mangle)]
pub extern "C" fn pikhsen_scrypt_encrypt_start(
    machine: Machine,
    passphrase: &[u8],
    salt: &[u8],
    log_n: u32,
    r: u32,
    p: u32,
    keep: u32,
    max_bytes: u64,
    max_ops: u64,
    stream: &mut PikhsenStream,
    head: &mut [u8],
) -> Answer
    ensures begun { result.status ≡ 0 → StreamHasEncrypted stream.new passphrase.now salt.now (costs_of_numbers log_n r p) [] }
    ensures head { result.status ≡ 0 → head.new ≡ body passphrase.now salt.now (costs_of_numbers log_n r p) [] }
    // Memory is asked for, and refused, only where nothing else is.
    ensures refusal { RefusesByFirst (encrypt_start_status stream.old.runs (costs_of_numbers log_n r p) keep max_bytes max_ops
        (length salt.now) (length head.old)) result.status stream.old stream.new }
    ensures untouched { IsUnchangedIfRefused result.status head.old head.new }
    ensures machine { BeginsEncryptionAtMostOnce (salsa20_cores_of_numbers passphrase.now salt.now log_n r p keep)
        result.status machine result.machine }
{
    let mut machine = machine;
    let settings = ScryptCostsAndLimits::new(log_n, r, p, keep, max_bytes, max_ops);
    let status = encrypt_start_in(
        &mut machine.heap,
        &settings,
        passphrase,
        salt,
        stream,
        head,
        &mut machine.cores,
    );
    wipe_stack(status, machine)
}

// Encrypts the next bytes of the text in place.
#[inline(never)]
fn encrypted(running: &mut StreamState, bytes: &mut [u8]) -> u32
    requires encryption { is_encryption running.old ≡ true }
    ensures piece { EncryptsPiece (StreamStateHasEncrypted running.old) (StreamStateHasEncrypted running.new)
        bytes.old bytes.new result }
    ensures long { result ≢ 0 → result ≡ long_text_status }
    ensures unchanged { IsUnchangedIfRefused result running.old running.new }
    ensures stays { is_encryption running.new ≡ true }
{
    match running {
        StreamState::Enc(enc) => match enc.feed(bytes) {
            Ok(()) => status::OK,
            Err(_) => status::TOO_LONG,
        },
        _ => status::TOO_LONG,
    }
}

/// Encrypts the next bytes of the text in place.
#[unsafe(no_mangle)]
pub extern "C" fn pikhsen_scrypt_encrypt_feed(
    machine: Machine,
    stream: &mut PikhsenStream,
    bytes: &mut [u8],
) -> Answer
    ensures piece { EncryptsPiece (StreamHasEncrypted stream.old) (StreamHasEncrypted stream.new) bytes.old bytes.new result.status }
    ensures status { TellsOfStream 1 stream.old.runs long_text_status result.status }
    ensures unchanged { result.status ≢ 0 → IsAsBefore stream.old stream.new }
    ensures machine { result.machine ≡ machine }
{
    let mut status = status::STREAM;
    if stream.runs == STREAM_ENCRYPTS {
        let mut boxed = machine.heap.take(stream);
        status = encrypted(&mut boxed, bytes);
        stream.begin(STREAM_ENCRYPTS, boxed);
    }
    wipe_stack(status, machine)
}

// Ends an encryption, and gives the last 32 bytes of its file.
#[inline(never)]
fn finish_encryption(boxed: Box<StreamState, Global>, code: &mut [u8]) -> u32
    requires encryption { is_encryption boxed.value ≡ true }
    requires room { length code.old ≡ 32 }
    ensures code { AreLastFileBytes (StreamStateHasEncrypted boxed.value) code.new }
    ensures done { result ≡ 0 }
{
    let mut boxed = boxed;
    if let StreamState::Enc(enc) = StreamState::take_out_of_box(&mut boxed) {
        code.copy_from_slice(&enc.finish());
    }
    StreamState::free(boxed, status::OK)
}

/// Ends an encryption, and gives the last 32 bytes of its file.
#[unsafe(no_mangle)]
pub extern "C" fn pikhsen_scrypt_encrypt_finish(
    machine: Machine,
    stream: &mut PikhsenStream,
    code: &mut [u8],
) -> Answer
    ensures code { result.status ≡ 0 → AreLastFileBytes (StreamHasEncrypted stream.old) code.new }
    ensures buffer { length code.old ≢ 32 → result.status ≡ wrong_buffer_status }
    ensures other { length code.old ≡ 32 → stream.old.runs ≢ 1 → result.status ≡ wrong_stream_state_status }
    ensures ends { length code.old ≡ 32 → stream.old.runs ≡ 1 → result.status ≡ 0 }
    ensures stream { EndsStream (result.status ≡ 0) (result.status ≢ 0) stream.old stream.new }
    ensures untouched { IsUnchangedIfRefused result.status code.old code.new }
    ensures machine { result.machine ≡ machine }
{
    let mut status = status::STREAM;
    if code.len() != 32 {
        status = status::BUFFER;
    } else if stream.runs == STREAM_ENCRYPTS {
        status = finish_encryption(machine.heap.take(stream), code);
    }
    wipe_stack(status, machine)
}

// Begins a decryption, with two requests: for the stream's block, and then for the memory of the derivation.
#[inline(never)]
fn decrypt_start_in(
    heap: &mut Heap,
    limits: &ScryptLimits,
    passphrase: &[u8],
    front: &[u8],
    stream: &mut PikhsenStream,
    ticks: &mut Ticks,
) -> u32
    ensures stream { BeginsToRead stream.new passphrase.now front.now result }
    ensures first { ReturnsFirstOrLateStatus (result ≡ wrong_passphrase_status)
        (decryption_start_refusal stream.old.runs limits.now front.now) result }
    ensures unchanged { IsUnchangedIfRefused result stream.old stream.new }
    ensures asked { RequestsMemoryToStart result heap.old heap.new }
    ensures works { CountsWorkUnlessEarly (result ≡ wrong_passphrase_status)
        (salsa20_cores_to_open passphrase.now front.now limits.now.keep) result ticks.old ticks.new }
{
    if stream.runs != 0 {
        return status::STREAM;
    }
    if front.len() < 96 {
        return status::TOO_SHORT;
    }
    if let Err(status) = check_header_and_limits(front, limits) {
        return status;
    }
    let Ok(mut block) = heap.block() else {
        return status::OUT_OF_MEMORY;
    };
    match start_decryption(heap, limits, passphrase, front, ticks) {
        Ok(dec) => {
            drop(Box::replace(&mut block, StreamState::Dec(dec)));
            stream.begin(STREAM_DECRYPTS, block);
            status::OK
        }
        Err(status) => status,
    }
}

/// Begins to read the file of these first 96 bytes.
#[unsafe(no_mangle)]
pub extern "C" fn pikhsen_scrypt_decrypt_start(
    machine: Machine,
    passphrase: &[u8],
    keep: u32,
    max_bytes: u64,
    max_ops: u64,
    front: &[u8],
    stream: &mut PikhsenStream,
) -> Answer
    ensures stream { BeginsToRead stream.new passphrase.now front.now result.status }
    // Memory is asked for, and refused, only where nothing else is; and so is a passphrase.
    ensures first { ReturnsFirstOrLateStatus (result.status ≡ wrong_passphrase_status)
        (decrypt_start_status stream.old.runs front.now keep max_bytes max_ops) result.status }
    ensures unchanged { IsUnchangedIfRefused result.status stream.old stream.new }
    // There is one derivation, after which the passphrase alone is refused.
    ensures machine { BeginsDecryptionAtMostOnce (salsa20_cores_to_open passphrase.now front.now keep)
        result.status machine result.machine }
{
    let mut machine = machine;
    let limits = ScryptLimits::new(keep, max_bytes, max_ops);
    let status = decrypt_start_in(
        &mut machine.heap,
        &limits,
        passphrase,
        front,
        stream,
        &mut machine.cores,
    );
    wipe_stack(status, machine)
}

// Reads the next bytes of the file, and tells how many bytes of text are released.
#[inline(never)]
fn decrypted(running: &mut StreamState, piece: &[u8], out: &mut [u8], released: &mut usize) -> u32
    requires decryption { is_decryption running.old ≡ true }
    requires room { length piece.now + 32 ≤ length out.old }
    requires none { released.old ≡ 0 }
    ensures piece { ReadsPiece (StreamStateHasRead running.old) (StreamStateHasRead running.new) piece.now out.old out.new
        released.new result }
    ensures long { result ≢ 0 → result ≡ long_text_status }
    ensures unchanged { IsUnchangedIfRefused result running.old running.new }
    ensures stays { is_decryption running.new ≡ true }
{
    match running {
        StreamState::Dec(dec) => match dec.feed(piece, out) {
            Ok(n) => {
                *released = n;
                status::OK
            }
            Err(_) => status::TOO_LONG,
        },
        _ => status::TOO_LONG,
    }
}

/// Reads the next bytes of the file, and tells how many bytes of text are released: the first of `out`.
#[unsafe(no_mangle)]
pub extern "C" fn pikhsen_scrypt_decrypt_feed(
    machine: Machine,
    stream: &mut PikhsenStream,
    piece: &[u8],
    out: &mut [u8],
    released: &mut usize,
) -> Answer
    ensures piece { ReadsPiece (StreamHasRead stream.old) (StreamHasRead stream.new) piece.now out.old out.new
        released.new result.status }
    ensures buffer { length out.old < length piece.now + 32 → result.status ≡ wrong_buffer_status }
    ensures status { length piece.now + 32 ≤ length out.old
        → TellsOfStream 2 stream.old.runs long_text_status result.status }
    ensures unchanged { result.status ≢ 0 → IsAsBefore stream.old stream.new }
    ensures machine { result.machine ≡ machine }
{
    *released = 0;
    let mut status = status::STREAM;
    if out.len() < 32 || out.len() - 32 < piece.len() {
        status = status::BUFFER;
    } else if stream.runs == STREAM_DECRYPTS {
        let mut boxed = machine.heap.take(stream);
        status = decrypted(&mut boxed, piece, out, released);
        stream.begin(STREAM_DECRYPTS, boxed);
    }
    wipe_stack(status, machine)
}

// Ends a decryption, and tells whether the file is an encryption of the text that was released.
#[inline(never)]
fn judged(boxed: Box<StreamState, Global>) -> u32
    requires decryption { is_decryption boxed.value ≡ true }
    ensures verdict { JudgesFile (StreamStateHasRead boxed.value) result }
    ensures known { result ≢ 0 → result ≡ damaged_status }
{
    let mut boxed = boxed;
    let mut status = status::DAMAGED;
    if let StreamState::Dec(dec) = StreamState::take_out_of_box(&mut boxed) {
        if dec.finish().is_ok() {
            status = status::OK;
        }
    }
    StreamState::free(boxed, status)
}

/// Ends a decryption, and tells whether the file is an encryption of the text that was released.
#[unsafe(no_mangle)]
pub extern "C" fn pikhsen_scrypt_decrypt_finish(
    machine: Machine,
    stream: &mut PikhsenStream,
) -> Answer
    ensures verdict { JudgesFile (StreamHasRead stream.old) result.status }
    ensures status { TellsOfStream 2 stream.old.runs damaged_status result.status }
    ensures stream { EndsStream (result.status ≢ wrong_stream_state_status) (result.status ≡ wrong_stream_state_status)
        stream.old stream.new }
    ensures machine { result.machine ≡ machine }
{
    let mut status = status::STREAM;
    if stream.runs == STREAM_DECRYPTS {
        status = judged(machine.heap.take(stream));
    }
    wipe_stack(status, machine)
}

// Ends what runs in the box.
#[inline(never)]
fn ended(boxed: Box<StreamState, Global>) -> u32
    ensures done { result ≡ 0 }
{
    let mut boxed = boxed;
    drop(StreamState::take_out_of_box(&mut boxed));
    StreamState::free(boxed, status::OK)
}

/// Ends a stream in whatever state it is.
#[unsafe(no_mangle)]
pub extern "C" fn pikhsen_stream_free(machine: Machine, stream: &mut PikhsenStream) -> Answer
    ensures done { result.status ≡ 0 }
    ensures over { IsOver stream.new }
    ensures machine { result.machine ≡ machine }
{
    let mut status = status::OK;
    if stream.runs == STREAM_ENCRYPTS || stream.runs == STREAM_DECRYPTS {
        status = ended(machine.heap.take(stream));
    }
    stream.runs = 0;
    wipe_stack(status, machine)
}
