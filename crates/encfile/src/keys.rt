//! What the passphrase gives: 64 bytes, of which the first 32 are the key of AES-256 and the last 32
//! that of HMAC-SHA-256.
ghost use Rattle.std.specs.Prelude.{◌≡◌, take, drop};
ghost use Rattle.macs.specs.Hmac.{Holds};
ghost use Rattle.encfile.specs.EncryptedFile.{derived_key, hmac_sha256, DerivesKeys};

use aes_ctr::{Aes256, Ctr};
use macs::Hmac;
use romix::{Ticks, Workspace};

// The keys of the passphrase and the salt, by the costs of the workspace.
pub(crate) fn derived_key(
    passphrase: &[u8],
    salt: &[u8; 32],
    workspace: &mut Workspace,
    ticks: &mut Ticks,
) -> [u8; 64]
    ensures key { result ≡ derived_key passphrase.now salt.now workspace.old.sparse.costs }
    ensures derives { DerivesKeys passphrase.now salt.now workspace.old.sparse.costs workspace.old workspace.new
        ticks.old ticks.new }
{
    let mut keys = [0u8; 64];
    workspace.derive(passphrase, salt, &mut keys, ticks);
    keys
}

// The key stream, at its start.
pub(crate) fn key_stream(keys: &[u8; 64]) -> Ctr
    ensures stream { result ≡ record { key = take 32 keys.now; position = 0 } }
{
    let mut cipher_key = [0u8; 32];
    cipher_key.copy_from_slice(&keys[..32]);
    Ctr::new(Aes256::new(&cipher_key))
}

// The running code of the first bytes of a file.
pub(crate) fn start_file_hmac(keys: &[u8; 64], front: &[u8]) -> Hmac
    ensures code { Holds result (drop 32 keys.now) front.now }
{
    let mut code = Hmac::new(&keys[32..]);
    code.update(front);
    code
}

// Bytes 64 to 95, for bytes 0 to 63.
pub(crate) fn header_hmac(keys: &[u8; 64], header: &[u8]) -> [u8; 32]
    ensures code { result ≡ hmac_sha256 (drop 32 keys.now) header.now }
{
    start_file_hmac(keys, header).finish()
}
