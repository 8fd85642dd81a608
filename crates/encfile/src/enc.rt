//! Encryption in pieces.
ghost use Rattle.std.specs.Prelude.{◌≡◌, ◌+◌, ◌^◌, ◌≤◌, ◌++◌, [], length, drop, OnOk, OnErr};
ghost use Rattle.macs.specs.HmacSha256.{hmac_sha256};
ghost use Rattle.romix.specs.Costs.{IsInRange};
ghost use Rattle.encfile.specs.Header.{header};
ghost use Rattle.encfile.specs.EncryptedFile.{body, encrypted_file, head, DerivesKeys};
ghost use Rattle.encfile.specs.Encrypting.{HasEncryptedWithKeys, EncryptionTakes, ForAllEncrypted, HasEncrypted};

use crate::fault::TooLong;
use crate::header_bytes::header;
use crate::keys::{derived_key, header_hmac, key_stream, start_file_hmac};
use aes_ctr::Ctr;
use macs::Hmac;
use romix::{Costs, Ticks, Workspace};

/// The text of a file is shorter than this, in bytes.
const TEXT_LIMIT: u64 = 1 << 60;

// Bytes 0 to 95 of the file of these costs, this salt and these keys.
fn head(costs: &Costs, salt: &[u8; 32], keys: &[u8; 64]) -> [u8; 96]
    ensures bytes { result ≡ header costs.now salt.now
        ++ hmac_sha256 (drop 32 keys.now) (header costs.now salt.now) }
    ensures in_range { IsInRange costs.now }
{
    let front = header(costs, salt);
    let mut bytes = [0u8; 96];
    bytes[..64].copy_from_slice(&front);
    bytes[64..].copy_from_slice(&header_hmac(keys, &front));
    bytes
}

/// A running encryption: the file is [`header`](Enc::header), then each piece of the text as
/// [`feed`](Enc::feed) leaves it, then [`finish`](Enc::finish).
///
/// Contracts see, by `HasEncrypted`, the passphrase, the salt and the costs, and the text so far.
/// Where several passphrases give the same keys, it is the encryption of each.
#[derive(Drop)]
pub struct Enc {
    header: [u8; 96],
    ctr: Ctr,
    hmac: Hmac,
}

impl Enc {
    // An encryption after these first 96 bytes.
    fn with_keys(header: [u8; 96], keys: &[u8; 64]) -> Enc
        ensures begun { HasEncryptedWithKeys result header keys.now [] }
    {
        let ctr = key_stream(keys);
        let hmac = start_file_hmac(keys, &header);
        Enc { header, ctr, hmac }
    }

    /// Begins the encryption of a text. The keys are derived from the passphrase and the salt in
    /// the workspace, which was reserved for these costs, whatever its S, in as many ticks as
    /// `Workspace::derive` says.
    pub fn start(
        costs: &Costs,
        salt: &[u8; 32],
        passphrase: &[u8],
        workspace: &mut Workspace,
        ticks: &mut Ticks,
    ) -> Enc
        requires workspace { workspace.old.sparse.costs ≡ costs.now }
        ensures begun { HasEncrypted result passphrase.now salt.now costs.now [] }
        ensures derives { DerivesKeys passphrase.now salt.now costs.now workspace.old workspace.new
            ticks.old ticks.new }
    {
        let keys = derived_key(passphrase, salt, workspace, ticks);
        Enc::with_keys(head(costs, salt, &keys), &keys)
    }

    /// The first 96 bytes of the file.
    pub fn header(&self) -> [u8; 96]
        ensures head { ForAllEncrypted (HasEncrypted self.now)
            (λ passphrase salt costs _. result ≡ head passphrase salt costs) }
        // which is all before the first piece of the text
        ensures body { ForAllEncrypted (HasEncrypted self.now)
            (λ passphrase salt costs _. result ≡ body passphrase salt costs []) }
    {
        self.header
    }

    /// Encrypts the next bytes of the text in place, or refuses them where the text would reach
    /// 2^60 bytes. After a refusal they and the encryption are as they were.
    pub fn feed(&mut self, bytes: &mut [u8]) -> Result<(), TooLong>
        ensures takes { OnOk result (ForAllEncrypted (HasEncrypted self.old)
            (EncryptionTakes bytes.old bytes.new self.new)) }
        ensures too_long { OnErr result (ForAllEncrypted (HasEncrypted self.old)
            (λ _ _ _ text. 2 ^ 60 ≤ length text + length bytes.old)) }
        ensures unchanged { OnErr result (self.new ≡ self.old) }
        ensures untouched { OnErr result (bytes.new ≡ bytes.old) }
    {
        if bytes.len() as u64 >= TEXT_LIMIT.saturating_sub(self.ctr.position()) {
            return Err(TooLong);
        }
        self.ctr.apply(bytes);
        self.hmac.update(bytes);
        Ok(())
    }

    /// The last 32 bytes of the file.
    pub fn finish(self) -> [u8; 32]
        ensures code { ForAllEncrypted (HasEncrypted self) (λ passphrase salt costs text.
            body passphrase salt costs text ++ result
            ≡ encrypted_file passphrase salt costs text) }
    {
        self.hmac.finish()
    }
}
