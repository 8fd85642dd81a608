//! Decryption in pieces.
ghost use Rattle.std.specs.Prelude.{◌≡◌, ◌+◌, ◌^◌, ◌≤◌, [], length, take, drop, IfOk, OnOk, OnErr};
ghost use Rattle.encfile.specs.Header.{IsHeaderOf};
ghost use Rattle.encfile.specs.EncryptedFile.{HasRightHeaderHmac, released_text, DerivesKeys};
ghost use Rattle.encfile.specs.Decrypting.{HasDecryptedWithKeys, DecryptionHasRead, DecryptionTakes, ForAllRead, TellsWhetherWhole};

use crate::fault::{Damaged, TooLong, WrongPassphrase};
use crate::header::Header;
use crate::keys::{derived_key, header_hmac, key_stream, start_file_hmac};
use crate::tail::Tail;
use aes_ctr::Ctr;
use comparison::are_same;
use macs::Hmac;
use romix::{Ticks, Workspace};

/// The bytes after the first 96, a text of fewer than 2^60 bytes and the final code, are fewer
/// than this.
const LIMIT_AFTER_FIRST_96_BYTES: u64 = (1 << 60) + 32;

/// A running decryption. It holds back the last bytes that it was fed, at most 32, since they may
/// be the final code.
///
/// Contracts see, by `DecryptionHasRead`, the passphrase and all bytes of the file so far, the first 96 too.
/// What was released is the `released_text` of those bytes. Only [`finish`](Dec::finish) tells
/// whether it can be trusted.
#[derive(Drop)]
pub struct Dec {
    ctr: Ctr,
    hmac: Hmac,
    held: Tail,
}

impl Dec {
    // A decryption after these first 96 bytes.
    fn with_keys(front: &[u8; 96], keys: &[u8; 64]) -> Dec
        ensures begun { HasDecryptedWithKeys result front.now keys.now [] [] }
    {
        Dec {
            ctr: key_stream(keys),
            hmac: start_file_hmac(keys, front),
            held: Tail::new(),
        }
    }

    /// Begins to read the file of these first 96 bytes, of which the first 64 were read as this
    /// header; or tells that bytes 64 to 95 are not right under the passphrase. The keys are
    /// derived in the workspace, which was reserved for the header's costs, whatever its S, in as
    /// many ticks as `Workspace::derive` says, whatever the answer.
    pub fn open(
        front: &[u8; 96],
        header: Header,
        passphrase: &[u8],
        workspace: &mut Workspace,
        ticks: &mut Ticks,
    ) -> Result<Dec, WrongPassphrase>
        requires header { IsHeaderOf (take 64 front.now) header }
        requires workspace { workspace.old.sparse.costs ≡ header.costs }
        ensures opened { IfOk result (λ dec. DecryptionHasRead dec passphrase.now front.now) }
        ensures nothing { OnOk result (released_text front.now passphrase.now ≡ []) }
        ensures right { OnOk result (HasRightHeaderHmac front.now passphrase.now) }
        ensures wrong { OnErr result (HasRightHeaderHmac front.now passphrase.now → ⊥) }
        ensures derives { DerivesKeys passphrase.now header.salt header.costs workspace.old workspace.new
            ticks.old ticks.new }
    {
        let keys = derived_key(passphrase, header.salt(), workspace, ticks);
        if !are_same(&front[64..], &header_hmac(&keys, &front[..64])) {
            return Err(WrongPassphrase);
        }
        Ok(Dec::with_keys(front, &keys))
    }

    /// Reads the next bytes of the file, and answers how many bytes of text it released, which are
    /// the first of `out`. After them it puts those that it holds, at most 32, as they came. The rest of
    /// `out` stays: it is at least 32 bytes longer than the piece.
    ///
    /// It refuses the piece where the bytes after the first 96 would reach 2^60 + 32. After a
    /// refusal `out` and the decryption are as they were.
    pub fn feed(&mut self, piece: &[u8], out: &mut [u8]) -> Result<usize, TooLong>
        requires room { length piece.now + 32 ≤ length out.old }
        ensures takes { IfOk result (λ n. ForAllRead (DecryptionHasRead self.old)
            (DecryptionTakes piece.now out.old out.new n self.new)) }
        ensures too_long { OnErr result (ForAllRead (DecryptionHasRead self.old)
            (λ _ file. 2 ^ 60 + 128 ≤ length file + length piece.now)) }
        ensures within { IfOk result (λ n. n ≤ length piece.now) }
        ensures rest { drop (length piece.now + 32) out.new ≡ drop (length piece.now + 32) out.old }
        ensures unchanged { OnErr result (self.new ≡ self.old) }
        ensures untouched { OnErr result (out.new ≡ out.old) }
    {
        let rest = self.ctr.position().saturating_add(self.held.len() as u64);
        if piece.len() as u64 >= LIMIT_AFTER_FIRST_96_BYTES.saturating_sub(rest) {
            return Err(TooLong);
        }
        let released = self.held.take_in(piece, out);
        let text = &mut out[..released];
        self.hmac.update(text);
        self.ctr.apply(text);
        Ok(released)
    }

    /// Whether the bytes that were read are, all together, an encryption under the passphrase of
    /// the text that was released: 32 bytes are held, and they are the HMAC of everything before.
    pub fn finish(self) -> Result<(), Damaged>
        ensures tells { TellsWhetherWhole self result }
    {
        let Dec { hmac, held, .. } = self;
        if held.is(&hmac.finish()) {
            Ok(())
        } else {
            Err(Damaged)
        }
    }
}
