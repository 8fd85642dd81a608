//! Where memory comes from: the heap, or any other source, for which the functions that do the work are proved too.
ghost use Rattle.std.specs.Prelude.{◌≡◌, ◌^◌, ℕ, Bool, true, List, is_ok, length, IfOk, IfErr, OnOk, IsErrOf};
ghost use Rattle.argon.specs.Range.{IsInRangeWithAnyPassword};
ghost use Rattle.argon_text.specs.EncodedText.{IsEncodedTextOf};
ghost use Rattle.argon_text.specs.Grammar.{HasWellFormedNumbers, IsEncodedText, IsEncodedTextInRange};
ghost use Rattle.argon_text.specs.View.{value_of};
ghost use Rattle.romix.specs.SparseCosts.{SparseFitsMemory, CostsAndKeep};
ghost use Rattle.pikhsen_c.specs.Argon2.{IsEncodableValue, Parameters, encoded_text_with_zero_tag};
ghost use Rattle.pikhsen_c.specs.Inside.Numbers.{had_memory_to_read};
ghost use Rattle.pikhsen_c.specs.Scrypt.{limits_status};

use crate::reading::Reading;
use crate::text::Text;
use argon::Params;
use argon_text::{HashMemory, ReadFault};
use romix::{Sparse, Workspace};
use std::alloc::AllocError;

/// The requests for memory of a call; those for a matrix are those of `HashMemory`. Contracts see which were made, in which
/// order, under which limits, and whether they were granted: the last argument of each function below says so.
pub(crate) trait CallMemory: HashMemory {
    // The state in which a request for the text of a hash that has zeros for a tag leaves the source; `true`: it was
    // granted.
    ghost after_text: { Self → Parameters → List ℕ → Bool → Self };

    // The same for the memory of a derivation.
    ghost after_workspace: { Self → CostsAndKeep → ℕ → ℕ → Bool → Self };

    // The same for the reading of a text.
    ghost after_reading: { Self → List ℕ → Bool → Self };

    /// The text that has zeros for a tag.
    fn text(&mut self, params: &Params, salt: &[u8]) -> Result<Text, AllocError>
        requires in_range { IsInRangeWithAnyPassword params.now }
        requires salt { length salt.now ≡ params.now.salt_len }
        ensures text { IfOk result (λ text. text.list.items ≡ encoded_text_with_zero_tag params.now salt.now) }
        ensures asked { self.new ≡ after_text self.old params.now salt.now (is_ok result) };

    /// The memory of a derivation that the limits admit.
    fn workspace(
        &mut self,
        sparse: &Sparse,
        max_bytes: u64,
        max_ops: u64,
    ) -> Result<Workspace, AllocError>
        requires fits { SparseFitsMemory sparse.now (2 ^ 40) }
        requires admitted { limits_status sparse.now max_bytes max_ops ≡ 0 }
        ensures sparse { IfOk result (λ workspace. workspace.sparse ≡ sparse.now) }
        ensures asked { self.new ≡ after_workspace self.old sparse.now max_bytes max_ops (is_ok result) };

    /// What `Encoded::read` answers, without the lists of a value.
    fn read(&mut self, text: &[u8]) -> Result<Reading, ReadFault>
        ensures found { IfOk result (λ reading. IsEncodedTextOf (value_of reading.encoded) text.now) }
        ensures value { IfOk result (λ reading. IsEncodableValue (value_of reading.encoded)) }
        ensures not_in_grammar { IsErrOf result ReadFault.NotInGrammar → IsEncodedText text.now → ⊥ }
        ensures out_of_range { IsErrOf result ReadFault.OutOfRange
            → IsEncodedText text.now × (IsEncodedTextInRange text.now → ⊥) }
        ensures out_of_memory { IsErrOf result ReadFault.OutOfMemory → HasWellFormedNumbers text.now }
        ensures asked { OnOk result (self.new ≡ after_reading self.old text.now true) }
        ensures refused { IfErr result (λ fault. self.new
            ≡ after_reading self.old text.now (had_memory_to_read fault)) };
}
