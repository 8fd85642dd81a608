//! The refusal of a header's fault.
ghost use Rattle.std.specs.Prelude.{◌≡◌};
ghost use Rattle.encfile.specs.Front.{header_refusal};
ghost use Rattle.scrypt_run.specs.Inside.Steps.{IsNotOutOfMemory, MayPrecedeWork};
ghost use Rattle.scrypt_run.specs.Refusal.{refusal_of};

use encfile::HeaderFault;
use scrypt_request::ScryptRefusal;

/// The refusal of a header's fault.
#[tactic(auto, unfolding(encfile::specs::Front::header_refusal))]
pub(crate) fn header_refusal(fault: HeaderFault) -> ScryptRefusal
    ensures refusal { result ≡ refusal_of (header_refusal fault) }
    ensures early { MayPrecedeWork result }
    ensures not_out_of_memory { IsNotOutOfMemory result }
{
    match fault {
        HeaderFault::Version => ScryptRefusal::UnsupportedVersion,
        HeaderFault::Magic | HeaderFault::Checksum | HeaderFault::CostsOutOfRange => {
            ScryptRefusal::NotScryptData
        }
    }
}
