//! The first 96 bytes of a file, with a header that is valid.
ghost use Rattle.std.specs.Prelude.{◌≡◌, ◌^◌, take, IfOk, IfErr, OnOk, IsTrue};
ghost use Rattle.encfile.specs.Front.{format_refusal};
ghost use Rattle.encfile.specs.Header.{IsHeaderOf};
ghost use Rattle.host.specs.CallsGrantedByHost.{with_input_opened};
ghost use Rattle.scrypt_request.specs.Request.{name_view};
ghost use Rattle.scrypt_run.specs.Inside.Front.{IsFrontOf, ReadsFront};
ghost use Rattle.scrypt_run.specs.Inside.Steps.{AreBelow, EndsBeforeWork, IsNotOutOfMemory};

use crate::refusal::header_refusal;
use encfile::Header;
use host::{Host, HostFault, pull_full};
use romix::Costs;
use scrypt_request::ScryptRefusal;

/// The first 96 bytes of a file, and the header in them.
#[derive(Drop)]
pub(crate) struct Front {
    pub(crate) bytes: [u8; 96],
    pub(crate) header: Header,
    ghost in_bytes: { IsHeaderOf (take 64 bytes) header },
}

impl Front {
    /// The costs that the header says.
    pub(crate) fn costs(&self) -> &Costs
        ensures costs { result.now ≡ self.now.header.costs }
    {
        self.header.costs()
    }
}

/// Opens the input, reads its first 96 bytes, and reads the header in them.
pub(crate) fn read_front<H: Host>(
    host: &mut H,
    infile: Option<&str>,
) -> Result<Front, ScryptRefusal>
    requires room { AreBelow (2 ^ 63) (H.faults host.old) }
    requires unopened { IsTrue (H.grants host.old).input }
    ensures ends { EndsBeforeWork result (H.faults host.old) (H.faults host.new) }
    ensures granted { OnOk result (H.grants host.new ≡ with_input_opened (H.grants host.old)) }
    ensures front { IsTrue H.tells →
        IfOk result (λ front. IsFrontOf (H.seen host.old).input front.bytes front.header) }
    ensures reads { IsTrue H.tells → ReadsFront result (format_refusal (H.seen host.old).input)
        (name_view infile.entry) (H.seen host.old) (H.seen host.new) }
    ensures not_out_of_memory { IfErr result IsNotOutOfMemory }
{
    let Ok(()) = host.open_input(infile) else {
        return Err(ScryptRefusal::InputFault);
    };
    let mut bytes = [0u8; 96];
    match pull_full(host, &mut bytes) {
        Ok(96) => match Header::of_front(&bytes) {
            Ok(header) => Ok(Front { bytes, header }),
            Err(fault) => Err(header_refusal(fault)),
        },
        Ok(_) => Err(ScryptRefusal::NotScryptData),
        Err(HostFault) => Err(ScryptRefusal::InputFault),
    }
}
