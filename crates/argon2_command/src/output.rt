//! What a run writes: the hash, as an encoded text or in hexadecimal.
ghost use Rattle.std.specs.Prelude.{◌≡◌, ◌+◌, IfOk, IfErr, Ok, length};
ghost use Rattle.argon.specs.Counts.{work};
ghost use Rattle.argon2_command.specs.MemoryRequestEffects.{RequestsMemoryForHash};
ghost use Rattle.argon2_command.specs.Output.{admitted_parameters, output_line, parameters_of, tag_line};
ghost use Rattle.argon2_words.specs.Refusal.{IsBeforeMemoryAndOutput};
ghost use Rattle.argon2_words.specs.RequestView.{argon2_request_view};
ghost use Rattle.host.specs.HostState.{KeepsOnErr};

use crate::bytes::Bytes;
use crate::line::replace_tag;
use crate::password::Password;
use crate::run_memory::RunMemory;
use argon::{Inputs, Matrix, Params, Ticks};
use argon2_words::{Argon2Refusal, Request};
use std::alloc::AllocError;

/// The parameters that a request and a password ask for, in range and admitted by the request's limits.
pub fn parameters(request: &Request<'_>, password: &Password) -> Result<Params, Argon2Refusal>
    ensures parameters { result ≡ admitted_parameters (argon2_request_view request.now) password.now }
    ensures value { IfOk result (λ params. params ≡ parameters_of (argon2_request_view request.now) password.now) }
    ensures early { IfErr result IsBeforeMemoryAndOutput }
{
    let settings = &request.settings;
    let params = Params::new(
        settings.kind,
        settings.version.number(),
        settings.passes,
        settings.lanes,
        settings.memory_kib,
        settings.tag_length as usize,
        request.salt.len(),
        password.as_slice().len(),
    )?;
    params.admitted(settings.max_memory_kib, settings.max_ops)?;
    Ok(params)
}

// Hashes, and writes the tag over that of the line. It can ask for no memory.
fn hash_into(
    line: &mut [u8],
    tag: &mut [u8],
    matrix: &mut Matrix,
    request: &Request<'_>,
    password: &Password,
    ticks: &mut Ticks,
)
    requires parameters { matrix.old.parameters ≡ parameters_of (argon2_request_view request.now) password.now }
    requires len { length tag.old ≡ matrix.old.parameters.tag_len }
    requires line { line.old ≡ tag_line (argon2_request_view request.now) tag.old }
    ensures line { line.new ≡ output_line (argon2_request_view request.now) password.now matrix.old.parameters }
    ensures count { ticks.new ≡ ticks.old + work matrix.old.parameters }
{
    let inputs = Inputs {
        password: password.as_slice(),
        salt: request.salt.as_bytes(),
        secret: &[],
        associated: &[],
    };
    matrix.hash(&inputs, tag, ticks);
    replace_tag(request, line, tag);
}

/// The whole output of a run, with its line feed. All memory is taken before the hash: until then the
/// line is that of a tag of zeros.
pub fn output<R: RunMemory>(
    memory: &mut R,
    request: &Request<'_>,
    password: &Password,
    params: &Params,
    ticks: &mut Ticks,
) -> Result<Bytes, AllocError>
    requires admitted { admitted_parameters (argon2_request_view request.now) password.now ≡ Ok params.now }
    requires parameters { params.now ≡ parameters_of (argon2_request_view request.now) password.now }
    ensures line { IfOk result (λ line.
        line.list.items ≡ output_line (argon2_request_view request.now) password.now params.now) }
    // Memory is asked for the tag, the line and one matrix, up to the first that is refused.
    ensures memory { RequestsMemoryForHash R.effects (argon2_request_view request.now) params.now result
        memory.old memory.new }
    // No hash begins before every refusal is ruled out, that of memory too.
    ensures no_work { KeepsOnErr result ticks.old ticks.new }
    ensures count { IfOk result (λ _. ticks.new ≡ ticks.old + work params.now) }
{
    let mut tag = memory.zeros(params.tag_len())?;
    let mut line = memory.line(request, tag.as_slice())?;
    let mut matrix = memory.matrix(params, &request.settings)?;
    hash_into(
        line.as_mut_slice(),
        tag.as_mut_slice(),
        &mut matrix,
        request,
        password,
        ticks,
    );
    Ok(line)
}
