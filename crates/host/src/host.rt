//! What a command asks of the world.
ghost use Rattle.std.specs.Prelude.{◌≡◌, ◌-◌, ◌<◌, ◌^◌, Bool, true, [], take, length, option_map, IfOk, OnOk, OnErr, IsTrue};
ghost use Rattle.host.specs.Faults.{Faults, AreBelow, with_input_failure_counted, with_output_failure_counted, with_secret_failure_counted, with_salt_failure_counted, with_line_failure_counted, CountsFailure, CountsNoFailure};
ghost use Rattle.host.specs.CallsGrantedByHost.{CallsGrantedByHost, GrantsAllButPullsAsBefore, with_input_opened, with_output_asked, with_output_opened, with_salt_asked, with_secret_asked};
ghost use Rattle.host.specs.Secret.{secret_of_source, source_of, IsBeginning};
ghost use Rattle.host.specs.HostState.{HostState, after_ask_secret, after_pull, after_push, after_salt, after_say, after_ask_output, after_open_input, after_open_output, FitsWithin, KeepsOnErr, KeepsOnOk, TakesSome};

use thiserror::Error;

/// The host could not do what it was asked. After a call of a [`Host`] its count of such failures has
/// risen by one, and nothing else has changed, but that an output, a secret source or a salt was asked
/// for.
#[derive(Clone, Copy, Debug, PartialEq, Eq, Error)]
#[error("the host failed")]
pub struct HostFault;

/// Where a secret comes from.
#[derive(Clone, Copy, Debug)]
pub enum Source<'a> {
    /// All of standard input.
    StdinOnce,
    /// The environment variable of this name.
    Env(&'a str),
    /// The file of this name.
    File(&'a str),
}

/// The world outside, as a command sees it.
///
/// Contracts see whether the host tells its bytes (`tells`), its bytes, names and lines (`seen`),
/// how often its calls have failed (`faults`), and which calls it grants (`grants`). A call that answers
/// `Ok` changes no count, and of `seen` only what its clauses say; a call that answers `Err` raises its
/// count by one and changes nothing else, but that an output, a secret source or a salt was asked for, and
/// that nothing is promised of what is granted after a pull or a push that failed.
/// What is said of bytes, names and lines holds of a host that tells them; the counts, the bounds on
/// lengths and what is granted hold of every host.
///
/// An input is opened once: opened again, a file would be read from its beginning, and contracts would
/// not see it. It is pulled from only once it is opened, and not after a pull that gave no byte: past its
/// end a terminal, a pipe or a file that grows may give more. One output is asked for, once: a file that is
/// made or emptied stays so, also where it is not taken, so contracts see its name whatever the answer. It
/// is pushed to only once it is opened, and not after a push that failed. One secret source is asked,
/// once: asked again, standard input would be at its end, or wait for more. A salt is asked for once:
/// asked for again, another would come, and a command could take the one that it likes.
pub trait Host {
    // Whether contracts may speak of the bytes, names and lines.
    ghost tells: { Bool };

    // The bytes, names and lines.
    ghost seen: { Self → HostState };

    // How often each kind of call has failed.
    ghost faults: { Self → Faults };

    // The calls that are granted.
    ghost grants: { Self → CallsGrantedByHost };

    /// Opens the input under this name, once; `None` is standard input.
    fn open_input(&mut self, name: Option<&str>) -> Result<(), HostFault>
        requires room { AreBelow (2 ^ 64 - 1) (faults self.old) }
        requires unopened { (grants self.old).input ≡ true }
        ensures counts { CountsNoFailure result (faults self.old) (faults self.new) }
        ensures counted { CountsFailure with_input_failure_counted result (faults self.old) (faults self.new) }
        ensures kept { IsTrue tells → KeepsOnErr result (seen self.old) (seen self.new) }
        ensures opened { IsTrue tells → OnOk result
            (seen self.new ≡ after_open_input (option_map (λ n. n.now) name.entry) (seen self.old)) }
        ensures granted { OnOk result (grants self.new ≡ with_input_opened (grants self.old)) }
        ensures granted_as_before { KeepsOnErr result (grants self.old) (grants self.new) };

    /// Whether the input is standard input itself, whatever its name. The input is opened, and each pull before gave a
    /// byte.
    fn input_is_stdin(&mut self) -> Result<bool, HostFault>
        requires room { AreBelow (2 ^ 64 - 1) (faults self.old) }
        requires readable { (grants self.old).readable ≡ true }
        ensures counts { CountsNoFailure result (faults self.old) (faults self.new) }
        ensures counted { CountsFailure with_input_failure_counted result (faults self.old) (faults self.new) }
        ensures same { IsTrue tells → seen self.new ≡ seen self.old }
        ensures told { IsTrue tells → IfOk result (λ is_stdin. is_stdin ≡ (seen self.old).input_is_stdin) }
        ensures granted { grants self.new ≡ grants self.old };

    /// Opens the output under this name; `None` is standard output. No output was asked for before;
    /// this one is asked for, whatever the answer.
    fn open_output(&mut self, name: Option<&str>) -> Result<(), HostFault>
        requires room { AreBelow (2 ^ 64 - 1) (faults self.old) }
        requires unasked { (grants self.old).output ≡ true }
        ensures counts { CountsNoFailure result (faults self.old) (faults self.new) }
        ensures counted { CountsFailure with_output_failure_counted result (faults self.old) (faults self.new) }
        ensures asks { IsTrue tells → OnErr result
            (seen self.new ≡ after_ask_output (option_map (λ n. n.now) name.entry) (seen self.old)) }
        ensures opened { IsTrue tells → OnOk result
            (seen self.new ≡ after_open_output (option_map (λ n. n.now) name.entry) (seen self.old)) }
        ensures granted { OnOk result (grants self.new ≡ with_output_opened (grants self.old)) }
        ensures granted_no_other { OnErr result (grants self.new ≡ with_output_asked (grants self.old)) };

    /// Puts the next bytes of the input into the buffer, and says how many: 0 only at the end of the
    /// input, or into a buffer without room. The input is opened, and each pull before gave a byte.
    fn pull(&mut self, buf: &mut [u8]) -> Result<usize, HostFault>
        requires room { AreBelow (2 ^ 64 - 1) (faults self.old) }
        requires readable { (grants self.old).readable ≡ true }
        ensures bound { FitsWithin result buf.old }
        ensures counts { CountsNoFailure result (faults self.old) (faults self.new) }
        ensures counted { CountsFailure with_input_failure_counted result (faults self.old) (faults self.new) }
        ensures kept { IsTrue tells → KeepsOnErr result (seen self.old) (seen self.new) }
        ensures within { IsTrue tells → FitsWithin result (seen self.old).input }
        ensures bytes { IsTrue tells →
            IfOk result (λ n. take n buf.new ≡ take n (seen self.old).input) }
        ensures taken { IsTrue tells →
            IfOk result (λ n. seen self.new ≡ after_pull n (seen self.old)) }
        ensures progress { IsTrue tells → IfOk result (λ n.
            0 < length buf.old → n ≡ 0 → (seen self.old).input ≡ []) }
        ensures granted { IfOk result (λ n. 0 < n → grants self.new ≡ grants self.old) }
        ensures granted_all_but_pulls { OnOk result (GrantsAllButPullsAsBefore (grants self.old) (grants self.new)) };

    /// Writes a beginning of the bytes, of at least one where there is one, and says how many. The output
    /// is opened, and no push before has failed.
    fn push(&mut self, bytes: &[u8]) -> Result<usize, HostFault>
        requires room { AreBelow (2 ^ 64 - 1) (faults self.old) }
        requires writable { (grants self.old).writable ≡ true }
        ensures bound { FitsWithin result bytes.now }
        ensures progress { TakesSome result bytes.now }
        ensures counts { CountsNoFailure result (faults self.old) (faults self.new) }
        ensures counted { CountsFailure with_output_failure_counted result (faults self.old) (faults self.new) }
        ensures kept { IsTrue tells → KeepsOnErr result (seen self.old) (seen self.new) }
        ensures put { IsTrue tells →
            IfOk result (λ n. seen self.new ≡ after_push (take n bytes.now) (seen self.old)) }
        ensures granted { KeepsOnOk result (grants self.old) (grants self.new) };

    /// Puts the first bytes of a secret source into the buffer, as many as there are and as fit, and
    /// says how many. No source was asked before; this one is asked, whatever the answer.
    fn secret(&mut self, source: Source<'_>, buf: &mut [u8]) -> Result<usize, HostFault>
        requires room { AreBelow (2 ^ 64 - 1) (faults self.old) }
        requires unasked { (grants self.old).secret ≡ true }
        ensures bound { FitsWithin result buf.old }
        ensures counts { CountsNoFailure result (faults self.old) (faults self.new) }
        ensures counted { CountsFailure with_secret_failure_counted result (faults self.old) (faults self.new) }
        ensures asks { IsTrue tells →
            seen self.new ≡ after_ask_secret (source_of source.entry) (seen self.old) }
        ensures bytes { IsTrue tells →
            IfOk result (λ n. IsBeginning (secret_of_source source.entry (seen self.old)) n buf.new) }
        ensures granted { grants self.new ≡ with_secret_asked (grants self.old) };

    /// Fills the buffer with the salt of a new file. No salt was asked for before; now one was,
    /// whatever the answer.
    fn salt(&mut self, out: &mut [u8; 32]) -> Result<(), HostFault>
        requires room { AreBelow (2 ^ 64 - 1) (faults self.old) }
        requires unsalted { (grants self.old).salt ≡ true }
        ensures counts { CountsNoFailure result (faults self.old) (faults self.new) }
        ensures counted { CountsFailure with_salt_failure_counted result (faults self.old) (faults self.new) }
        ensures salts { IsTrue tells → seen self.new ≡ after_salt (seen self.old) }
        ensures bytes { IsTrue tells → OnOk result (out.new ≡ (seen self.old).salt) }
        ensures granted { grants self.new ≡ with_salt_asked (grants self.old) };

    /// Says a line, which comes without a line feed.
    fn say(&mut self, line: &str) -> Result<(), HostFault>
        requires room { AreBelow (2 ^ 64 - 1) (faults self.old) }
        ensures counts { CountsNoFailure result (faults self.old) (faults self.new) }
        ensures counted { CountsFailure with_line_failure_counted result (faults self.old) (faults self.new) }
        ensures kept { IsTrue tells → KeepsOnErr result (seen self.old) (seen self.new) }
        ensures said { IsTrue tells →
            OnOk result (seen self.new ≡ after_say line.now (seen self.old)) }
        ensures granted { grants self.new ≡ grants self.old };
}
