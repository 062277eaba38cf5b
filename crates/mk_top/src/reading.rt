//! The script that a form of words asks for.
ghost use Rattle.std.specs.Prelude.{◌≡◌, ◌≢◌, ◌+◌, ◌≤◌, ℕ, true, false, Err, IfOk, IfErr, length};
ghost use Rattle.mk_spelling.specs.declared.fault.TextFault.{TextFault as Fault};
ghost use Rattle.mk_io.specs.Faults.{HasRisen};
ghost use Rattle.mk_io.specs.Wholes.{TakesAll, TakesCount, TakesAtMost};
ghost use Rattle.mk_script.specs.Texts.{IsScript};
ghost use Rattle.mk_ending.specs.Endings.{IsUnread};
ghost use Rattle.mk_top.specs.Forms.{Fits, IsLoad, reads};
ghost use Rattle.mk_top.specs.Asked.{script_limit, script_of_load, Says, SaysFault, IsScriptOf, IsUnsaid, IsUnmade, is_of_reading};

use crate::form::{Form, Load};
use mk_ending::Why;
use mk_gen::generate;
use mk_io::{Source, read_whole};
use mk_script::{Script, ScriptError, parse};
use mk_txn::NoMemory;
use std::alloc::Global;

/// The bytes of a script at the most.
const SCRIPT_LIMIT: usize = 4_194_304;

/// The bytes that the source holds, which may be a script.
fn bytes_from<S: Source>(alloc: Global, source: &mut S) -> Result<Vec<u8>, Why>
    ensures whole { IfOk result (λ bytes. TakesAll (S.left source.old) (S.left source.new) bytes.items × (length bytes.items ≤ script_limit)) }
    ensures err { IfErr result IsUnread }
    ensures too_long { result ≡ Err Why.TooLong → TakesCount (S.left source.old) (S.left source.new) (script_limit + 1) }
    ensures not_too_long { result ≢ Err Why.TooLong → TakesAtMost (S.left source.old) (S.left source.new) script_limit }
    ensures fault { result ≡ Err Why.SourceFault → HasRisen (S.faults source.old) (S.faults source.new) }
{
    Ok(read_whole(alloc, source, SCRIPT_LIMIT)?)
}

/// The script that the bytes stand for.
fn script_in(alloc: Global, bytes: &[u8]) -> Result<Script, Why>
    ensures ok { IfOk result (λ script. IsScript bytes.now script) }
    ensures err { IfErr result (IsUnsaid bytes.now) }
{
    match parse(alloc, bytes) {
        Ok(script) => Ok(script),
        Err(ScriptError::Refused { line, why }) => Err(Why::Refused { line, why }),
        Err(ScriptError::NoMemory) => Err(Why::NoMemory),
    }
}

/// The script that the source holds.
fn script_from<S: Source>(alloc: Global, source: &mut S) -> Result<Script, Why>
    ensures ok { IfOk result (λ script. Says (S.left source.old) script) }
    ensures refused { (line : ℕ) (why : Fault) → result ≡ Err (Why.Refused line why) → SaysFault (S.left source.old) line why }
    ensures too_long { result ≡ Err Why.TooLong → TakesCount (S.left source.old) (S.left source.new) (script_limit + 1) }
    ensures not_too_long { result ≢ Err Why.TooLong → TakesAtMost (S.left source.old) (S.left source.new) script_limit }
    ensures fault { result ≡ Err Why.SourceFault → HasRisen (S.faults source.old) (S.faults source.new) }
    ensures others { IfErr result IsUnmade }
{
    let bytes = bytes_from(alloc, source)?;
    script_in(alloc, bytes.as_slice())
}

/// The script that the load asks for.
fn script_made(alloc: Global, load: Load) -> Result<Script, NoMemory>
    requires { IsLoad load }
    ensures { IfOk result (λ script. script ≡ script_of_load load) }
{
    generate(alloc, load.number, load.clients, load.txns, load.keys)
}

/// The script that the form asks for. It is read or made.
pub fn script_of<S: Source>(alloc: Global, form: Form, source: &mut S) -> Result<Script, Why>
    requires { Fits form }
    ensures ok { IfOk result (λ script. IsScriptOf form (S.left source.old) script) }
    ensures refused { (line : ℕ) (why : Fault) → result ≡ Err (Why.Refused line why) → SaysFault (S.left source.old) line why }
    ensures too_long { result ≡ Err Why.TooLong → TakesCount (S.left source.old) (S.left source.new) (script_limit + 1) }
    ensures not_too_long { result ≢ Err Why.TooLong → TakesAtMost (S.left source.old) (S.left source.new) script_limit }
    ensures fault { result ≡ Err Why.SourceFault → HasRisen (S.faults source.old) (S.faults source.new) }
    ensures others { IfErr result IsUnmade }
    ensures read { IfErr result (λ why. is_of_reading why ≡ true → reads form ≡ true) }
    ensures unread { reads form ≡ false → source.new ≡ source.old }
{
    match form {
        Form::Report | Form::Trace | Form::Json | Form::Follow => script_from(alloc, source),
        Form::Summary(load) => Ok(script_made(alloc, load)?),
    }
}
