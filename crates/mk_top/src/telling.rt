//! What is told of a run.
ghost use Rattle.std.specs.Prelude.{◌≡◌, ◌++◌, IfOk, OnOk};
ghost use Rattle.std.specs.String.{string_bytes};
ghost use Rattle.std.specs.List.{list_any};
ghost use Rattle.mk_history.specs.Legality.{IsLegal};
ghost use Rattle.mk_report.specs.RunReports.{summary_of};
ghost use Rattle.mk_run.specs.Attempts.{is_open as spec_open, outcomes_of};
ghost use Rattle.mk_top.specs.Runs.{has_left, load_line, text_of};

use crate::form::{Form, Load};
use mk_kept::Run;
use mk_report::{json_text, report_text, summary_text};
use mk_run::{AttemptLine, State, outcomes};
use mk_shown::follow_text;
use mk_trace::write_trace;
use mk_txn::NoMemory;
use std::alloc::{AllocError, Global};

/// Writes the first line of a summary, which is the words that asked for it.
fn put_load(out: &mut String, load: Load) -> Result<(), AllocError>
    ensures { OnOk result (string_bytes out.new ≡ string_bytes out.old ++ load_line load) }
{
    let Load {
        number,
        clients,
        txns,
        keys,
    } = load;
    writeln!(out, "gen {number} {clients} {txns} {keys}")?;
    Ok(())
}

fn summary(alloc: Global, load: Load, run: &Run, lines: &[AttemptLine]) -> Result<Vec<u8>, NoMemory>
    requires legal { IsLegal run.now }
    requires lines { lines.now ≡ outcomes_of run.now }
    ensures { IfOk result (λ text. text.items ≡ load_line load ++ summary_of run.now) }
{
    let mut line = String::new(alloc);
    put_load(&mut line, load)?;
    let mut text = line.into_bytes();
    let told = summary_text(alloc, run, lines)?;
    text.extend_from_slice(told.as_slice())?;
    Ok(text)
}

/// The text that the form asks for of a run whose outcomes these lines are.
fn text_of_run(
    alloc: Global,
    form: Form,
    run: &Run,
    lines: &[AttemptLine],
) -> Result<Vec<u8>, NoMemory>
    requires legal { IsLegal run.now }
    requires lines { lines.now ≡ outcomes_of run.now }
    ensures { IfOk result (λ text. text.items ≡ text_of form run.now) }
{
    match form {
        Form::Report => report_text(alloc, run, lines),
        Form::Trace => write_trace(alloc, run),
        Form::Json => json_text(alloc, run, lines),
        Form::Follow => follow_text(alloc, run, lines),
        Form::Summary(load) => summary(alloc, load, run, lines),
    }
}

fn is_open(state: State) -> bool
    ensures { result ≡ spec_open state }
{
    matches!(state, State::Left(_))
}

fn any_open(lines: &[AttemptLine]) -> bool
    ensures { result ≡ list_any (λ line. spec_open line.state) lines.now }
{
    lines.iter().any(|line| is_open(line.state))
}

/// A run with its text, and whether nobody learned how an attempt of it ended.
#[derive(Drop)]
pub struct Told {
    pub run: Run,
    pub text: Vec<u8>,
    pub is_left: bool,
}

/// A run with the text that the form asks for.
pub fn tell(alloc: Global, form: Form, run: Run) -> Result<Told, NoMemory>
    requires { IsLegal run }
    ensures run { IfOk result (λ told. told.run ≡ run) }
    ensures text { IfOk result (λ told. told.text.items ≡ text_of form run) }
    ensures left { IfOk result (λ told. told.is_left ≡ has_left run) }
{
    let lines = outcomes(alloc, &run)?;
    let text = text_of_run(alloc, form, &run, lines.as_slice())?;
    let is_left = any_open(lines.as_slice());
    Ok(Told { run, text, is_left })
}
