//! `etagere stats`: what a script asks for, and how full it leaves the atlas; or how full a saved one is.

use crate::counting::{Report, json_text, plain_text, report_of_saved, report_of_script};
use crate::input::snapshot_text;
use clap::ArgMatches;
use run_scripts::script::Script;
use saved_json::read_saved;
use std::alloc::Global;
use tool_answers::bad_lines::script_in;
use tool_answers::ending::{Answer, Failure};
use tool_answers::{plot_text, series_of};

/// What is told of a script or a snapshot, in the form that the arguments ask for.
pub fn stats(alloc: Global, input: &[u8], given: &ArgMatches<'_>) -> Result<Answer, Failure> {
    if given.get_flag("plot") && given.get_flag("json") {
        return Err(Failure::Misused("--json and --plot exclude each other"));
    }
    let text = if given.get_flag("plot") {
        plot(alloc, input)?
    } else {
        counts(alloc, input, given.get_flag("json"))?
    };
    Ok(Answer::done(text))
}

fn plot(alloc: Global, input: &[u8]) -> Result<String, Failure> {
    if snapshot_text(input).is_some() {
        return Err(Failure::Misused("a script is expected: a snapshot has no commands to plot"));
    }
    let script = script_in(alloc, input)?;
    plot_of(alloc, &script)
}

fn plot_of(alloc: Global, script: &Script) -> Result<String, Failure> {
    let moments = series_of(alloc, script)?;
    Ok(plot_text(alloc, moments.as_slice())?)
}

fn counts(alloc: Global, input: &[u8], is_json: bool) -> Result<String, Failure> {
    let report = report_of(alloc, input)?;
    let text = if is_json {
        json_text(alloc, &report)?
    } else {
        plain_text(alloc, &report)?
    };
    Ok(text)
}

fn report_of(alloc: Global, input: &[u8]) -> Result<Report, Failure> {
    match snapshot_text(input) {
        Some(text) => report_of_saved(alloc, read_saved(alloc, text)?),
        None => {
            let script = script_in(alloc, input)?;
            report_of_script(alloc, &script)
        }
    }
}
