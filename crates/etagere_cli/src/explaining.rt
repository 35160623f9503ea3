//! `etagere explain`: why commands were refused, a line is bad, or a snapshot is broken.

use crate::input::snapshot_text;
use broken_snapshots::{Breach, Record, breach_of, breach_of_buckets, bucket_rule, shelf_rule};
use etagere::{AtlasAllocator, BucketedAtlasAllocator, RestoreFault};
use run_scripts::faults::{ReplayFault, RunFault};
use run_scripts::script::{Commands, Script};
use saved_json::{ReadFault, Saved, read_saved};
use std::alloc::{AllocError, Global};
use tool_answers::bad_lines::script_in;
use tool_answers::ending::{Answer, Failure};
use tool_answers::pieces::Piece::{Count, Words};
use tool_answers::pieces::push_pieces;
use tool_answers::reasons::{Why, bucket_why, grow_why, push_largest, push_why, shelf_why};
use tool_answers::script_lines::{line_numbers, line_of_command};
use traffic::going_on::{Finding, Reason, Refused};
use traffic::refusals::{explain_atlas, explain_buckets};

/// What is told of a script or a snapshot.
pub fn explain(alloc: Global, input: &[u8]) -> Result<Answer, Failure> {
    let explained = match snapshot_text(input) {
        Some(text) => explain_snapshot(alloc, text),
        None => explain_script(alloc, input),
    };
    match explained {
        Ok(answer) => Ok(answer),
        Err(failure) => told_of(alloc, failure),
    }
}

/// What is told of an input that isn't good.
fn told_of(alloc: Global, failure: Failure) -> Result<Answer, Failure> {
    let status = failure.status();
    if matches!(failure, Failure::Fault(_)) {
        return Err(failure);
    }
    let text = format!(in alloc; "{failure}\n")?;
    Ok(Answer::told(status, text))
}

fn explain_script(alloc: Global, bytes: &[u8]) -> Result<Answer, Failure> {
    let script = script_in(alloc, bytes)?;
    let findings = findings_of(alloc, &script)?;
    let is_vertical = script.options.vertical_shelves;
    let text = findings_text(alloc, bytes, findings.as_slice(), is_vertical)?;
    Ok(Answer::done(text))
}

/// What is told of the commands of a script that are refused.
fn findings_of(alloc: Global, script: &Script) -> Result<Vec<Finding>, RunFault> {
    let (size, options) = (script.size, &script.options);
    match &script.commands {
        Commands::OfShelves(commands) => explain_atlas(alloc, size, options, commands.as_slice()),
        Commands::OfBuckets(commands) => explain_buckets(alloc, size, options, commands.as_slice()),
    }
}

fn findings_text(
    alloc: Global,
    bytes: &[u8],
    findings: &[Finding],
    is_vertical: bool,
) -> Result<String, AllocError> {
    let numbers = line_numbers(alloc, bytes)?;
    let mut text = String::new(alloc);
    for finding in findings {
        let number = line_of_command(numbers.as_slice(), finding.position);
        push_pieces(
            &mut text,
            &[Words("line "), Count(number as u128), Words(": ")],
        )?;
        push_refused(&mut text, &finding.refused, is_vertical)?;
        text.push_str("\n")?;
    }
    if findings.is_empty() {
        text.push_str("no command was refused\n")?;
    }
    Ok(text)
}

/// Adds what is said of a refused command behind its line.
fn push_refused(text: &mut String, refused: &Refused, is_vertical: bool) -> Result<(), AllocError> {
    match refused.reason {
        Reason::OfGrow(number) => {
            text.push_str("grow to ")?;
            push_why(text, grow_why(number), refused.asked, false)
        }
        Reason::OfShelves(reason) => push_reason(text, shelf_why(reason), refused, is_vertical),
        Reason::OfBuckets(reason) => push_reason(text, bucket_why(reason), refused, is_vertical),
    }
}

/// Adds why a size was given no place, and which is the largest that would be.
fn push_reason(
    text: &mut String,
    why: Why,
    refused: &Refused,
    is_vertical: bool,
) -> Result<(), AllocError> {
    push_why(text, why, refused.asked, is_vertical)?;
    push_largest(text, refused.largest_free)
}

fn explain_snapshot(alloc: Global, text: &[u8]) -> Result<Answer, Failure> {
    let saved = saved_in(alloc, text)?;
    match restored(alloc, saved) {
        Ok(()) => Ok(Answer::done("the snapshot keeps all rules\n".to_string(alloc)?)),
        Err(RestoreFault::Memory) => Err(Failure::Fault(ReplayFault::Memory)),
        Err(fault) => Ok(Answer::told(1, broken_text(alloc, text, fault)?)),
    }
}

fn saved_in(alloc: Global, text: &[u8]) -> Result<Saved, Failure> {
    match read_saved(alloc, text) {
        Ok(saved) => Ok(saved),
        Err(ReadFault::Unreadable) => {
            Err(Failure::Misused("unreadable: the JSON text of one snapshot is expected"))
        }
        Err(ReadFault::Memory) => Err(Failure::Fault(ReplayFault::Memory)),
    }
}

fn restored(alloc: Global, saved: Saved) -> Result<(), RestoreFault> {
    match saved {
        Saved::Atlas(snapshot) => AtlasAllocator::restore(alloc, snapshot).map(|_| ()),
        Saved::Bucketed(snapshot) => BucketedAtlasAllocator::restore(alloc, snapshot).map(|_| ()),
    }
}

/// Which rule a snapshot breaks, and at which record, where that can be said. It is read again, since restoring consumed
/// it.
fn broken_text(alloc: Global, text: &[u8], fault: RestoreFault) -> Result<String, Failure> {
    let saved = read_saved(alloc, text)?;
    let (rule, breach) = broken_rule(alloc, &saved, fault)?;
    Ok(broken_line(alloc, fault.number(), rule, breach)?)
}

fn broken_rule(
    alloc: Global,
    saved: &Saved,
    fault: RestoreFault,
) -> Result<(&'static str, Option<Breach>), AllocError> {
    let number = fault.number();
    match saved {
        Saved::Atlas(snapshot) => Ok((shelf_rule(number), breach_of(alloc, snapshot, fault)?)),
        Saved::Bucketed(snapshot) => Ok((
            bucket_rule(number),
            breach_of_buckets(alloc, snapshot, fault)?,
        )),
    }
}

fn broken_line(
    alloc: Global,
    number: u32,
    rule: &str,
    breach: Option<Breach>,
) -> Result<String, AllocError> {
    let mut line = format!(in alloc; "broken {number}: {rule}")?;
    if let Some(breach) = breach {
        push_breach(&mut line, breach)?;
    }
    line.push_str("\n")?;
    Ok(line)
}

fn push_breach(text: &mut String, breach: Breach) -> Result<(), AllocError> {
    text.push_str("; at ")?;
    push_record(text, breach.record)?;
    push_pieces(text, &[Words(": "), Words(breach.what)])
}

/// Adds the name of a record.
fn push_record(text: &mut String, record: Record) -> Result<(), AllocError> {
    match record {
        Record::Field(name) => text.push_str(name),
        Record::Shelf(number) => push_numbered(text, "shelf ", number as u128),
        Record::Item(number) => push_numbered(text, "item ", number as u128),
        Record::Bucket(number) => push_numbered(text, "bucket ", number as u128),
    }
}

fn push_numbered(text: &mut String, name: &str, number: u128) -> Result<(), AllocError> {
    push_pieces(text, &[Words(name), Count(number)])
}
