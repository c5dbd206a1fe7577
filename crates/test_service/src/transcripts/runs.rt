//! Runs in the text of a transcript: a line that begins with `# ` is the title of a run. Below it
//! are, in their order, requests after `> ` and replies after `< `; other lines are comments. The
//! lines below a line such as `* 1..=255` are sent once for each of these numbers, up to the next
//! line that begins with `* `; below `* then` they are sent once. If flushes are noted, `<| ` is a
//! reply with a bar after it; `>| ` is a request without a newline.

use crate::transcripts::marks::put_marked;
use crate::transcripts::outcomes::Exchange;
use std::alloc::{AllocError, Global};
use std::iter::Skip;
use std::ops::RangeInclusive;
use std::str::Split;

/// The texts of the runs, each beginning with its title.
pub fn runs_of(text: &str) -> Skip<Split<'_, &'static str>> {
    text.split("\n# ").skip(1)
}

/// The lines of other sessions: at first, and then after each reply.
#[derive(Drop)]
pub struct Others {
    first: Exchange,
    between: Exchange,
}

impl Others {
    pub fn none(alloc: Global) -> Others {
        Others {
            first: Exchange::new(alloc),
            between: Exchange::new(alloc),
        }
    }

    /// The two runs of a text.
    pub fn read(alloc: Global, text: &str) -> Result<Others, AllocError> {
        let mut others = Others::none(alloc);
        let mut runs = runs_of(text);
        others.first = exchange_of(alloc, runs.next().unwrap_or(""), &Others::none(alloc))?;
        others.between = exchange_of(alloc, runs.next().unwrap_or(""), &Others::none(alloc))?;
        Ok(others)
    }
}

/// The numbers for which a part of a run is repeated, by its first line.
fn passes(part: &str) -> RangeInclusive<u32> {
    let first = part.lines().next().unwrap_or("");
    match first.split_once("..=") {
        Some((from, to)) => from.parse().unwrap_or(0)..=to.parse().unwrap_or(0),
        None => 0..=0,
    }
}

/// Appends a line of a run, in the pass with a number.
fn put_line(
    alloc: Global,
    exchange: &mut Exchange,
    line: &str,
    number: u32,
    between: &Exchange,
) -> Result<(), AllocError> {
    if let Some(request) = line.strip_prefix("> ") {
        return put_marked(alloc, &mut exchange.input, request, number, "\n");
    }
    if let Some(request) = line.strip_prefix(">| ") {
        return put_marked(alloc, &mut exchange.input, request, number, "");
    }
    if let Some(reply) = line.strip_prefix("<| ") {
        return put_marked(alloc, &mut exchange.want, reply, number, "\n|");
    }
    if let Some(reply) = line.strip_prefix("< ") {
        put_marked(alloc, &mut exchange.want, reply, number, "\n")?;
        return exchange.append(between);
    }
    Ok(())
}

/// Appends a part of a run, in the pass with a number.
fn put_pass(
    alloc: Global,
    exchange: &mut Exchange,
    part: &str,
    number: u32,
    between: &Exchange,
) -> Result<(), AllocError> {
    for line in part.lines() {
        put_line(alloc, exchange, line, number, between)?;
    }
    Ok(())
}

/// Appends a part of a run in all its passes, with the lines of other sessions in the first.
fn put_part(
    alloc: Global,
    exchange: &mut Exchange,
    part: &str,
    between: &Exchange,
) -> Result<(), AllocError> {
    let mut numbers = passes(part);
    if let Some(number) = numbers.next() {
        put_pass(alloc, exchange, part, number, between)?;
    }
    let nobody = Exchange::new(alloc);
    for number in numbers {
        put_pass(alloc, exchange, part, number, &nobody)?;
    }
    Ok(())
}

/// The requests of a run and its replies, with the lines of other sessions.
pub fn exchange_of(alloc: Global, run: &str, others: &Others) -> Result<Exchange, AllocError> {
    let mut exchange = Exchange::new(alloc);
    exchange.append(&others.first)?;
    for part in run.split("\n* ") {
        put_part(alloc, &mut exchange, part, &others.between)?;
    }
    Ok(exchange)
}

/// Whether a service gives the replies of a run.
pub fn are_answered(alloc: Global, run: &str, others: &Others) -> Result<bool, AllocError> {
    Ok(exchange_of(alloc, run, others)?.are_answered(alloc))
}
