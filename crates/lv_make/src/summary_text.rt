//! The summary of a run of a made script.
ghost use Rattle.std.specs.Prelude.{◌≡◌, ◌++◌, ◌+ℤ◌, length, codes, decimal, IfOk, OnOk};
ghost use Rattle.std.specs.Int.{int_wrap, w128};
ghost use Rattle.std.specs.List.{flat_map, count_by};
ghost use Rattle.lv_values.specs.Order.{number_of};
ghost use Rattle.lv_plain.specs.declared.entry.Reply.TheVariants as reply;
ghost use Rattle.lv_make.specs.Summary as spec;

use crate::faults::fault_number;
use itoa::Buffer;
use lv_plain::{Entry, Program, Reply};
use lv_values::{Bytes, NoMemory, Row, Value, print_natural, print_number};
use std::alloc::Global;

/// The session that reads, the third of a made script.
const READER: u32 = 3;

fn is_refused(reply: &Reply) -> bool
    ensures { result ≡ spec.is_refused reply.now }
{
    matches!(reply, Reply::Refused(_))
}

/// Whether it shows the number of a new commit.
fn is_commit(reply: &Reply) -> bool
    ensures { result ≡ spec.is_commit reply.now }
{
    match reply {
        Reply::Alone { number, .. } => number.is_some(),
        Reply::Committed { number } => number.is_some(),
        _ => false,
    }
}

/// Whether the entry is a statement that was refused.
#[tactic(auto, unfolding(crate::specs::Summary::shows_fault))]
fn shows_fault(entry: &Entry) -> bool
    ensures { result ≡ spec.shows_fault entry.now }
{
    match entry {
        Entry::Session { reply, .. } => is_refused(reply),
        _ => false,
    }
}

/// Whether the entry is a statement that made a commit.
#[tactic(auto, unfolding(crate::specs::Summary::shows_commit))]
fn shows_commit(entry: &Entry) -> bool
    ensures { result ≡ spec.shows_commit entry.now }
{
    match entry {
        Entry::Session { reply, .. } => is_commit(reply),
        _ => false,
    }
}

fn faults_in(entries: &[Entry]) -> u64
    ensures { result ≡ count_by spec.shows_fault entries.now }
{
    entries.iter().filter(|entry| shows_fault(entry)).count() as u64
}

fn commits_in(entries: &[Entry]) -> u64
    ensures { result ≡ count_by spec.shows_commit entries.now }
{
    entries.iter().filter(|entry| shows_commit(entry)).count() as u64
}

/// Appends a count in decimal.
fn add_count(count: u128, out: &mut Bytes) -> Result<(), NoMemory>
    ensures { OnOk result (out.new ≡ out.old ++ decimal count) }
{
    let mut buffer = Buffer::new();
    out.extend_from_slice(buffer.format(count).as_bytes())
}

/// Appends the line of what was made.
fn add_made(n: u32, program: &Program, out: &mut Bytes) -> Result<(), NoMemory>
    ensures { OnOk result (out.new ≡ out.old ++ spec.made_line n program.now) }
{
    out.extend_from_slice(b"made ")?;
    print_natural(u64::from(n), out)?;
    out.extend_from_slice(b" statements ")?;
    add_count(program.statements(), out)?;
    out.extend_from_slice(b"\n")
}

/// Appends the line of what is counted.
fn add_counts(entries: &[Entry], out: &mut Bytes) -> Result<(), NoMemory>
    ensures { OnOk result (out.new ≡ out.old ++ spec.counts_line entries.now) }
{
    out.extend_from_slice(b"faults ")?;
    print_natural(faults_in(entries), out)?;
    out.extend_from_slice(b" commits ")?;
    print_natural(commits_in(entries), out)?;
    out.extend_from_slice(b"\n")
}

/// The number, 0 of a text.
fn number_of(value: &Value) -> i128
    ensures { result ≡ number_of value.now }
{
    match value {
        Value::Num(number) => *number,
        Value::Text(_) => 0,
    }
}

/// The sum of two numbers, wrapped to 128 bits.
fn wrapped_sum(a: i128, b: i128) -> i128
    ensures { result ≡ int_wrap w128 (a +ℤ b) }
{
    a.wrapping_add(b)
}

/// The sum of a row's numbers, wrapped to 128 bits.
fn row_sum(row: &[Value]) -> i128
    ensures { result ≡ int_wrap w128 (spec.row_sum row.now) }
{
    let mut sum = 0i128;
    for value in row {
        sum = wrapped_sum(sum, number_of(value));
    }
    sum
}

/// The sum of all numbers in rows, wrapped to 128 bits.
fn sum_of(rows: &[Row]) -> i128
    ensures { result ≡ spec.sum_of rows.now }
{
    let mut sum = 0i128;
    for row in rows {
        sum = wrapped_sum(sum, row_sum(row.as_slice()));
    }
    sum
}

/// Appends the line of rows that were read.
fn add_rows(place: u32, rows: &[Row], out: &mut Bytes) -> Result<(), NoMemory>
    ensures { OnOk result (out.new ≡ out.old ++ spec.read_text place (reply.Rows rows.now)) }
{
    out.extend_from_slice(b"read ")?;
    print_natural(u64::from(place), out)?;
    out.extend_from_slice(b" rows ")?;
    print_natural(rows.len() as u64, out)?;
    out.extend_from_slice(b" sum ")?;
    print_number(sum_of(rows), out)?;
    out.extend_from_slice(b"\n")
}

/// Appends the line of a query that was refused.
fn add_fault(place: u32, fault: u64, out: &mut Bytes) -> Result<(), NoMemory>
    ensures { OnOk result (out.new ≡ out.old ++ codes "read " ++ decimal place ++ codes " fault " ++ decimal fault ++ codes "\n") }
{
    out.extend_from_slice(b"read ")?;
    print_natural(u64::from(place), out)?;
    out.extend_from_slice(b" fault ")?;
    print_natural(fault, out)?;
    out.extend_from_slice(b"\n")
}

/// Appends the line of what a query was answered, if it is an answer or a fault.
fn add_reply(place: u32, reply: &Reply, out: &mut Bytes) -> Result<(), NoMemory>
    ensures { OnOk result (out.new ≡ out.old ++ spec.read_text place reply.now) }
{
    match reply {
        Reply::Rows(rows) => add_rows(place, rows.as_slice(), out),
        Reply::Refused(fault) => add_fault(place, fault_number(fault), out),
        _ => Ok(()),
    }
}

/// Appends the line of an entry of the session that reads.
fn add_read(entry: &Entry, out: &mut Bytes) -> Result<(), NoMemory>
    ensures { OnOk result (out.new ≡ out.old ++ spec.read_line entry.now) }
{
    match entry {
        Entry::Session {
            session,
            place,
            reply,
            ..
        } if *session == READER => add_reply(*place, reply, out),
        _ => Ok(()),
    }
}

/// Appends the lines of the session that reads.
fn add_reads(entries: &[Entry], out: &mut Bytes) -> Result<(), NoMemory>
    ensures { OnOk result (out.new ≡ out.old ++ flat_map spec.read_line entries.now) }
{
    for entry in entries {
        add_read(entry, out)?;
    }
    Ok(())
}

/// The summary of the entries of a run of a script that was made for `n` sales, and of its program: a line with `n` and
/// the number of statements; one with how many replies are faults and how many show a new commit; and for each
/// statement of the session that reads one with the number of its rows and the sum of all numbers in them, wrapped to
/// signed 128 bits, or with its fault. A statement that has no entry has no line; in a whole run none lacks one.
///
/// Cost: linear in the sessions, in the entries and in the values of the rows that were read.
#[tactic(auto, unfolding(crate::specs::Summary::summary_of))]
pub fn summary(
    alloc: Global,
    n: u32,
    program: &Program,
    entries: &[Entry],
) -> Result<Bytes, NoMemory>
    ensures { IfOk result (λ text. text ≡ spec.summary_of n program.now entries.now) }
{
    let mut out = Bytes::new(alloc);
    add_made(n, program, &mut out)?;
    add_counts(entries, &mut out)?;
    add_reads(entries, &mut out)?;
    Ok(out)
}
