//! The metrics of a server, in Prometheus' text format.

ghost use Rattle.std.specs.Prelude.{◌≡◌, string_bytes, IfOk};
ghost use Rattle.pres_pages.specs.Pages.{checkpoints_text, commits_text, entries_sample, entries_text, gauges_text, head_text, labelled_text, metric_text, metrics_text, rows_text, sessions_text, times_text, traffic_text, unwell_now};

use crate::counts::{Counts, EntryCounts};
use crate::traffic::traffic_text;
use std::alloc::{AllocError, Global};

/// What stands before the samples of a metric.
pub(crate) fn head_text(
    alloc: Global,
    name: &str,
    about: &str,
    kind: &str,
) -> Result<String, AllocError>
    ensures { IfOk result (λ text. string_bytes text ≡ head_text name.now about.now kind.now) }
{
    format!(in alloc; "# HELP {name} {about}\n# TYPE {name} {kind}\n")
}

/// A metric with one sample.
pub(crate) fn metric_text(
    alloc: Global,
    name: &str,
    about: &str,
    kind: &str,
    value: u64,
) -> Result<String, AllocError>
    ensures { IfOk result (λ text. string_bytes text
        ≡ metric_text name.now about.now kind.now value) }
{
    let head = head_text(alloc, name, about, kind)?;
    format!(in alloc; "{head}{name} {value}\n")
}

/// A sample of a metric with a label.
pub(crate) fn labelled_text(
    alloc: Global,
    name: &str,
    label: &str,
    word: &str,
    value: u64,
) -> Result<String, AllocError>
    ensures { IfOk result (λ text. string_bytes text
        ≡ labelled_text name.now label.now word.now value) }
{
    format!(in alloc; "{name}{{{label}=\"{word}\"}} {value}\n")
}

// A sample of the entries of a kind.
fn entries_sample(alloc: Global, kind: &str, value: u64) -> Result<String, AllocError>
    ensures { IfOk result (λ text. string_bytes text ≡ entries_sample kind.now value) }
{
    labelled_text(alloc, "presence_entries_total", "kind", kind, value)
}

// The entries since the start, by their kind.
fn entries_text(alloc: Global, entries: &EntryCounts) -> Result<String, AllocError>
    ensures { IfOk result (λ text. string_bytes text ≡ entries_text entries.now) }
{
    let about = "Entries that were made since the start, by kind.";
    let head = head_text(alloc, "presence_entries_total", about, "counter")?;
    let sessions = sessions_text(alloc, entries)?;
    let rows = rows_text(alloc, entries)?;
    let on = entries_sample(alloc, "on", entries.on)?;
    let off = entries_sample(alloc, "off", entries.off)?;
    format!(in alloc; "{head}{sessions}{rows}{on}{off}")
}

// Those of sessions and their operations.
fn sessions_text(alloc: Global, entries: &EntryCounts) -> Result<String, AllocError>
    ensures { IfOk result (λ text. string_bytes text ≡ sessions_text entries.now) }
{
    let opened = entries_sample(alloc, "open", entries.opened)?;
    let written = entries_sample(alloc, "op", entries.written)?;
    let again = entries_sample(alloc, "again", entries.again)?;
    let ended = entries_sample(alloc, "ended", entries.ended)?;
    format!(in alloc; "{opened}{written}{again}{ended}")
}

// Those of what sessions leave for their ends, and what was denied them.
fn rows_text(alloc: Global, entries: &EntryCounts) -> Result<String, AllocError>
    ensures { IfOk result (λ text. string_bytes text ≡ rows_text entries.now) }
{
    let left = entries_sample(alloc, "left", entries.left)?;
    let cancelled = entries_sample(alloc, "cancelled", entries.cancelled)?;
    let denied = entries_sample(alloc, "denied", entries.denied)?;
    format!(in alloc; "{left}{cancelled}{denied}")
}

// What a server is at the moment.
fn gauges_text(alloc: Global, is_well: bool, counts: &Counts) -> Result<String, AllocError>
    ensures { IfOk result (λ text. string_bytes text ≡ gauges_text is_well counts.now) }
{
    let number = metric_text(
        alloc,
        "presence_number",
        "The number of the last entry.",
        "gauge",
        counts.number,
    )?;
    let sessions = metric_text(
        alloc,
        "presence_open_sessions",
        "How many sessions are open.",
        "gauge",
        counts.open_sessions,
    )?;
    let connections = metric_text(
        alloc,
        "presence_open_connections",
        "How many connections are open.",
        "gauge",
        counts.open_connections,
    )?;
    let unwell = metric_text(
        alloc,
        "presence_unwell",
        "1 while commits are refused or the server is to end, else 0.",
        "gauge",
        unwell_now(is_well),
    )?;
    let file = metric_text(
        alloc,
        "presence_file_bytes",
        "The bytes of the file, without its write-ahead log.",
        "gauge",
        counts.file_bytes,
    )?;
    format!(in alloc; "{number}{sessions}{connections}{unwell}{file}")
}

// 1 if the server isn't well.
fn unwell_now(is_well: bool) -> u64
    ensures { result ≡ unwell_now is_well }
{
    if is_well { 0 } else { 1 }
}

// What was counted of connections and commits.
fn commits_text(alloc: Global, counts: &Counts) -> Result<String, AllocError>
    ensures { IfOk result (λ text. string_bytes text ≡ commits_text counts.now) }
{
    let connections = metric_text(
        alloc,
        "presence_connections_total",
        "Connections that were accepted since the start.",
        "counter",
        counts.connections,
    )?;
    let commits = metric_text(
        alloc,
        "presence_commits_total",
        "Commits that were made since the start.",
        "counter",
        counts.commits,
    )?;
    let batches = metric_text(
        alloc,
        "presence_batches_total",
        "Batches that were committed since the start; those of a group share a commit.",
        "counter",
        counts.batches,
    )?;
    let refused = metric_text(
        alloc,
        "presence_refused_commits_total",
        "Commits that were refused since the start.",
        "counter",
        counts.refused_commits,
    )?;
    format!(in alloc; "{connections}{commits}{batches}{refused}")
}

// How long what was done took.
fn times_text(alloc: Global, counts: &Counts) -> Result<String, AllocError>
    ensures { IfOk result (λ text. string_bytes text ≡ times_text counts.now) }
{
    metric_text(
        alloc,
        "presence_longest_commit_microseconds",
        "The longest commit since the metrics were read last; the lock is held meanwhile.",
        "gauge",
        counts.longest_commit,
    )
}

// How many checkpoints were made, when the last one was, and how long one took.
fn checkpoints_text(alloc: Global, counts: &Counts) -> Result<String, AllocError>
    ensures { IfOk result (λ text. string_bytes text ≡ checkpoints_text counts.now) }
{
    let made = metric_text(
        alloc,
        "presence_checkpoints_total",
        "Checkpoints that were made since the start.",
        "counter",
        counts.checkpoints,
    )?;
    let last = metric_text(
        alloc,
        "presence_last_checkpoint_timestamp_seconds",
        "When the last checkpoint was made, or else when the server started, in seconds since 1970.",
        "gauge",
        counts.last_checkpoint,
    )?;
    let longest = metric_text(
        alloc,
        "presence_longest_checkpoint_microseconds",
        "The longest checkpoint since the metrics were read last; the lock is held meanwhile.",
        "gauge",
        counts.longest_checkpoint,
    )?;
    format!(in alloc; "{made}{last}{longest}")
}

/// All metrics of a server that is well, or isn't, and has counted this.
pub fn metrics_text(alloc: Global, is_well: bool, counts: &Counts) -> Result<String, AllocError>
    ensures { IfOk result (λ text. string_bytes text ≡ metrics_text is_well counts.now) }
{
    let gauges = gauges_text(alloc, is_well, counts)?;
    let commits = commits_text(alloc, counts)?;
    let entries = entries_text(alloc, &counts.entries)?;
    let times = times_text(alloc, counts)?;
    let checkpoints = checkpoints_text(alloc, counts)?;
    let traffic = traffic_text(alloc, counts)?;
    format!(in alloc; "{gauges}{commits}{entries}{times}{checkpoints}{traffic}")
}
