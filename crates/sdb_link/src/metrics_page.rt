//! The numbers of a server in Prometheus' text format, version 0.0.4.
use crate::metrics::{CODES, REFUSAL_REASONS, Tally};
use crate::plain_request::{ServerStatus, VERSION};
use crate::session_end::ENDS;
use sdb_progress::{HistogramCounts, SaveStatus};
use sdb_wire::code_name;
use std::alloc::{AllocError, Global};

// Number of microseconds of a second, and of their decimal digits.
const SECOND_MICROS: u64 = 1_000_000;

const GAUGE: &str = "gauge";

const COUNTER: &str = "counter";

const HISTOGRAM: &str = "histogram";

// The name, the type and the meaning of a metric.
#[derive(Clone, Copy, Drop)]
struct Metric {
    name: &'static str,
    kind: &'static str,
    help: &'static str,
}

const INFO: Metric = Metric {
    name: "navirotsohy_info",
    kind: GAUGE,
    help: "The version of the server.",
};

const START: Metric = Metric {
    name: "process_start_time_seconds",
    kind: GAUGE,
    help: "When the server began to listen, in seconds since 1970.",
};

const UPTIME: Metric = Metric {
    name: "navirotsohy_uptime_seconds",
    kind: GAUGE,
    help: "Seconds since the server began to listen.",
};

const RESIDENT: Metric = Metric {
    name: "process_resident_memory_bytes",
    kind: GAUGE,
    help: "Resident memory of the process in bytes.",
};

const MEMORY_LIMIT: Metric = Metric {
    name: "navirotsohy_memory_limit_bytes",
    kind: GAUGE,
    help: "Resident memory in bytes above which no operation is stored.",
};

const STORING: Metric = Metric {
    name: "navirotsohy_storing",
    kind: GAUGE,
    help: "Whether operations are stored: 0 while the memory is above its limit.",
};

const CLIENTS: Metric = Metric {
    name: "navirotsohy_clients",
    kind: GAUGE,
    help: "Clients that are served.",
};

const SUBSCRIPTIONS: Metric = Metric {
    name: "navirotsohy_subscriptions",
    kind: GAUGE,
    help: "Subscriptions of documents by sessions.",
};

const DOCUMENTS: Metric = Metric {
    name: "navirotsohy_documents",
    kind: GAUGE,
    help: "Stored documents.",
};

const ENTRIES: Metric = Metric {
    name: "navirotsohy_entries",
    kind: GAUGE,
    help: "Stored operations, with --store those that are saved.",
};

const MESSAGES: Metric = Metric {
    name: "navirotsohy_messages_total",
    kind: COUNTER,
    help: "Messages received.",
};

const ACKNOWLEDGEMENTS: Metric = Metric {
    name: "navirotsohy_acknowledgements_total",
    kind: COUNTER,
    help: "Acknowledgements sent, with --store after their operations were saved.",
};

const RECEIVED: Metric = Metric {
    name: "navirotsohy_received_bytes_total",
    kind: COUNTER,
    help: "Bytes received after handshakes.",
};

const SENT: Metric = Metric {
    name: "navirotsohy_sent_bytes_total",
    kind: COUNTER,
    help: "Bytes sent after handshakes.",
};

const REFUSALS: Metric = Metric {
    name: "navirotsohy_refusals_total",
    kind: COUNTER,
    help: "Messages refused, by code.",
};

const ENDED: Metric = Metric {
    name: "navirotsohy_sessions_ended_total",
    kind: COUNTER,
    help: "Sessions ended, by reason.",
};

const REFUSED_CLIENTS: Metric = Metric {
    name: "navirotsohy_clients_refused_total",
    kind: COUNTER,
    help: "Clients closed without a session, by reason.",
};

const SAVING: Metric = Metric {
    name: "navirotsohy_saving",
    kind: GAUGE,
    help: "1 if the last round was saved, else 0.",
};

const UNSAVED: Metric = Metric {
    name: "navirotsohy_unsaved_entries",
    kind: GAUGE,
    help: "Stored operations that aren't saved.",
};

const ROUNDS: Metric = Metric {
    name: "navirotsohy_rounds_total",
    kind: COUNTER,
    help: "Groups of operations saved.",
};

const FAILURES: Metric = Metric {
    name: "navirotsohy_save_failures_total",
    kind: COUNTER,
    help: "Rounds that failed.",
};

const DURATIONS: Metric = Metric {
    name: "navirotsohy_round_seconds",
    kind: HISTOGRAM,
    help: "Seconds to take, write and sync a group.",
};

const SIZES: Metric = Metric {
    name: "navirotsohy_round_entries",
    kind: HISTOGRAM,
    help: "Operations of a group.",
};

const HOLDS: Metric = Metric {
    name: "navirotsohy_hold_seconds",
    kind: HISTOGRAM,
    help: "Seconds for which the output of a client was held until it was saved.",
};

/// Returns the numbers of a server as text.
pub fn metrics_text(alloc: Global, status: &ServerStatus) -> Result<String, AllocError> {
    let mut text = String::new(alloc);
    write_head(&mut text, INFO)?;
    writeln!(&mut text, "navirotsohy_info{{version=\"{VERSION}\"}} 1")?;
    write_number(&mut text, START, status.start)?;
    write_number(&mut text, UPTIME, status.uptime)?;
    if let Some(resident) = status.resident {
        write_number(&mut text, RESIDENT, resident)?;
    }
    if let Some(limit) = status.memory_limit {
        write_number(&mut text, MEMORY_LIMIT, limit)?;
        write_number(&mut text, STORING, !status.is_full as u64)?;
    }
    write_number(&mut text, CLIENTS, status.clients as u64)?;
    write_number(&mut text, SUBSCRIPTIONS, status.tally.subscriptions())?;
    write_number(&mut text, DOCUMENTS, status.documents)?;
    write_number(&mut text, ENTRIES, status.saved_entries())?;
    write_tally(&mut text, &status.tally)?;
    if let Some(saving) = &status.saving {
        write_saving(&mut text, status.entries, saving)?;
    }
    Ok(text)
}

fn write_tally(text: &mut String, tally: &Tally) -> Result<(), AllocError> {
    write_number(text, MESSAGES, tally.messages)?;
    write_number(text, ACKNOWLEDGEMENTS, tally.acknowledgements)?;
    write_number(text, RECEIVED, tally.received)?;
    write_number(text, SENT, tally.sent)?;
    write_refusals(text, tally)?;
    write_ends(text, tally)?;
    write_refused_clients(text, tally)
}

// Writes what is known of saving, where this number of entries is stored.
fn write_saving(text: &mut String, entries: u64, saving: &SaveStatus) -> Result<(), AllocError> {
    write_number(text, SAVING, saving.outage.is_none() as u64)?;
    write_number(text, UNSAVED, entries.saturating_sub(saving.entries))?;
    write_number(text, ROUNDS, saving.rounds)?;
    write_number(text, FAILURES, saving.failures)?;
    write_histogram(text, DURATIONS, &saving.durations, SECOND_MICROS)?;
    write_histogram(text, SIZES, &saving.sizes, 1)?;
    write_histogram(text, HOLDS, &saving.holds, SECOND_MICROS)
}

fn write_head(text: &mut String, metric: Metric) -> Result<(), AllocError> {
    let Metric { name, kind, help } = metric;
    writeln!(text, "# HELP {name} {help}")?;
    writeln!(text, "# TYPE {name} {kind}")
}

fn write_number(text: &mut String, metric: Metric, value: u64) -> Result<(), AllocError> {
    write_head(text, metric)?;
    writeln!(text, "{} {value}", metric.name)
}

fn write_refusals(text: &mut String, tally: &Tally) -> Result<(), AllocError> {
    write_head(text, REFUSALS)?;
    for (code, count) in CODES.iter().zip(tally.refusals.iter()) {
        write_labelled(text, REFUSALS, "code", code_name(*code), *count)?;
    }
    Ok(())
}

fn write_ends(text: &mut String, tally: &Tally) -> Result<(), AllocError> {
    write_head(text, ENDED)?;
    for (end, count) in ENDS.iter().zip(tally.ends.iter()) {
        write_labelled(text, ENDED, "reason", end.label(), *count)?;
    }
    Ok(())
}

fn write_refused_clients(text: &mut String, tally: &Tally) -> Result<(), AllocError> {
    write_head(text, REFUSED_CLIENTS)?;
    for (reason, count) in REFUSAL_REASONS.iter().zip(tally.refused_clients.iter()) {
        write_labelled(text, REFUSED_CLIENTS, "reason", reason, *count)?;
    }
    Ok(())
}

fn write_labelled(
    text: &mut String,
    metric: Metric,
    label: &str,
    value: &str,
    count: u64,
) -> Result<(), AllocError> {
    writeln!(text, "{}{{{label}=\"{value}\"}} {count}", metric.name)
}

// Writes a histogram, whose numbers are divided by the scale: 1, or a million.
fn write_histogram(
    text: &mut String,
    metric: Metric,
    counts: &HistogramCounts,
    scale: u64,
) -> Result<(), AllocError> {
    let name = metric.name;
    write_head(text, metric)?;
    let mut total: u64 = 0;
    for (bound, count) in counts.bounds.iter().zip(counts.counts.iter()) {
        total = total.saturating_add(*count);
        write!(text, "{name}_bucket{{le=\"")?;
        write_scaled(text, *bound, scale)?;
        writeln!(text, "\"}} {total}")?;
    }
    total = total.saturating_add(counts.above);
    writeln!(text, "{name}_bucket{{le=\"+Inf\"}} {total}")?;
    write!(text, "{name}_sum ")?;
    write_scaled(text, counts.sum, scale)?;
    writeln!(text, "")?;
    writeln!(text, "{name}_count {total}")
}

// Writes a number divided by the scale: 1, or a million.
fn write_scaled(text: &mut String, number: u64, scale: u64) -> Result<(), AllocError> {
    if scale != SECOND_MICROS {
        return write!(text, "{number}");
    }
    let micros = number % SECOND_MICROS;
    write!(text, "{}.{micros:06}", number / SECOND_MICROS)
}
