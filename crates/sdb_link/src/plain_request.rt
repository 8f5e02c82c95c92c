//! Plain HTTP requests: those that are no WebSocket handshake.
use crate::metrics::Tally;
use crate::metrics_page::metrics_text;
use httparse::{EMPTY_HEADER, Request, Status};
use sdb_progress::{SaveOutage, SaveStatus};
use std::alloc::{AllocError, Global};
use std::net::IpAddr;

/// The server's version.
pub const VERSION: &str = "0.1.0";

// Maximum number of header fields of a request that is read here.
const FIELD_LIMIT: usize = 128;

// The head and the body of the answer to a request for another page.
const UPGRADE_REQUIRED: &str = "HTTP/1.1 426 Upgrade Required\r\n\
    Upgrade: websocket\r\n\
    Connection: Upgrade, close\r\n\
    Sec-WebSocket-Version: 13\r\n\
    Content-Type: text/plain\r\n\
    Content-Length: 75\r\n\
    \r\n";

const UPGRADE_TEXT: &str =
    "This is Navirotsohy, a ShareDB server. Its clients connect by a WebSocket.\n";

/// The page that a plain request asks for.
#[derive(Clone, Copy, PartialEq, Eq, Drop)]
pub enum Page {
    /// `/health`: the state of the server as JSON.
    Health,
    /// `/metrics`: the numbers of the server in Prometheus' text format, version 0.0.4.
    Metrics,
    /// Any other request.
    Other,
}

/// A plain request.
#[derive(Clone, Copy, PartialEq, Eq, Drop)]
pub struct PlainRequest {
    pub page: Page,
    /// Whether the answer has no body, as that to a `HEAD`.
    pub is_head: bool,
}

/// The state of the server at a request.
#[derive(Clone, Copy, Drop)]
pub struct ServerStatus {
    /// Number of clients served.
    pub clients: usize,
    /// Number of stored documents.
    pub documents: u64,
    /// Number of stored entries.
    pub entries: u64,
    /// The second since the start of 1970 in which the server began to listen.
    pub start: u64,
    /// Whole seconds since then.
    pub uptime: u64,
    /// The resident memory of the process in bytes, if the system tells it.
    pub resident: Option<u64>,
    /// The resident memory in bytes above which no operation is stored, if there is such a limit.
    pub memory_limit: Option<u64>,
    /// Whether no operation is stored, since the memory is above its limit.
    pub is_full: bool,
    /// What the server has done.
    pub tally: Tally,
    /// What rounds have done, if operations are saved.
    pub saving: Option<SaveStatus>,
}

impl ServerStatus {
    // Returns the outage of saving, if rounds fail.
    fn outage(&self) -> Option<SaveOutage> {
        self.saving?.outage
    }

    /// Returns the number of stored entries that are saved, or of all if none is.
    pub fn saved_entries(&self) -> u64 {
        match self.saving {
            Some(saving) => saving.entries.min(self.entries),
            None => self.entries,
        }
    }
}

/// Returns the page that a `GET` or a `HEAD` asks for. The query of its path is ignored.
pub fn plain_request_of(request: &[u8]) -> PlainRequest {
    let mut fields = [EMPTY_HEADER; FIELD_LIMIT];
    let mut head = Request::new(&mut fields);
    let is_complete = matches!(head.parse(request), Ok(Status::Complete(_)));
    let is_head = is_complete && head.method == Some("HEAD");
    let page = match (head.method, head.path) {
        (Some("GET" | "HEAD"), Some(path)) if is_complete => page_at(path),
        _ => Page::Other,
    };
    PlainRequest { page, is_head }
}

// Returns the page at a path, which may have a query.
fn page_at(path: &str) -> Page {
    let path = match path.split_once('?') {
        Some((path, _)) => path,
        None => path,
    };
    match path {
        "/health" => Page::Health,
        "/metrics" => Page::Metrics,
        _ => Page::Other,
    }
}

/// Returns the address that the proxy nearest to the server has written into a request: the last
/// one of the last `X-Forwarded-For`. Returns `None` if there is none.
pub fn forwarded_address(request: &[u8]) -> Option<IpAddr> {
    let mut fields = [EMPTY_HEADER; FIELD_LIMIT];
    let mut head = Request::new(&mut fields);
    head.parse(request).ok()?;
    let mut forwarded = None;
    for field in head.headers.iter() {
        if field.name.eq_ignore_ascii_case("x-forwarded-for") {
            forwarded = Some(field.value);
        }
    }
    last_address(forwarded?)
}

// Returns the last address of a list.
fn last_address(list: &[u8]) -> Option<IpAddr> {
    let text = str::from_utf8(list).ok()?;
    text.rsplit(',').next()?.trim().parse().ok()
}

/// Appends the answer to a plain request.
pub fn write_page(
    alloc: Global,
    request: PlainRequest,
    status: &ServerStatus,
    output: &mut Vec<u8>,
) -> Result<(), AllocError> {
    let (media_type, body) = match request.page {
        Page::Health => ("application/json", health_text(alloc, status)?),
        Page::Metrics => ("text/plain; version=0.0.4", metrics_text(alloc, status)?),
        Page::Other => {
            output.extend_from_slice(UPGRADE_REQUIRED.as_bytes())?;
            return write_body(request, UPGRADE_TEXT, output);
        }
    };
    let code = match request.page {
        Page::Health if status.outage().is_some() => "503 Service Unavailable",
        _ => "200 OK",
    };
    let head = format!(in alloc;
        "HTTP/1.1 {code}\r\nContent-Type: {media_type}\r\nContent-Length: {}\r\nConnection: close\r\n\r\n",
        body.len()
    )?;
    output.extend_from_slice(head.as_bytes())?;
    write_body(request, body.as_str(), output)
}

// Appends the body, unless the request is a `HEAD`.
fn write_body(request: PlainRequest, body: &str, output: &mut Vec<u8>) -> Result<(), AllocError> {
    if request.is_head {
        return Ok(());
    }
    output.extend_from_slice(body.as_bytes())
}

fn health_text(alloc: Global, status: &ServerStatus) -> Result<String, AllocError> {
    let mut text = String::new(alloc);
    let entries = status.saved_entries();
    let ServerStatus {
        clients,
        documents,
        uptime,
        ..
    } = status;
    write!(
        &mut text,
        "{{\"version\":\"{VERSION}\",\"clients\":{clients},\"documents\":{documents},\"entries\":{entries},\"uptime\":{uptime}"
    )?;
    write_saving(&mut text, status)?;
    if status.memory_limit.is_some() {
        write!(&mut text, ",\"storing\":{}", !status.is_full)?;
    }
    writeln!(&mut text, "}}")?;
    Ok(text)
}

// Writes whether operations are saved, and if not, why and since when.
fn write_saving(text: &mut String, status: &ServerStatus) -> Result<(), AllocError> {
    match status.outage() {
        Some(SaveOutage { failure, since }) => {
            write!(
                text,
                ",\"saving\":false,\"reason\":\"{failure}\",\"since\":{since}"
            )
        }
        None if status.saving.is_some() => write!(text, ",\"saving\":true"),
        None => Ok(()),
    }
}
