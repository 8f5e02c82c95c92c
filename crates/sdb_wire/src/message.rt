//! Messages, their echo in errors, and answers.
use sdb_json::JsonTree;
use sdb_oplog::{Code, Content, Entry, Key, Moment};
use sdb_value::Json;

/// Maximum length in bytes of a message: 1,048,576.
pub const MESSAGE_LIMIT: usize = 1_048_576;

/// Maximum length in bytes of a name: 200. The minimum length is 1.
pub const NAME_LIMIT: usize = 200;

// The URI of the type json0, as in ShareDB.
pub(crate) const TYPE: &str = "http://sharejs.org/types/JSONv0";

/// The value of a member that an error repeats.
#[derive(Drop)]
pub enum EchoValue {
    /// A text of 1 to 200 bytes.
    Text { text: String },
    /// An integer from 0 to 9007199254740991.
    Count { count: u64 },
}

/// The members of a message that an error repeats, each if it is an [`EchoValue`].
#[derive(Drop)]
pub struct Echo {
    pub a: Option<EchoValue>,
    pub c: Option<EchoValue>,
    pub d: Option<EchoValue>,
    pub id: Option<EchoValue>,
    pub seq: Option<EchoValue>,
    pub src: Option<EchoValue>,
}

/// A request of a client.
#[derive(Drop)]
pub enum Request {
    /// The client's source. Without an `id` the session keeps its own.
    Hello {
        id: Option<String>,
    },
    /// The current document, or the entries from a version on.
    Fetch {
        key: Key,
        version: Option<u64>,
    },
    /// A fetch, followed by each entry stored later.
    Subscribe {
        key: Key,
        version: Option<u64>,
    },
    /// The end of a subscription.
    Unsubscribe {
        key: Key,
    },
    /// A submission: its base version, seq, source and content. Without a source it has the
    /// session's.
    Submit {
        key: Key,
        version: Option<u64>,
        seq: u64,
        src: Option<String>,
        content: Content,
    },
    /// The document at a version, or the current one. The answer repeats `id`.
    Snapshot {
        key: Key,
        version: Option<u64>,
        id: u64,
    },
    /// The document at a moment, or the current one. The answer repeats `id`.
    SnapshotAtTime {
        key: Key,
        moment: Option<Moment>,
        id: u64,
    },
}

/// The error of a message that is no request, with its echo. E10 is an allocation failure.
#[derive(Drop)]
pub struct BadMessage {
    pub echo: Echo,
    pub code: Code,
}

/// A parsed message: its request or the code that refuses it, and its JSON value if it has one. An
/// error repeats some of its members ([`echo_of`](crate::echo_of)).
#[derive(Drop)]
pub struct Message<'a> {
    pub json: Option<JsonTree<'a>>,
    pub request: Result<Request, Code>,
}

/// The request that a document answers, with the members that the answer repeats.
#[derive(Drop)]
pub enum DocumentRequest<'a> {
    /// A fetch of this key.
    Fetch { key: &'a Key },
    /// A fetch by version.
    Snapshot { id: u64 },
    /// A fetch by time.
    SnapshotAtTime { id: u64 },
}

/// An answer. Each is one text.
#[derive(Drop)]
pub enum Answer<'a> {
    /// The opening message with the session's source.
    Init {
        src: &'a str,
    },
    /// The session's source, in reply to a hello.
    HelloAck {
        src: &'a str,
    },
    /// A version and the document at it, in reply to this request.
    Document {
        request: DocumentRequest<'a>,
        version: u64,
        document: Option<&'a Json>,
    },
    /// The end of a listing of entries.
    ListEnd {
        key: &'a Key,
    },
    /// The current version and document, for a subscriber.
    Subscribed {
        key: &'a Key,
        version: u64,
        document: Option<&'a Json>,
    },
    /// The end of the listing of entries, for a subscriber.
    CaughtUp {
        key: &'a Key,
    },
    /// The end of a subscription.
    Unsubscribed {
        key: &'a Key,
    },
    /// An operation message. Its content is the entry's, or a part of it through a projection.
    OpMessage {
        key: &'a Key,
        entry: &'a Entry,
        content: &'a Content,
    },
    /// The acknowledgement of a submission: its source, its seq and its version.
    Acknowledged {
        key: &'a Key,
        src: &'a str,
        seq: u64,
        version: u64,
    },
    /// The refusal of a message.
    Failed {
        echo: &'a Echo,
        code: Code,
    },
}
