//! Submissions and entries.
ghost use Rattle.std.specs.Arc.{arc_value};
ghost use Rattle.std.specs.Prelude.{◌≡◌, ◌<◌, IfOk, IsTrue, OnErr, length, string_bytes, unwrap_or};

use crate::content::Content;
use crate::moment::Moment;
use std::alloc::{AllocError, Global};
use std::marker::Model;
use std::sync::Arc;

// The fields of a submission.
#[derive(Drop)]
struct Fields {
    src: Arc<String>,
    seq: u64,
    version: Option<u64>,
    content: Content,
    via: Arc<String>,
    by: u64,
}

/// A session's submission to one document. It is immutable, and a clone is a pointer.
///
/// ```
/// let (src, via) = (String::from_str(alloc, "x")?, String::from_str(alloc, "b")?);
/// let delete = Content::delete();
/// let submission = Submission::new(alloc, src, 1, None, delete, via, 0)?;
/// assert_eq!(rt; (submission.src(), submission.seq()), ("x", 1));
/// ```
#[derive(Drop)]
pub struct Submission {
    fields: Arc<Fields>,
}

impl Model for Submission {
    ghost use Rattle.std.specs.Prelude.{string_bytes};
    ghost use Rattle.sdb_oplog.specs.Plain.{PlainSubmission};
    ghost use Rattle.sdb_oplog.specs.Coding.{submission_code};

    ghost Value = { PlainSubmission };

    ghost coded = { submission_code };

    ghost use Rattle.std.specs.Arc.{arc_value};

    ghost view = { λ s. record {
      src = string_bytes (arc_value s.fields.value.src);
      seq = s.fields.value.seq;
      version = s.fields.value.version;
      content = s.fields.value.content;
      via = string_bytes (arc_value s.fields.value.via);
      by = s.fields.value.by;
    } };
}

impl Submission {
    /// Creates a submission of a source with its seq, made at `version`, or at the version of its
    /// decision if that is `None`. `via` is the collection name through which it came, `by` the
    /// pass number.
    ///
    /// # Errors
    ///
    /// [`AllocError`] if an allocation fails.
    pub fn new(
        alloc: Global,
        src: String,
        seq: u64,
        version: Option<u64>,
        content: Content,
        via: String,
        by: u64,
    ) -> Result<Submission, AllocError>
        ensures { IfOk result (λ s. s ≡ record {
          src = string_bytes src;
          seq = seq;
          version = version;
          content = content;
          via = string_bytes via;
          by = by;
        }) }
    {
        let src = Arc::new(alloc, src)?;
        let via = Arc::new(alloc, via)?;
        Submission::with_names(alloc, src, seq, version, content, via, by)
    }

    /// Creates a submission as [`Submission::new`], with names that other submissions may share.
    ///
    /// # Errors
    ///
    /// [`AllocError`] if an allocation fails.
    pub fn with_names(
        alloc: Global,
        src: Arc<String>,
        seq: u64,
        version: Option<u64>,
        content: Content,
        via: Arc<String>,
        by: u64,
    ) -> Result<Submission, AllocError>
        ensures { IfOk result (λ s. s ≡ record {
          src = string_bytes (arc_value src);
          seq = seq;
          version = version;
          content = content;
          via = string_bytes (arc_value via);
          by = by;
        }) }
    {
        let fields = Fields {
            src,
            seq,
            version,
            content,
            via,
            by,
        };
        Ok(Submission {
            fields: Arc::new(alloc, fields)?,
        })
    }

    /// Returns the source.
    pub fn src(&self) -> &str
        ensures { result.now ≡ self.now.src }
    {
        self.fields.src.as_str()
    }

    /// Returns the number that the source gave it.
    pub fn seq(&self) -> u64
        ensures { result ≡ self.now.seq }
    {
        self.fields.seq
    }

    /// Returns the version at which it was made.
    pub fn version(&self) -> Option<u64>
        ensures { result ≡ self.now.version }
    {
        self.fields.version
    }

    /// Returns the content.
    pub fn content(&self) -> &Content
        ensures { result.now ≡ self.now.content }
    {
        &self.fields.content
    }

    /// Returns the collection name through which it came.
    pub fn via(&self) -> &str
        ensures { result.now ≡ self.now.via }
    {
        self.fields.via.as_str()
    }

    /// Returns the pass number.
    pub fn by(&self) -> u64
        ensures { result ≡ self.now.by }
    {
        self.fields.by
    }

    /// Clones the submission. It doesn't allocate.
    ///
    /// # Errors
    ///
    /// [`AllocError`] if there are 2^63 clones already.
    pub fn try_clone(&self) -> Result<Submission, AllocError>
        ensures { IfOk result (λ s. s ≡ self.now) }
    {
        Ok(Submission {
            fields: Arc::try_clone(&self.fields)?,
        })
    }
}

/// An entry of a log: its version, its moment, the content that was applied, and its submission,
/// with source, seq, `via` and `by`.
///
/// ```
/// let entry = Entry::new(0, Moment::zero(), None, submission);
/// assert_eq!(rt; (entry.version(), entry.arrived().src()), (0, "x"));
/// ```
#[derive(Drop)]
pub struct Entry {
    version: u64,
    moment: Moment,
    // `None` if it is the submitted content.
    content: Option<Content>,
    arrived: Submission,
}

impl Model for Entry {
    ghost use Rattle.std.specs.Prelude.{unwrap_or};
    ghost use Rattle.sdb_oplog.specs.Plain.{PlainEntry};
    ghost use Rattle.sdb_oplog.specs.Coding.{entry_code};

    ghost Value = { PlainEntry };

    ghost coded = { entry_code };

    ghost view = { λ e. record {
      version = e.version;
      moment = e.moment;
      content = unwrap_or e.content e.arrived.content;
      arrived = e.arrived;
    } };
}

impl Entry {
    /// Creates an entry at a version and a moment. Without a content it has the submitted one.
    pub fn new(version: u64, moment: Moment, content: Option<Content>, arrived: Submission) -> Entry
        ensures { result ≡ record {
          version = version;
          moment = moment;
          content = unwrap_or content arrived.content;
          arrived = arrived;
        } }
    {
        Entry {
            version,
            moment,
            content,
            arrived,
        }
    }

    /// Returns the version at which it was applied.
    pub fn version(&self) -> u64
        ensures { result ≡ self.now.version }
    {
        self.version
    }

    /// Returns the moment at which it was stored. Moments never decrease in a log.
    pub fn moment(&self) -> Moment
        ensures { result ≡ self.now.moment }
    {
        self.moment
    }

    /// Returns the content that was applied.
    pub fn content(&self) -> &Content
        ensures { result.now ≡ self.now.content }
    {
        match &self.content {
            Some(content) => content,
            None => self.arrived.content(),
        }
    }

    /// Returns `true` only if the content is the submitted one.
    pub(crate) fn has_arrived_content(&self) -> bool
        ensures { IsTrue result → self.now.content ≡ self.now.arrived.content }
    {
        self.content.is_none()
    }

    /// Returns the submission.
    pub fn arrived(&self) -> &Submission
        ensures { result.now ≡ self.now.arrived }
    {
        &self.arrived
    }

    /// Clones the entry, sharing content and submission. It doesn't allocate.
    ///
    /// # Errors
    ///
    /// [`AllocError`] if there are 2^63 clones already.
    pub fn try_clone(&self) -> Result<Entry, AllocError>
        ensures { IfOk result (λ e. e ≡ self.now) }
    {
        let content = match &self.content {
            Some(content) => Some(content.try_clone()?),
            None => None,
        };
        let arrived = self.arrived.try_clone()?;
        Ok(Entry::new(self.version, self.moment, content, arrived))
    }
}

/// Clones the entries in order. For no entries it doesn't allocate.
///
/// # Errors
///
/// [`AllocError`] if an allocation fails.
pub fn clone_entries(alloc: Global, entries: &[Entry]) -> Result<Vec<Entry>, AllocError>
    ensures copies { IfOk result (λ v. v.items ≡ entries.now) }
    ensures memory { OnErr result (0 < length entries.now) }
{
    if entries.is_empty() {
        return Ok(Vec::new(alloc));
    }
    let mut copies = Vec::with_capacity(alloc, entries.len())?;
    for entry in entries {
        copies.push(entry.try_clone()?)?;
    }
    Ok(copies)
}
