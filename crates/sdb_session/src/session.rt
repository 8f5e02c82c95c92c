//! Sessions.
ghost use Rattle.std.specs.Prelude.{◌≡◌, ◌∷◌, [], true, false, IfOk, OnOk, length, map, string_bytes};
ghost use Rattle.std.specs.Result.{is_err, is_ok};
ghost use Rattle.sdb_oplog.specs.declared.codes.Code.TheVariants.{E1};
ghost use Rattle.sdb_submit.specs.PassModel.{IsNextPass};
ghost use Rattle.sdb_session.specs.View.{EndsOnError, WroteAnswers, has_ended, plain_session};
ghost use Rattle.sdb_session.specs.Listing.{TextPart};
ghost use Rattle.sdb_session.specs.ProgressView.{is_request_of, progress_result};
ghost use Rattle.sdb_session.specs.Responses.{TextOutcome, TextInterrupted, OutcomeOrInterrupted};
ghost use Rattle.sdb_wire.specs.Answers.{answer_text, init, failed};
ghost use Rattle.sdb_wire.specs.Wire.{empty_echo, parse_message};

use crate::answer_sink::AnswerSink;
use crate::answers::{write_answer, write_refusal};
use crate::context::Context;
use crate::interner::NameInterner;
use crate::listing::Listing;
use crate::policy::Policy;
use crate::subscriptions::Subscription;
use indexmap::IndexMap;
use sdb_json::Scratch;
use sdb_oplog::{Code, Key, Moment, PathInterner};
use sdb_submit::Desk;
use sdb_wire::{Answer, Message, empty_echo, parse_message, reply_text};
use std::alloc::{AllocError, Global};

/// Maximum number of subscriptions of one session.
pub const SUBSCRIPTION_LIMIT: usize = 64;

/// The state of a session that failed to allocate for a message, a name, a subscription or an answer.
#[derive(Clone, Copy, Drop)]
pub struct Ended {
    error: AllocError,
}

/// What a session has done with a message.
#[derive(Drop)]
pub enum Progress {
    /// All answers are written.
    Done {
        /// Whether the message is a request.
        is_request: bool,
    },
    /// The first answers to a request are written, and this listing is left.
    Listing(Listing),
}

impl From<Ended> for AllocError {
    fn from(ended: Ended) -> AllocError {
        ended.error
    }
}

/// A session: its source, and its subscriptions in the order in which they were made. It interns at
/// most 16 names and one path for its submissions.
#[derive(Drop)]
pub struct Session {
    pub(crate) alloc: Global,
    pub(crate) source: String,
    pub(crate) subscriptions: IndexMap<Key, Subscription>,
    pub(crate) names: NameInterner,
    pub(crate) last_path: PathInterner,
    pub(crate) ended: Option<Ended>,
}

impl Session {
    /// Creates a session with a source and without subscriptions. The source has 1 to 200 bytes; a
    /// client may replace it.
    ///
    /// ```
    /// let session = Session::new(alloc, String::from_str(alloc, "s1")?);
    /// assert!(rt; session.opening()?.as_str().starts_with(r#"{"a":"init","id":"s1""#));
    /// ```
    pub fn new(alloc: Global, id: String) -> Session
        ensures source { (plain_session result).source ≡ string_bytes id }
        ensures subs { (plain_session result).subs ≡ [] }
        ensures ended { has_ended result ≡ false }
    {
        Session {
            alloc,
            source: id,
            subscriptions: IndexMap::new(alloc),
            names: NameInterner::new(alloc),
            last_path: PathInterner::new(),
            ended: None,
        }
    }

    /// Returns the number of subscriptions.
    pub fn subscription_count(&self) -> usize
        ensures { result ≡ length (plain_session self.now).subs }
    {
        self.subscriptions.len()
    }

    /// Returns the opening message, which contains the source.
    ///
    /// # Errors
    ///
    /// [`AllocError`] if an allocation fails.
    pub fn opening(&self) -> Result<String, AllocError>
        ensures { IfOk result (λ text. string_bytes text ≡ answer_text (init (plain_session self.now).source)) }
    {
        reply_text(
            self.alloc,
            &Answer::Init {
                src: self.source.as_str(),
            },
        )
    }

    /// Writes the opening message.
    ///
    /// # Errors
    ///
    /// [`AllocError`] if an allocation fails. `out` is then unspecified.
    pub fn opening_to<O: AnswerSink>(&self, out: &mut O) -> Result<(), AllocError>
        ensures { OnOk result (WroteAnswers O.items (O.contents out.old) (O.contents out.new)
            (init (plain_session self.now).source ∷ [])) }
    {
        write_answer(
            self.alloc,
            &Answer::Init {
                src: self.source.as_str(),
            },
            out,
        )
    }

    /// Returns the answers to one message received at `now`, in order; see [`Session::handle_to`].
    ///
    /// # Errors
    ///
    /// [`Ended`] if an allocation fails outside the desk or the session had ended.
    ///
    /// ```
    /// let (mut shard, table) = (Shard::new(alloc), Table::new(alloc));
    /// let text = r#"{"a":"f","c":"b","d":"1"}"#;
    /// let texts = session.handle(&Solo, &mut shard, &table, text, Moment::zero())?;
    /// let answer = r#"{"a":"f","c":"b","d":"1","data":{"type":null,"v":0}}"#;
    /// assert!(rt; texts.iter().all(|text| text.as_str() == answer));
    /// ```
    pub fn handle<D: Desk, P: Policy>(
        &mut self,
        desk: &D,
        pass: &mut D::Pass,
        policy: &P,
        text: &str,
        now: Moment,
    ) -> Result<Vec<String>, Ended>
        requires accepted { D.accepts desk.now pass.old }
        ensures pass { IsNextPass D.accepts D.pass_number desk.now pass.old pass.new }
        ensures ended { EndsOnError (is_err result) self.old pass.old self.new pass.new }
        ensures outcome { OutcomeOrInterrupted result
            (TextOutcome (D.step desk.now) text.now (P.plain_policy policy.now)
            (D.pass_number desk.now pass.old) now (plain_session self.old) pass.old)
            (TextInterrupted (D.step desk.now) text.now (P.plain_policy policy.now).projections)
            (λ answers. IfOk result (λ texts. map string_bytes texts.items ≡ map answer_text answers))
            (plain_session self.old) pass.old (plain_session self.new) pass.new }
    {
        let mut texts = Vec::new(self.alloc);
        match self.handle_to(desk, pass, policy, text, now, &mut texts) {
            Ok(_) => Ok(texts),
            Err(ended) => Err(ended),
        }
    }

    /// Writes the answers to one message, in order, and returns whether it is a request. An
    /// operation is stored with the time `now`.
    ///
    /// If an allocation of a desk call fails, the message is answered E10 and changes no log. A
    /// queue number may be used up.
    ///
    /// # Errors
    ///
    /// [`Ended`] if an allocation fails for a parsed message, a name, a subscription or an answer, or
    /// if the session had ended. Each later call fails too. Stored operations stay stored, and `out`
    /// is unspecified.
    pub fn handle_to<D: Desk, P: Policy, O: AnswerSink>(
        &mut self,
        desk: &D,
        pass: &mut D::Pass,
        policy: &P,
        text: &str,
        now: Moment,
        out: &mut O,
    ) -> Result<bool, Ended>
        requires accepted { D.accepts desk.now pass.old }
        ensures pass { IsNextPass D.accepts D.pass_number desk.now pass.old pass.new }
        ensures request { IfOk result (λ b. b ≡ is_ok (parse_message text.now).request) }
        ensures ended { EndsOnError (is_err result) self.old pass.old self.new pass.new }
        // After an error nothing was called, or a listing was interrupted, or all calls were made
        // and not all answers were written. A queue opened for the message is then closed again.
        ensures outcome { OutcomeOrInterrupted result
            (TextOutcome (D.step desk.now) text.now (P.plain_policy policy.now)
            (D.pass_number desk.now pass.old) now (plain_session self.old) pass.old)
            (TextInterrupted (D.step desk.now) text.now (P.plain_policy policy.now).projections)
            (WroteAnswers O.items (O.contents out.old) (O.contents out.new))
            (plain_session self.old) pass.old (plain_session self.new) pass.new }
    {
        let mut rest = match self.begin_to(desk, pass, policy, text, now, out)? {
            Progress::Done { is_request } => return Ok(is_request),
            Progress::Listing(listing) => Some(listing),
        };
        while let Some(listing) = rest {
            rest = self.continue_to(desk, pass, policy.table(), listing, out)?;
        }
        Ok(true)
    }

    /// Writes the answers to one message as [`Session::handle_to`] does, except that a listing is
    /// left after its first 64 entries. [`Session::continue_to`] writes the rest; until then the
    /// session should neither handle another message nor be pumped.
    ///
    /// # Errors
    ///
    /// As [`Session::handle_to`].
    pub fn begin_to<D: Desk, P: Policy, O: AnswerSink>(
        &mut self,
        desk: &D,
        pass: &mut D::Pass,
        policy: &P,
        text: &str,
        now: Moment,
        out: &mut O,
    ) -> Result<Progress, Ended>
        requires accepted { D.accepts desk.now pass.old }
        ensures pass { IsNextPass D.accepts D.pass_number desk.now pass.old pass.new }
        ensures request { IfOk result (λ p. is_request_of p ≡ is_ok (parse_message text.now).request) }
        ensures ended { EndsOnError (is_err result) self.old pass.old self.new pass.new }
        ensures outcome { TextPart (D.step desk.now) text.now (P.plain_policy policy.now)
            (D.pass_number desk.now pass.old) now (plain_session self.old) pass.old (progress_result result)
            (WroteAnswers O.items (O.contents out.old) (O.contents out.new)) (plain_session self.new) pass.new }
    {
        if let Some(ended) = self.ended {
            return Err(ended);
        }
        match self.answer(desk, pass, policy, text, now, out) {
            Ok(progress) => Ok(progress),
            Err(error) => Err(self.end_with_error(error)),
        }
    }

    fn answer<'a, D: Desk, P: Policy, O: AnswerSink>(
        &mut self,
        desk: &'a D,
        pass: &mut D::Pass,
        policy: &'a P,
        text: &str,
        now: Moment,
        out: &mut O,
    ) -> Result<Progress, AllocError>
        requires accepted { D.accepts desk.now pass.old }
        ensures pass { IsNextPass D.accepts D.pass_number desk.now pass.old pass.new }
        ensures request { IfOk result (λ p. is_request_of p ≡ is_ok (parse_message text.now).request) }
        ensures ended_unchanged { self.new.ended ≡ self.old.ended }
        ensures outcome { TextPart (D.step desk.now) text.now (P.plain_policy policy.now)
            (D.pass_number desk.now pass.old) now (plain_session self.old) pass.old (progress_result result)
            (WroteAnswers O.items (O.contents out.old) (O.contents out.new)) (plain_session self.new) pass.new }
    {
        let mut scratch = Scratch::new(self.alloc);
        let Message { json, request } = parse_message(self.alloc, text, &mut scratch)?;
        let message = json.as_ref();
        let context = Context {
            alloc: self.alloc,
            desk,
            table: policy.table(),
            policy,
            message,
            moment: now,
        };
        let progress = match request {
            Ok(request) => match self.answer_request(&context, pass, request, out)? {
                Some(listing) => Progress::Listing(listing),
                None => Progress::Done { is_request: true },
            },
            Err(code) => {
                write_refusal(self.alloc, message, code, out)?;
                Progress::Done { is_request: false }
            }
        };
        Ok(progress)
    }

    /// Writes E1, with an empty echo, as the answer to a message that is too long, not UTF-8 or
    /// binary.
    ///
    /// # Errors
    ///
    /// [`Ended`] if an allocation fails or the session had ended.
    pub fn refuse_unreadable_to<O: AnswerSink>(&mut self, out: &mut O) -> Result<(), Ended>
        ensures session { plain_session self.new ≡ plain_session self.old }
        ensures ended { has_ended self.new ≡ is_err result }
        ensures stays_ended { has_ended self.old ≡ true → is_err result ≡ true }
        ensures output { OnOk result (WroteAnswers O.items (O.contents out.old) (O.contents out.new)
            (failed empty_echo E1 ∷ [])) }
    {
        if let Some(ended) = self.ended {
            return Err(ended);
        }
        let echo = empty_echo();
        let code = Code::E1;
        match write_answer(self.alloc, &Answer::Failed { echo: &echo, code }, out) {
            Ok(()) => Ok(()),
            Err(error) => Err(self.end_with_error(error)),
        }
    }

    // Ends the session. Each later call returns this error.
    pub(crate) fn end_with_error(&mut self, error: AllocError) -> Ended
        ensures session { plain_session self.new ≡ plain_session self.old }
        ensures ended { has_ended self.new ≡ true }
    {
        let ended = Ended { error };
        self.ended = Some(ended);
        ended
    }
}
