//! Pumps: sending the entries that wait in a session's queues.
ghost use Rattle.std.specs.Prelude.{◌≡◌, ⊤, ℕ, IfOk, OnOk, length, map, string_bytes};
ghost use Rattle.std.specs.Result.{is_err};
ghost use Rattle.sdb_oplog.specs.Keys.{plain_key};
ghost use Rattle.sdb_submit.specs.PassModel.{IsNextPass};
ghost use Rattle.sdb_session.specs.PumpModel.{is_own_entry, entries_of_others, only_sub_at, CloseAllCalls, PumpOutcome};
ghost use Rattle.sdb_session.specs.ProjectionModel.{projection_of_key};
ghost use Rattle.sdb_session.specs.View.{EndsOnError, WroteAnswers, plain_session, pumped_count};
ghost use Rattle.sdb_session.specs.Responses.{entry_answers};
ghost use Rattle.sdb_wire.specs.Answers.{answer_text};

use crate::answer_sink::AnswerSink;
use crate::answers::write_entry;
use crate::session::{Ended, Session};
use crate::subscriptions::take_entries;
use sdb_oplog::{Entry, Key};
use sdb_projection::Table;
use sdb_submit::Desk;
use std::alloc::AllocError;

/// The number of entries read, and the texts to send.
#[derive(Drop)]
pub struct Pumped {
    pub taken: u128,
    pub texts: Vec<String>,
}

impl Session {
    /// Returns the texts of entries that wait in the session's queues; see [`Session::pump_to`].
    ///
    /// # Errors
    ///
    /// [`Ended`] if an allocation fails or the session had ended.
    ///
    /// ```
    /// // Another session has stored an operation in a document that this one is subscribed to.
    /// let pumped = session.pump(&Solo, &mut shard, &table, 64)?;
    /// assert_eq!(rt; (pumped.taken, pumped.texts.len()), (1, 1));
    /// ```
    pub fn pump<D: Desk>(
        &mut self,
        desk: &D,
        pass: &mut D::Pass,
        table: &Table,
        max: u64,
    ) -> Result<Pumped, Ended>
        requires accepted { D.accepts desk.now pass.old }
        ensures pass { IsNextPass D.accepts D.pass_number desk.now pass.old pass.new }
        ensures session { plain_session self.new ≡ plain_session self.old }
        ensures ended { EndsOnError (is_err result) self.old pass.old self.new pass.new }
        ensures pumped { PumpOutcome (D.step desk.now) max table.now (D.pass_number desk.now pass.old)
            (plain_session self.old) pass.old (pumped_count result)
            (λ answers. IfOk result (λ r. map string_bytes r.texts.items ≡ map answer_text answers)) pass.new }
    {
        let mut texts = Vec::new(self.alloc);
        match self.pump_to(desk, pass, table, max, &mut texts) {
            Ok(taken) => Ok(Pumped { taken, texts }),
            Err(ended) => Err(ended),
        }
    }

    /// Reads at most `max` entries from each queue, in the order of the subscriptions, and writes
    /// those that aren't the session's own. An entry is its own if this pass submitted it with the
    /// session's source, through the subscription's collection name. So an entry that an earlier
    /// connection of the source submitted is written. Returns the number of entries read.
    ///
    /// It doesn't allocate if no entry waits.
    ///
    /// # Errors
    ///
    /// [`Ended`] if an allocation fails or the session had ended. After a failed allocation the first
    /// queues were read, and `out` is unspecified.
    pub fn pump_to<D: Desk, O: AnswerSink>(
        &mut self,
        desk: &D,
        pass: &mut D::Pass,
        table: &Table,
        max: u64,
        out: &mut O,
    ) -> Result<u128, Ended>
        requires accepted { D.accepts desk.now pass.old }
        ensures pass { IsNextPass D.accepts D.pass_number desk.now pass.old pass.new }
        ensures session { plain_session self.new ≡ plain_session self.old }
        ensures ended { EndsOnError (is_err result) self.old pass.old self.new pass.new }
        ensures pumped { PumpOutcome (D.step desk.now) max table.now (D.pass_number desk.now pass.old)
            (plain_session self.old) pass.old result
            (WroteAnswers O.items (O.contents out.old) (O.contents out.new)) pass.new }
    {
        if let Some(ended) = self.ended {
            return Err(ended);
        }
        match self.take_from_each(desk, pass, table, max, out) {
            Ok(taken) => Ok(taken),
            Err(error) => Err(self.end_with_error(error)),
        }
    }

    /// Reads at most `max` entries from the queue of one subscription, and writes those that aren't the
    /// session's own, as [`Session::pump_to`] does from each queue. `position` counts the subscriptions
    /// from 0 in their order. Returns the number of entries read, 0 if there is no such subscription.
    ///
    /// # Errors
    ///
    /// [`Ended`] if an allocation fails or the session had ended. After a failed allocation the queue
    /// may have been read, and `out` is unspecified.
    pub fn pump_one_to<D: Desk, O: AnswerSink>(
        &mut self,
        desk: &D,
        pass: &mut D::Pass,
        table: &Table,
        position: usize,
        max: u64,
        out: &mut O,
    ) -> Result<u128, Ended>
        requires accepted { D.accepts desk.now pass.old }
        ensures pass { IsNextPass D.accepts D.pass_number desk.now pass.old pass.new }
        ensures session { plain_session self.new ≡ plain_session self.old }
        ensures ended { EndsOnError (is_err result) self.old pass.old self.new pass.new }
        ensures pumped { PumpOutcome (D.step desk.now) max table.now (D.pass_number desk.now pass.old)
            (only_sub_at position (plain_session self.old)) pass.old result
            (WroteAnswers O.items (O.contents out.old) (O.contents out.new)) pass.new }
    {
        let taken = match self.ended {
            Some(ended) => return Err(ended),
            None => self.take_from_one(desk, pass, table, position, max, out),
        };
        match taken {
            Ok(taken) => Ok(taken),
            Err(error) => Err(self.end_with_error(error)),
        }
    }

    fn take_from_one<D: Desk, O: AnswerSink>(
        &self,
        desk: &D,
        pass: &mut D::Pass,
        table: &Table,
        position: usize,
        max: u64,
        out: &mut O,
    ) -> Result<u128, AllocError>
        requires accepted { D.accepts desk.now pass.old }
        ensures pass { IsNextPass D.accepts D.pass_number desk.now pass.old pass.new }
        ensures pumped { PumpOutcome (D.step desk.now) max table.now (D.pass_number desk.now pass.old)
            (only_sub_at position (plain_session self.now)) pass.old result
            (WroteAnswers O.items (O.contents out.old) (O.contents out.new)) pass.new }
    {
        let by = desk.by(pass);
        let Some((key, queue)) = self.subscriptions.get_index(position) else {
            return Ok(0);
        };
        let entries = take_entries(self.alloc, desk, pass, &queue.base, queue.id, max)?;
        self.write_entries_of_others(by, table, key, entries.as_slice(), out)?;
        Ok(entries.len() as u128)
    }

    fn take_from_each<D: Desk, O: AnswerSink>(
        &self,
        desk: &D,
        pass: &mut D::Pass,
        table: &Table,
        max: u64,
        out: &mut O,
    ) -> Result<u128, AllocError>
        requires accepted { D.accepts desk.now pass.old }
        ensures pass { IsNextPass D.accepts D.pass_number desk.now pass.old pass.new }
        ensures pumped { PumpOutcome (D.step desk.now) max table.now (D.pass_number desk.now pass.old)
            (plain_session self.now) pass.old result
            (WroteAnswers O.items (O.contents out.old) (O.contents out.new)) pass.new }
    {
        let by = desk.by(pass);
        let mut taken: u128 = 0;
        for (key, queue) in self.subscriptions.iter() {
            let entries = take_entries(self.alloc, desk, pass, &queue.base, queue.id, max)?;
            taken += entries.len() as u128;
            self.write_entries_of_others(by, table, key, entries.as_slice(), out)?;
        }
        Ok(taken)
    }

    // Writes the entries that aren't the session's own.
    fn write_entries_of_others<O: AnswerSink>(
        &self,
        by: u64,
        table: &Table,
        key: &Key,
        entries: &[Entry],
        out: &mut O,
    ) -> Result<(), AllocError>
        ensures { OnOk result (WroteAnswers O.items (O.contents out.old) (O.contents out.new)
            (entry_answers (projection_of_key table.now (plain_key key.now)) (plain_key key.now)
            (entries_of_others by (plain_session self.now).source (plain_key key.now) entries.now))) }
    {
        let projection = table.find(key.collection.as_str());
        for entry in entries {
            if !self.is_own(by, key, entry) {
                write_entry(self.alloc, projection, key, entry, out)?;
            }
        }
        Ok(())
    }

    // Returns whether the session of this pass submitted the entry through this collection name.
    fn is_own(&self, by: u64, key: &Key, entry: &Entry) -> bool
        ensures { result ≡ is_own_entry by (plain_session self.now).source (plain_key key.now) entry.now }
    {
        let arrived = entry.arrived();
        arrived.by() == by
            && arrived.src() == self.source.as_str()
            && arrived.via() == key.collection.as_str()
    }

    /// Ends the session by closing its queues. It doesn't allocate.
    pub fn end<D: Desk>(self, desk: &D, pass: &mut D::Pass)
        requires accepted { D.accepts desk.now pass.old }
        ensures pass { IsNextPass D.accepts D.pass_number desk.now pass.old pass.new }
        ensures closed { CloseAllCalls (D.step desk.now) (plain_session self).subs pass.old pass.new }
    {
        for (_, queue) in self.subscriptions.iter() {
            desk.unsubscribe(pass, &queue.base, queue.id);
        }
    }
}
