//! Laws of clients that share one document, as contracts of functions without effect.
ghost use Rattle.sdb_client_model.specs.Convergence.{RunsAreConsistent, ClientsConverge, ClientsAgree};
ghost use Rattle.sdb_client_model.specs.MadeEdits.{EditsStayMade, ClientsShowDocuments, NoneIsStuck, NoneRefused, EntriesAreProcessed};
ghost use Rattle.sdb_client_model.specs.MessageLaws.{MessageRunsAreClientRuns, MessageEditsAreStored, MessageClientsConverge, NoneIsMissing, ReceivedAreOfLog, MessagesAreOfLog, ConnectedClientsProcessAll, ConnectedClientsConverge};
ghost use Rattle.sdb_client_model.specs.SavingLaws.{SavingRunsAreClientRuns, EditsAreSaved, SavedClientsConverge, SavedEntriesStay, SentEntriesStay, NoneIsMissingWithFile, ClientsProcessAllWithFile, ClientsConvergeWithFile};
ghost use Rattle.sdb_client_model.specs.SmallMessageRuns.{SmallMessageRunsAreSmallRuns, NoSubmissionIsRefused, NextEntriesAreProcessed, ClientsCanConverge};
ghost use Rattle.sdb_client_model.specs.SmallSavingRuns.{SmallSavingRunsAreSmallRuns, NoSubmissionIsRefusedWithFile, NextEntriesAreProcessedWithFile, ClientsCanConvergeWithFile};
ghost use Rattle.sdb_client_model.specs.SmallRuns.{SmallRunsAreInRange, NextDecisionsAreInRange, NextEntriesAreInRange};
ghost use Rattle.sdb_client_model.specs.SessionMessages.{SubmissionsAreAnsweredAlike, SubscriptionsAreAnsweredAlike, EntriesArePumpedAlike};
ghost use Rattle.sdb_client_model.specs.StoredOnce.{AllEditsAreStored, NoneStoredTwice};

/// States convergence of the clients of a document after each run. A client that has processed all
/// entries and has no pending edit shows the server's document. Two clients without a pending edit
/// show the same document, if they have processed equally many entries.
///
/// Before that, a client's document is the log's document at its version: `invariant`. No edit has
/// to be made for what its client shows, and no sum or position has to stay in range. A refused edit
/// isn't stored, and an entry that a client can't process stays the next one for it.
pub fn clients_converge()
    ensures converge { ClientsConverge }
    ensures agree { ClientsAgree }
    ensures invariant { RunsAreConsistent }
{}

/// States that the edits of clients stay made while they are transformed, so each client shows a
/// document. The premises are that the start's document is well formed, each edit is made for what
/// its client shows, the log isn't full, and no sum and no position leaves the range.
pub fn edits_stay_made()
    ensures made { EditsStayMade }
    ensures shown { ClientsShowDocuments }
{}

/// States that the server refuses no edit of a client. It stores the edit, or it is a duplicate. The
/// premises are those of [`edits_stay_made`].
pub fn no_edit_is_refused()
    ensures { NoneRefused }
{}

/// States that a client can process the entry at its version. An acknowledgement doesn't change what
/// the client shows, and another one's edit is transformed and applied to it. So no client is stuck
/// before it has processed all entries and has no pending edit.
///
/// The premises are those of [`edits_stay_made`].
pub fn entries_are_processed()
    ensures entries { EntriesAreProcessed }
    ensures none_stuck { NoneIsStuck }
{}

/// States for each run that each edit of a client is stored once, in the order in which the client
/// made them, or is sent or in its queue. No two entries have the same source and seq.
pub fn edits_are_stored_once()
    ensures edits { AllEditsAreStored }
    ensures entries { NoneStoredTwice }
{}

/// States that each step of a small run is in range, and so are the next decision and the next entry.
/// So the premises about ranges of [`edits_stay_made`], [`no_edit_is_refused`] and
/// [`entries_are_processed`] follow from the run's edits and its start.
///
/// A run is small if what its edits add, what they insert and how many they are stay below 2^53, each
/// together with what the start holds. The start's document is well formed, and each edit is made for
/// what its client shows.
pub fn small_runs_are_in_range()
    ensures run { SmallRunsAreInRange }
    ensures decisions { NextDecisionsAreInRange }
    ensures entries { NextEntriesAreInRange }
{}

/// States for each run with messages that a run without messages makes the same edits, and leads
/// from the same log and clients to the same ones. So each law above that has no other premise
/// holds of it. Two of them are stated directly.
///
/// An acknowledgement may arrive before operations of smaller versions, and a connection may end
/// at any message. Not modelled: creates and deletes by a client, several documents, one source at
/// two clients, and what a client drops after a refusal. [`saving_runs_are_client_runs`] has restarts.
pub fn message_runs_are_client_runs()
    ensures runs { MessageRunsAreClientRuns }
    ensures edits { MessageEditsAreStored }
    ensures converge { MessageClientsConverge }
{}

/// States for each run with messages that no entry is missing at a client whose subscription the
/// server has handled. The client has each entry from its version up to the queue's position, or
/// will receive it over its connection.
///
/// So a client has processed all entries if the queue has read the whole log, the channel to the
/// client is empty, and what it has received has no entry at its version. It then shows the
/// server's document, if it has no pending edit.
pub fn no_entry_is_missing()
    ensures missing { NoneIsMissing }
    ensures received { ReceivedAreOfLog }
    ensures messages { MessagesAreOfLog }
    ensures processed { ConnectedClientsProcessAll }
    ensures converge { ConnectedClientsConverge }
{}

/// States for each small run with messages that a run without edits leads from its last state to
/// one in which any given clients have no pending edit and show the server's document. So no
/// client is stuck, whatever messages were lost.
///
/// A small run with messages is also a small run without messages, so all laws above hold of it.
/// No decision refuses a submission, and a client can process the entry at its version that it has
/// received. The premises are those of [`small_runs_are_in_range`].
pub fn clients_can_converge()
    ensures small { SmallMessageRunsAreSmallRuns }
    ensures submissions { NoSubmissionIsRefused }
    ensures entries { NextEntriesAreProcessed }
    ensures converge { ClientsCanConverge }
{}

/// States that the machine's server answers as a session of `sdb_session` does, for a document
/// without projection: a submission by its reply, `s` with a version by the entries from there on,
/// and an entry of a subscription, which is left out if it is the session's own.
pub fn messages_are_those_of_sessions()
    ensures submissions { SubmissionsAreAnsweredAlike }
    ensures subscriptions { SubscriptionsAreAnsweredAlike }
    ensures entries { EntriesArePumpedAlike }
{}

/// States for each run of a server that saves its log and restarts that a run without messages makes
/// the same edits, and leads from the same saved entries and clients to the same ones. So each law
/// above that has no premise holds of the clients and the saved log. Two of them are stated directly.
///
/// An unsaved entry may be lost by a restart. Its client can then send the edit again.
pub fn saving_runs_are_client_runs()
    ensures runs { SavingRunsAreClientRuns }
    ensures edits { EditsAreSaved }
    ensures converge { SavedClientsConverge }
{}

/// States for each run of a server that saves its log and restarts that the log begins with the saved
/// entries, and each later log with them too. What a client has processed and received, and what is
/// in its channel, is of each later saved log. So no restart loses what was sent.
///
/// No entry is missing at a client whose subscription the server has handled, as in
/// [`no_entry_is_missing`], if what the session holds is counted as sent. A client that has received
/// all has processed all entries, and these are saved.
pub fn restarts_lose_nothing_sent()
    ensures saved { SavedEntriesStay }
    ensures sent { SentEntriesStay }
    ensures missing { NoneIsMissingWithFile }
    ensures processed { ClientsProcessAllWithFile }
    ensures converge { ClientsConvergeWithFile }
{}

/// States for each small run of a server that saves its log and restarts that a run without edits
/// leads from its last state to one in which all entries are saved, and any given clients have no
/// pending edit and show the saved document. So no client is stuck, whatever restarts have lost.
///
/// A small run is also a small run without messages, with the saved entries as its log. The other
/// clauses and the premises are those of [`clients_can_converge`].
pub fn clients_can_converge_after_restarts()
    ensures small { SmallSavingRunsAreSmallRuns }
    ensures submissions { NoSubmissionIsRefusedWithFile }
    ensures entries { NextEntriesAreProcessedWithFile }
    ensures converge { ClientsCanConvergeWithFile }
{}
