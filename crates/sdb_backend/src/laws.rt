//! Laws of the calls of a pass. The functions have no effect.
ghost use Rattle.std.specs.Prelude.{◌≡◌, ℕ, List, Result};
ghost use Rattle.sdb_oplog.specs.Decide.{PlainReply};
ghost use Rattle.sdb_oplog.specs.Keys.{PlainKey};
ghost use Rattle.sdb_oplog.specs.Plain.{PlainEntry, PlainSubmission};
ghost use Rattle.sdb_oplog.specs.declared.codes.Code.{Code};
ghost use Rattle.sdb_submit.specs.Calls.{commit_now};
ghost use Rattle.sdb_submit.specs.SubmitLoop.{SubmitRelation, ListsAll};
ghost use Rattle.sdb_backend.specs.CallAnswers.{AnsweredAtExtension, AddsEntry, ListedAtExtension, PassCalls};
ghost use Rattle.sdb_backend.specs.PassModel.{pass_number, HasEmptyShare};
ghost use Rattle.sdb_backend.specs.PassRuns.{AnsweredCall, AreAnswered, HasStoredCalls, HasTakenQueue};
ghost use Rattle.sdb_backend.specs.declared.pass.Pass.{Pass};

/// States that a submission by a chain of calls, as `submit` makes it, is one call that decides. A
/// reply `Stored` adds one entry to the pass's share; any other reply adds none.
pub fn submitted_in_one_step()
    ensures decides { (k : PlainKey) (s : PlainSubmission) (now : ℕ) (p q : Pass) (r : PlainReply) →
        SubmitRelation (PassCalls k) s now p r q → AnsweredAtExtension k (commit_now s now) p r q }
    ensures adds_entry { (k : PlainKey) (s : PlainSubmission) (now : ℕ) (p q : Pass) (r : PlainReply) →
        SubmitRelation (PassCalls k) s now p r q → s.by ≡ pass_number p → AddsEntry k s now p r q }
{}

/// States that a listing by a chain of calls, as a session makes it in batches, is the machine's at
/// one history.
pub fn listed_at_one_history()
    ensures { (k : PlainKey) (v : ℕ) (p q : Pass) (r : Result (List PlainEntry) Code) →
        ListsAll (PassCalls k) v p r q → ListedAtExtension k v p r q }
{}

/// States that a pass's share at a key has the entries that its calls stored, each once and in
/// order, if the share was empty before the calls.
pub fn own_entries_are_stored()
    ensures { (k : PlainKey) (calls : List AnsweredCall) (p q : Pass) →
        HasEmptyShare p → AreAnswered calls p q → HasStoredCalls k calls q }
{}

/// States that the takes of a pass returned the entries of its queue from the queue's start on, in
/// order and without gaps, if its share was empty before the calls.
pub fn takes_are_queue()
    ensures { (k : PlainKey) (id : ℕ) (calls : List AnsweredCall) (p q : Pass) →
        HasEmptyShare p → AreAnswered calls p q → HasTakenQueue k id calls q }
{}
