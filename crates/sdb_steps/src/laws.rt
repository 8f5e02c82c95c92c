//! Laws of all runs, and of all logs that events make. The functions have no effect.
ghost use Rattle.std.specs.Prelude.{◌≡◌, ◌<◌, ℕ, IfSome, List, [], ◌∷◌, ◌++◌, length, take, true, is_some};
ghost use Rattle.sdb_oplog.specs.Plain.{PlainEntry, PlainSubmission};
ghost use Rattle.sdb_oplog.specs.Keys.{PlainKey, Logs};
ghost use Rattle.sdb_oplog.specs.Snap.{snap, are_identifiers_new};
ghost use Rattle.sdb_oplog.specs.Decide.{decide, stored, repeated, IsMade};
ghost use Rattle.sdb_steps.specs.OneStep.{OneStep, Event, Legal, empty_machine, machine_after_events};
ghost use Rattle.sdb_steps.specs.Picks.{PlainSessionStep, PlainStepAnswer, SessionStates, Picks, empty_sessions, replies_in};
ghost use Rattle.sdb_steps.specs.Placement.{SubmissionsArePlaced};
ghost use Rattle.sdb_steps.specs.TakeContinuation.{TakesContinue};
ghost use Rattle.sdb_steps.specs.Runs.{IsRun, IsStep};
ghost use Rattle.sdb_steps.specs.ReplayLaws.{ReadsAreReplays};
ghost use Rattle.sdb_steps.specs.TakenEntries.{QueuesTakeAll};

/// States that the empty list of steps is a run of the empty machine and fresh sessions.
pub fn runs_begin()
    ensures { IsRun [] [] empty_machine empty_sessions }
{}

/// States that a run extended by a step is a run.
pub fn runs_go_on()
    ensures { (n o : OneStep) (u v : SessionStates) (steps : List PlainSessionStep) (answers : List PlainStepAnswer)
        (s : PlainSessionStep) (a : PlainStepAnswer) →
        IsRun steps answers n u → IsStep n u s a o v → IsRun (steps ++ s ∷ []) (answers ++ a ∷ []) o v }
{}

/// States that a run's replies and logs are the reference machine's, for the events that its steps
/// pick.
pub fn runs_are_legal()
    ensures { (steps : List PlainSessionStep) (answers : List PlainStepAnswer) (n : OneStep) (v : SessionStates) →
        IsRun steps answers n v →
        (events : List Event) × Picks steps answers events v × Legal events (replies_in answers) n.logs }
{}

/// States that each open queue has read the entries from its start on, in order and without gaps.
pub fn queues_take_all()
    ensures { (steps : List PlainSessionStep) (answers : List PlainStepAnswer) (events : List Event) (w : SessionStates)
        (logs : Logs) →
        Picks steps answers events w → Legal events (replies_in answers) logs → QueuesTakeAll steps answers w logs }
{}

/// States that each read of a run returned the replay of a prefix of the final log. Its version is
/// the requested one, and no entry in it is later than the requested moment.
pub fn reads_are_replays()
    ensures { (steps : List PlainSessionStep) (answers : List PlainStepAnswer) (events : List Event) (w : SessionStates)
        (logs : Logs) →
        Picks steps answers events w → Legal events (replies_in answers) logs → ReadsAreReplays steps answers logs }
{}

/// States that each entry of a log made by events is the one that its submission stores on the
/// entries before it.
pub fn logs_are_made()
    ensures { (events : List Event) (k : PlainKey) → IsMade ((machine_after_events empty_machine events).logs k) }
{}

/// States that a made log has a document at each version: the replay of its prefix.
pub fn snapshots_are_replays()
    ensures { (log : List PlainEntry) (v : ℕ) → IsMade log → is_some (snap (take v log)) ≡ true }
{}

/// States that no two entries of a made log have the same source and seq.
pub fn stored_once()
    ensures { (log : List PlainEntry) → IsMade log → are_identifiers_new [] log ≡ true }
{}

/// States that a resent operation is answered with its first version and changes nothing. This
/// holds for any content, base version and moment that it is resent with, and for any entries
/// stored since.
pub fn resent()
    ensures { (log missed more : List PlainEntry) (s again : PlainSubmission) (now later v : ℕ) →
        (decide log s now).reply ≡ stored v missed → again.src ≡ s.src → again.seq ≡ s.seq →
        decide ((decide log s now).log ++ more) again later ≡
        record { reply = repeated v; log = (decide log s now).log ++ more } }
{}

/// States that a duplicate is answered with its entry's version and changes nothing.
pub fn repeats_are_answered()
    ensures { (before later : List PlainEntry) (e : PlainEntry) (again : PlainSubmission) (now : ℕ) →
        IsMade (before ++ e ∷ later) → again.src ≡ e.arrived.src → again.seq ≡ e.arrived.seq →
        decide (before ++ e ∷ later) again now ≡
        record { reply = repeated (length before); log = before ++ e ∷ later } }
{}

/// States that an open attempt has had at most eight tries: the ninth commit decides.
pub fn tries_stay_below_nine()
    ensures { (steps : List PlainSessionStep) (answers : List PlainStepAnswer) (events : List Event)
        (w : SessionStates) →
        Picks steps answers events w → (n : ℕ) → IfSome (w n).attempt (λ a. a.tries < 9) }
{}

/// States that a commit's answer, stored or duplicate, is the first version in the final log with
/// the submission's source and seq. So two commits of one source and seq on one document return one
/// version.
pub fn submissions_are_placed()
    ensures { (steps : List PlainSessionStep) (answers : List PlainStepAnswer) (events : List Event) (w : SessionStates)
        (logs : Logs) →
        Picks steps answers events w → Legal events (replies_in answers) logs
        → SubmissionsArePlaced steps answers logs }
{}

/// States that each take of a run returned the entries that follow those of the queue's earlier
/// takes, in order, without gaps and within its limit. A queue starts within the log, at the
/// requested version if there was one.
pub fn takes_continue()
    ensures { (steps : List PlainSessionStep) (answers : List PlainStepAnswer) (events : List Event) (w : SessionStates)
        (logs : Logs) →
        Picks steps answers events w → Legal events (replies_in answers) logs → TakesContinue steps answers logs }
{}
