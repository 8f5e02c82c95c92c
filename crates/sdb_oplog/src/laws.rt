//! Laws of rebased contents, as contracts of functions without effect.
ghost use Rattle.sdb_oplog.specs.RebasedContents.{RebasedContentsAreMade, RebasedSubmissionsAreMade, StoredEntriesAreMade, RebasedAreMadeIfAllMade, RefusalsHaveCauses, RefusalsHaveCausesIfAllMade};

/// States that a content made for a document is rebased to one that is made for the document after
/// the entries, or a sum of it leaves the range there. The premise is that the entries are made too.
pub fn rebased_contents_are_made()
    ensures entries { RebasedContentsAreMade }
    ensures submissions { RebasedSubmissionsAreMade }
{}

/// States that each entry of a made log is made for the document before it, if each submission of
/// the log was made for the document at its base version. So one more such submission is rebased to
/// a content that is made for the current document, or a sum of it leaves the range there.
pub fn stored_entries_are_made()
    ensures entries { StoredEntriesAreMade }
    ensures rebased { RebasedAreMadeIfAllMade }
{}

/// States the causes for which an edit is refused that was made for the document at its base
/// version. Either the missed entries are made too, or each submission of the log was.
pub fn refusals_have_causes()
    ensures missed_made { RefusalsHaveCauses }
    ensures all_made { RefusalsHaveCausesIfAllMade }
{}
