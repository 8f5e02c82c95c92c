//! A crash, and the open after it.
ghost use Rattle.std.specs.Prelude.{◌≡◌, ◌⊎◌, false, List, ℕ, IfSome};
ghost use Rattle.sqlite.specs.State.{HasCleanDisk};
ghost use Rattle.sqlite.specs.Held.{state};
ghost use Rattle.sdb_linefile.specs.LineFile.{StoresLines, LeavesEither, IsUnreadFileOf, unread_state, file_state};

use crate::line_file::{LineFile, UnreadFile};
use crate::opening::adopt;
use sqlite::{Alter, Connection};
use sqlite_trees::store::Reopen;
use std::alloc::Global;

/// Crashes and opens what the crash left, on a store that models a crash. Returns `None` if the open
/// fails.
pub fn crash_and_reopen<S: Alter + Reopen + Drop>(
    alloc: Global,
    file: LineFile<S>,
) -> Option<UnreadFile<S>>
    ensures { IfSome result (λ again. HasCleanDisk (unread_state again) → (these those : List (List ℕ)) →
        LeavesEither these those (file_state file) → IsUnreadFileOf these again ⊎ IsUnreadFileOf those again) }
{
    let conn = reopen(alloc, file.into_connection())?;
    match adopt(conn) {
        Ok(again) => Some(again),
        Err(_) => None,
    }
}

// Crashes, and connects to what the crash left.
fn reopen<S: Alter + Reopen + Drop>(alloc: Global, conn: Connection<S>) -> Option<Connection<S>>
    ensures autocommit { IfSome result (λ again. again.in_transaction ≡ false) }
    ensures left { IfSome result (λ again. HasCleanDisk (state S.Store again) → (these those : List (List ℕ)) →
        LeavesEither these those (state S.Store conn) →
        StoresLines these (state S.Store again) ⊎ StoresLines those (state S.Store again)) }
{
    let mut store = conn.into_store();
    if store.crash_and_reopen().is_err() {
        return None;
    }
    match Connection::over(alloc, store) {
        Ok(again) => Some(again),
        Err(_) => None,
    }
}
