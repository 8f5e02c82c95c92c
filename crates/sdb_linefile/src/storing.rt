//! Storing lines in groups.
ghost use Rattle.std.specs.Prelude.{◌≡◌, ◌⊎◌, ◌∷◌, [], ◌++◌, false, List, ℕ, length, IsTrue, IfErr, OnOk, OnErr};
ghost use Rattle.sqlite.specs.State.{HasCleanDisk, KeepsCommit, Survives};
ghost use Rattle.sqlite.specs.Held.{state};
ghost use Rattle.sdb_linefile.specs.Lines.{lines_of};
ghost use Rattle.sdb_linefile.specs.LineTable.{Added};
ghost use Rattle.sdb_linefile.specs.LineFile.{StoresLines, LeavesEither, IsFileOf, file_state};

use crate::error::LineFileError;
use crate::line_file::LineFile;
use crate::line_table::INSERT_TEXT;
use sqlite::{Alter, Connection, Error, Transaction, params};

impl<S: Alter> LineFile<S> {
    /// Stores a group of lines after the others, in one transaction.
    ///
    /// After `Ok` each crash leaves the lines. A crash during the call leaves all lines of the group
    /// or none.
    ///
    /// # Errors
    ///
    /// Returns the group with the cause. The file is then unchanged and the call can be repeated,
    /// unless a failure of the disk closed the file.
    ///
    /// ```
    /// if let Err((error, group)) = file.store_group(group) {
    ///     return Err(error);
    /// }
    /// ```
    pub fn store_group(&mut self, group: Vec<Vec<u8>>) -> Result<(), (LineFileError, Vec<Vec<u8>>)>
        ensures ok { HasCleanDisk (file_state self.new) → OnOk result ((before : List (List ℕ)) →
            IsFileOf before self.old → IsFileOf (before ++ lines_of group.items) self.new) }
        ensures crash { HasCleanDisk (file_state self.new) → (before : List (List ℕ)) → IsFileOf before self.old →
            LeavesEither before (before ++ lines_of group.items) (file_state self.new) }
        ensures err { HasCleanDisk (file_state self.new) → IsTrue (file_state self.new).is_open → OnErr result
            ((before : List (List ℕ)) → IsFileOf before self.old → IsFileOf before self.new) }
        ensures returned { IfErr result (λ e. e.1 ≡ group) }
    {
        let Some(count) = self.count.checked_add(group.len() as u64) else {
            return Err((LineFileError::TooManyLines, group));
        };
        match commit_group(&mut self.conn, group.as_slice()) {
            Ok(()) => {
                self.count = count;
                Ok(())
            }
            Err(error) => Err((LineFileError::from(error), group)),
        }
    }
}

// Stores the lines after the others, in one transaction.
fn commit_group<S: Alter>(conn: &mut Connection<S>, group: &[Vec<u8>]) -> Result<(), Error>
    requires autocommit { conn.old.in_transaction ≡ false }
    ensures autocommit { conn.new.in_transaction ≡ false }
    ensures ok { HasCleanDisk (state S.Store conn.new) → OnOk result ((before : List (List ℕ)) →
        StoresLines before (state S.Store conn.old)
        → StoresLines (before ++ lines_of group.now) (state S.Store conn.new)) }
    ensures crash { HasCleanDisk (state S.Store conn.new) → (before : List (List ℕ)) →
        StoresLines before (state S.Store conn.old)
        → LeavesEither before (before ++ lines_of group.now) (state S.Store conn.new) }
    ensures err { HasCleanDisk (state S.Store conn.new) → IsTrue (state S.Store conn.new).is_open → OnErr result
        ((before : List (List ℕ)) → StoresLines before (state S.Store conn.old)
        → StoresLines before (state S.Store conn.new)) }
{
    let _settled = conn.is_autocommit();
    let _live = conn.schema();
    let mut transaction = conn.transaction();
    insert_each(&mut transaction, group)?;
    transaction.commit()
}

// Inserts the lines after the others, in the transaction.
fn insert_each<S: Alter>(
    transaction: &mut Transaction<'_, S>,
    lines: &[Vec<u8>],
) -> Result<(), Error>
    requires inside { IsTrue transaction.old.conn.now.in_transaction }
    ensures same_reference { transaction.new.conn.ghost_name ≡ transaction.old.conn.ghost_name }
    ensures added { HasCleanDisk (state S.Store transaction.new.conn.now) → OnOk result
        (Added (lines_of lines.now) (state S.Store transaction.old.conn.now)
        (state S.Store transaction.new.conn.now)) }
    ensures kept { HasCleanDisk (state S.Store transaction.new.conn.now) → KeepsCommit
        (state S.Store transaction.old.conn.now) (state S.Store transaction.new.conn.now) }
    ensures survives { Survives (state S.Store transaction.old.conn.now)
        (state S.Store transaction.new.conn.now) (λ _. ⊥) }
{
    for line in lines {
        insert(transaction, line.as_slice())?;
    }
    Ok(())
}

fn insert<S: Alter>(transaction: &mut Transaction<'_, S>, line: &[u8]) -> Result<usize, Error>
    requires inside { HasCleanDisk (state S.Store transaction.old.conn.now) →
        IsTrue transaction.old.conn.now.in_transaction }
    ensures same_reference { transaction.new.conn.ghost_name ≡ transaction.old.conn.ghost_name }
    ensures added { HasCleanDisk (state S.Store transaction.new.conn.now) → OnOk result
        (Added (line.now ∷ []) (state S.Store transaction.old.conn.now)
        (state S.Store transaction.new.conn.now)) }
    ensures kept { HasCleanDisk (state S.Store transaction.new.conn.now) → KeepsCommit
        (state S.Store transaction.old.conn.now) (state S.Store transaction.new.conn.now) }
    ensures survives { Survives (state S.Store transaction.old.conn.now)
        (state S.Store transaction.new.conn.now) (λ _. ⊥) }
{
    transaction.execute(INSERT_TEXT, params![line])
}
