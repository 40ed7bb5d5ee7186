ghost use Rattle.std.specs.Prelude.{◌≡◌, not, []};
ghost use Rattle.fs_rules.specs.Statuses.{first_failure, fails_where, acces};
ghost use Rattle.fs_rules.specs.Access.{may};
ghost use Rattle.fs_rules.specs.Attributes.{owner_checks, size_checks, set_attr_checks};
ghost use Rattle.fs_rules.specs.Reading.{read_checks};
ghost use Rattle.fs_rules.specs.Writing.{write_checks};
ghost use Rattle.fs_rules.specs.Making.{existing_checks};
ghost use Rattle.fs_checks.specs.Facts.{bare};
ghost use Rattle.fs_checks.specs.Rows.{is_one, regular_check, directory_row, pair_row, read_dir_row};
ghost use Rattle.fs_checks.specs.Verdict.{verdict};

use crate::MAX_FILE_BYTES;
use crate::facts::Facts;
use crate::kind::Kind;
use crate::names::check_name;
use crate::set::{is_set, sets_attributes};
use crate::status::Status;
use fs_rules::{Cred, READ, SEARCH, SUPERUSER, Sattr, WRITE, is_of_group};

impl Facts {
    /// The checks of SETATTR (RFC 1094, section 2.2.3).
    ///
    /// # Errors
    ///
    /// [`Status::PERM`] where the caller may not set these attributes, and where a size is set [`Status::ISDIR`],
    /// [`Status::NXIO`], [`Status::ACCES`] and [`Status::FBIG`], as for a write.
    #[tactic(auto, unfolding(fs_rules::specs::Statuses::first_failure, fs_rules::specs::Attributes::set_attr_checks))]
    pub fn check_set_attr(&self, set: &Sattr, cred: &Cred) -> Result<(), Status>
        ensures { result ≡ verdict (first_failure (set_attr_checks (bare self.now) set.now cred.now)) }
    {
        self.check_owner(set, cred)?;
        self.check_size(set.size, cred)
    }

    // The owner and user 0 may set attributes; user 0 alone gives a file to another user, and to a group of
    // which he is not.
    #[tactic(auto, unfolding(fs_rules::specs::Statuses::first_failure))]
    fn check_owner(&self, set: &Sattr, cred: &Cred) -> Result<(), Status>
        ensures { result ≡ verdict (first_failure (owner_checks (bare self.now) set.now cred.now)) }
    {
        let is_superuser = cred.uid == SUPERUSER;
        if sets_attributes(set) && !(is_superuser || cred.uid == self.uid) {
            return Err(Status::PERM);
        }
        if is_set(set.uid) && set.uid != self.uid && !is_superuser {
            return Err(Status::PERM);
        }
        if is_set(set.gid) && set.gid != self.gid && !(is_superuser || is_of_group(cred, set.gid)) {
            return Err(Status::PERM);
        }
        Ok(())
    }

    // That a size may be set; an unset one always may.
    #[tactic(auto, unfolding(fs_rules::specs::Statuses::first_failure))]
    fn check_size(&self, size: u32, cred: &Cred) -> Result<(), Status>
        ensures { result ≡ verdict (first_failure (size_checks (bare self.now) size cred.now)) }
    {
        if !is_set(size) {
            return Ok(());
        }
        self.check_regular()?;
        self.check_may(cred, WRITE)?;
        if size > MAX_FILE_BYTES {
            return Err(Status::FBIG);
        }
        Ok(())
    }

    // That a file is a regular one.
    fn check_regular(&self) -> Result<(), Status>
        ensures { result ≡ verdict (regular_check (bare self.now)) }
    {
        match self.kind {
            Kind::Regular => Ok(()),
            Kind::Directory => Err(Status::ISDIR),
            Kind::Link => Err(Status::NXIO),
        }
    }

    // That the caller may do what the bits say.
    fn check_may(&self, cred: &Cred, bits: u32) -> Result<(), Status>
        ensures { result ≡ verdict (fails_where acces (not (may (bare self.now) cred.now bits))) }
    {
        if !self.may(cred, bits) {
            return Err(Status::ACCES);
        }
        Ok(())
    }

    /// The checks of READ (RFC 1094, section 2.2.7).
    ///
    /// # Errors
    ///
    /// [`Status::ISDIR`] and [`Status::NXIO`] where the file is no regular one, [`Status::ACCES`] where the
    /// caller may neither read nor run it.
    #[tactic(auto, unfolding(fs_rules::specs::Statuses::first_failure))]
    pub fn check_read(&self, cred: &Cred) -> Result<(), Status>
        ensures { result ≡ verdict (first_failure (read_checks (bare self.now) cred.now)) }
    {
        self.check_regular()?;
        if !(self.may(cred, READ) || self.may(cred, SEARCH)) {
            return Err(Status::ACCES);
        }
        Ok(())
    }

    /// The checks of WRITE (RFC 1094, section 2.2.9).
    ///
    /// # Errors
    ///
    /// [`Status::ISDIR`] and [`Status::NXIO`] where the file is no regular one, [`Status::ACCES`] where the
    /// caller may not write it, [`Status::FBIG`] where the bytes would end past the greatest size.
    #[tactic(auto, unfolding(fs_rules::specs::Statuses::first_failure))]
    pub fn check_write(&self, offset: u32, bytes: &[u8], cred: &Cred) -> Result<(), Status>
        ensures { result ≡ verdict (first_failure (write_checks (bare self.now) cred.now offset bytes.now)) }
    {
        self.check_regular()?;
        self.check_may(cred, WRITE)?;
        let end = offset as u64 + bytes.len() as u64;
        if !bytes.is_empty() && end > MAX_FILE_BYTES as u64 {
            return Err(Status::FBIG);
        }
        Ok(())
    }

    /// That a file is a directory.
    ///
    /// # Errors
    ///
    /// [`Status::NOTDIR`] where it is none.
    pub fn check_directory(&self) -> Result<(), Status>
        ensures { result ≡ verdict (is_one (bare self.now)) }
    {
        match self.kind {
            Kind::Directory => Ok(()),
            Kind::Regular | Kind::Link => Err(Status::NOTDIR),
        }
    }

    /// The checks of a name in this file, and of the rights `bits` that the caller needs.
    ///
    /// # Errors
    ///
    /// [`Status::NOTDIR`] where it is no directory, what [`check_name`] gives, and [`Status::ACCES`].
    #[tactic(auto, unfolding(fs_rules::specs::Statuses::first_failure))]
    pub fn check_named(
        &self,
        name: &[u8],
        unfit: Status,
        cred: &Cred,
        bits: u32,
    ) -> Result<(), Status>
        ensures { result ≡ verdict (first_failure (directory_row (bare self.now) cred.now (record { dir = []; name = name.now; unfit = unfit.0; bits = bits }))) }
    {
        self.check_directory()?;
        check_name(name, unfit)?;
        self.check_may(cred, bits)
    }

    /// The checks of READDIR (RFC 1094, section 2.2.17).
    ///
    /// # Errors
    ///
    /// [`Status::NOTDIR`] where it is no directory, and [`Status::ACCES`] where the caller may not read it.
    #[tactic(auto, unfolding(fs_rules::specs::Statuses::first_failure))]
    pub fn check_list(&self, cred: &Cred) -> Result<(), Status>
        ensures { result ≡ verdict (first_failure (read_dir_row (bare self.now) cred.now)) }
    {
        self.check_directory()?;
        self.check_may(cred, READ)
    }

    /// The checks of CREATE where a file has the name (RFC 1094, section 2.2.10).
    ///
    /// # Errors
    ///
    /// [`Status::EXIST`] where it is no regular one; where a size is set, [`Status::ACCES`] where the caller
    /// may not write it, and [`Status::FBIG`] where it would be too large.
    #[tactic(auto, unfolding(fs_rules::specs::Statuses::first_failure))]
    pub fn check_existing(&self, set: &Sattr, cred: &Cred) -> Result<(), Status>
        ensures { result ≡ verdict (first_failure (existing_checks (bare self.now) set.now cred.now)) }
    {
        if self.kind != Kind::Regular {
            return Err(Status::EXIST);
        }
        if is_set(set.size) && !self.may(cred, WRITE) {
            return Err(Status::ACCES);
        }
        if is_set(set.size) && set.size > MAX_FILE_BYTES {
            return Err(Status::FBIG);
        }
        Ok(())
    }
}

/// The checks of the two names of a RENAME, in the files `from` and `to` (RFC 1094, section 2.2.12).
///
/// # Errors
///
/// [`Status::NOTDIR`] where one of these is no directory, [`Status::NAMETOOLONG`] for a name that is too
/// long, [`Status::NOENT`] where the first has not the form of a name and [`Status::ACCES`] where the second
/// has not, and where the caller may not write and search both.
#[tactic(auto, unfolding(fs_rules::specs::Statuses::first_failure))]
pub fn check_pair(
    from: &Facts,
    from_name: &[u8],
    to: &Facts,
    to_name: &[u8],
    cred: &Cred,
) -> Result<(), Status>
    ensures { result ≡ verdict (first_failure (pair_row (bare from.now) from_name.now (bare to.now) to_name.now cred.now)) }
{
    from.check_directory()?;
    to.check_directory()?;
    check_name(from_name, Status::NOENT)?;
    check_name(to_name, Status::ACCES)?;
    from.check_may(cred, WRITE | SEARCH)?;
    to.check_may(cred, WRITE | SEARCH)
}
