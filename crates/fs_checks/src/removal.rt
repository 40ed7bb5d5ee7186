ghost use Rattle.std.specs.Prelude.{◌≡◌, not, [], ◌∷◌};
ghost use Rattle.fs_rules.specs.Statuses.{first_failure, fails_where, isdir, notdir, notempty};
ghost use Rattle.fs_rules.specs.Arguments.{is_dots};
ghost use Rattle.fs_checks.specs.Removals.{dots_status, removal_row};
ghost use Rattle.fs_checks.specs.Verdict.{verdict};

use crate::names::is_dots;
use crate::status::Status;

/// What a call takes a name from.
#[derive(Clone, Copy, Debug, PartialEq, Eq)]
pub enum Removal {
    /// REMOVE (RFC 1094, section 2.2.11): a file that is no directory.
    File,
    /// RMDIR (RFC 1094, section 2.2.16): a directory in which no name is in use.
    Directory,
}

impl Removal {
    /// That a name is one that can be taken away, which "." and ".." are not.
    ///
    /// # Errors
    ///
    /// [`Status::ISDIR`] of REMOVE, and [`Status::ACCES`] of RMDIR.
    pub fn check_name(self, name: &[u8]) -> Result<(), Status>
        ensures { result ≡ verdict (fails_where (dots_status self) (is_dots name.now)) }
    {
        if !is_dots(name) {
            return Ok(());
        }
        match self {
            Removal::File => Err(Status::ISDIR),
            Removal::Directory => Err(Status::ACCES),
        }
    }

    /// That a file is one whose name may be taken away: by whether it is a directory, and whether a name is in
    /// use in it.
    ///
    /// # Errors
    ///
    /// [`Status::ISDIR`] of REMOVE where it is a directory; of RMDIR [`Status::NOTDIR`] where it is none, and
    /// [`Status::NOTEMPTY`] where a name is in use.
    #[tactic(auto, unfolding(fs_rules::specs::Statuses::first_failure))]
    pub fn check_file(self, is_directory: bool, is_in_use: bool) -> Result<(), Status>
        ensures { result ≡ verdict (first_failure (removal_row self is_directory is_in_use)) }
    {
        match self {
            Removal::File => check_no_directory(is_directory),
            Removal::Directory => check_empty_directory(is_directory, is_in_use),
        }
    }
}

// That a file is no directory.
fn check_no_directory(is_directory: bool) -> Result<(), Status>
    ensures { result ≡ verdict (fails_where isdir is_directory) }
{
    if is_directory {
        return Err(Status::ISDIR);
    }
    Ok(())
}

// That a file is a directory in which no name is in use.
#[tactic(auto, unfolding(fs_rules::specs::Statuses::first_failure))]
fn check_empty_directory(is_directory: bool, is_in_use: bool) -> Result<(), Status>
    ensures { result ≡ verdict (first_failure (fails_where notdir (not is_directory) ∷ fails_where notempty is_in_use ∷ [])) }
{
    if !is_directory {
        return Err(Status::NOTDIR);
    }
    if is_in_use {
        return Err(Status::NOTEMPTY);
    }
    Ok(())
}
