ghost use Rattle.std.specs.Prelude.{◌≡◌};
ghost use Rattle.fs_rules.specs.Statuses.{first_failure};
ghost use Rattle.fs_checks.specs.Facts.{bare};
ghost use Rattle.fs_checks.specs.Naming.{link_row, over_row, way_row};
ghost use Rattle.fs_checks.specs.Verdict.{verdict};

use crate::facts::Facts;
use crate::status::Status;

impl Facts {
    /// The checks of LINK of this file behind those of the arguments (RFC 1094, section 2.2.13), by whether no
    /// file can get the name: it is "." or "..", or is there.
    ///
    /// # Errors
    ///
    /// [`Status::PERM`] where it is a directory, and [`Status::EXIST`] where the name is taken.
    #[tactic(auto, unfolding(fs_rules::specs::Statuses::first_failure))]
    pub fn check_link(&self, is_taken: bool) -> Result<(), Status>
        ensures { result ≡ verdict (first_failure (link_row (bare self.now) is_taken)) }
    {
        if self.is_directory() {
            return Err(Status::PERM);
        }
        if is_taken {
            return Err(Status::EXIST);
        }
        Ok(())
    }

    /// That a RENAME may move a directory, or another file, over this file, by whether a name is in use in it
    /// (RFC 1094, section 2.2.12).
    ///
    /// # Errors
    ///
    /// [`Status::NOTDIR`] where a directory is moved over another file, [`Status::ISDIR`] where another file is
    /// moved over a directory, and [`Status::NOTEMPTY`] where a name is in use.
    #[tactic(auto, unfolding(fs_rules::specs::Statuses::first_failure))]
    pub fn check_over(&self, moves_directory: bool, is_in_use: bool) -> Result<(), Status>
        ensures { result ≡ verdict (first_failure (over_row moves_directory (bare self.now) is_in_use)) }
    {
        match (moves_directory, self.is_directory()) {
            (true, false) => return Err(Status::NOTDIR),
            (false, true) => return Err(Status::ISDIR),
            _ => {}
        }
        if is_in_use {
            return Err(Status::NOTEMPTY);
        }
        Ok(())
    }
}

/// That a directory may be moved into another: by whether no more moves to a parent than one may make lead
/// from there to the root, and whether the directory that is moved is on the way (RFC 1094, section 2.2.12).
///
/// # Errors
///
/// [`Status::NAMETOOLONG`] where they do not, and [`Status::IO`] where it is.
#[tactic(auto, unfolding(fs_rules::specs::Statuses::first_failure))]
pub fn check_way(leads_to_root: bool, is_above: bool) -> Result<(), Status>
    ensures { result ≡ verdict (first_failure (way_row leads_to_root is_above)) }
{
    if !leads_to_root {
        return Err(Status::NAMETOOLONG);
    }
    if is_above {
        return Err(Status::IO);
    }
    Ok(())
}
