ghost use Rattle.std.specs.Prelude.{◌≡◌, ◌==◌, ◌||◌, []};
ghost use Rattle.std.specs.List.{list_any};
ghost use Rattle.fs_rules.specs.Arguments.{name_check, is_name_form, is_dot, is_dot_dot, is_dots};
ghost use Rattle.fs_checks.specs.Verdict.{verdict};

use crate::status::Status;
use fs_layout::MAX_NAME_BYTES;

/// Whether bytes are a name.
///
/// # Errors
///
/// [`Status::NAMETOOLONG`] where they are more than [`MAX_NAME_BYTES`], and `unfit` where they have not the
/// form of one: some bytes, none of them 0 or a slash.
pub fn check_name(name: &[u8], unfit: Status) -> Result<(), Status>
    ensures { result ≡ verdict (name_check (record { dir = []; name = name.now; unfit = unfit.0; bits = 0 })) }
{
    if name.len() > MAX_NAME_BYTES {
        return Err(Status::NAMETOOLONG);
    }
    if !has_name_form(name) {
        return Err(unfit);
    }
    Ok(())
}

// Whether bytes have the form of a name: some, none of them 0 or a slash.
fn has_name_form(name: &[u8]) -> bool
    ensures { result ≡ is_name_form name.now }
{
    !name.is_empty() && !has_separator(name)
}

// Whether a byte is 0 or a slash.
fn has_separator(name: &[u8]) -> bool
    ensures { result ≡ list_any (λ b. (b == 0) || (b == 47)) name.now }
{
    name.iter().any(|b| *b == 0 || *b == b'/')
}

/// Whether a name is ".".
pub fn is_dot(name: &[u8]) -> bool
    ensures { result ≡ is_dot name.now }
{
    name == b".".as_slice()
}

/// Whether a name is "..".
pub fn is_dot_dot(name: &[u8]) -> bool
    ensures { result ≡ is_dot_dot name.now }
{
    name == b"..".as_slice()
}

/// Whether a name is "." or "..".
pub fn is_dots(name: &[u8]) -> bool
    ensures { result ≡ is_dots name.now }
{
    is_dot(name) || is_dot_dot(name)
}
