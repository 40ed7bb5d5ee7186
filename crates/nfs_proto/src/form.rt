ghost use Rattle.std.specs.Prelude.{◌≡◌};
ghost use Rattle.nfs_proto.specs.Answers.{form_of};

/// The form of a procedure's result (RFC 1094, section 2.2).
#[derive(Clone, Copy, Debug, PartialEq, Eq)]
pub(crate) enum Form {
    /// Nothing, and no status.
    Nothing,
    /// A status alone.
    Plain,
    /// What is told of a file.
    Attr,
    /// A handle, and what is told of its file.
    Found,
    /// A path.
    Path,
    /// What is told of a file, and bytes of it.
    Part,
    /// Names of a directory.
    Names,
    /// What is told of the file system.
    Space,
}

impl Form {
    /// The form of the result of a procedure that is there.
    pub(crate) fn of(procedure: u32) -> Option<Form>
        ensures { result ≡ form_of procedure }
    {
        match procedure {
            0 | 3 | 7 => Some(Form::Nothing),
            1 | 2 | 8 => Some(Form::Attr),
            4 | 9 | 14 => Some(Form::Found),
            5 => Some(Form::Path),
            6 => Some(Form::Part),
            10 | 11 | 12 | 13 | 15 => Some(Form::Plain),
            16 => Some(Form::Names),
            17 => Some(Form::Space),
            _ => None,
        }
    }
}
