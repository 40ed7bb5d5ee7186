ghost use Rattle.std.specs.Prelude.{◌≡◌, Ok, Err, IfOk};
ghost use Rattle.sfs_xdr.specs.declared.xdr_fault.XdrFault.{XdrFault as Fault};
ghost use Rattle.rpc_msg.specs.Messages.{auth_of};

use sfs_xdr::{Reader, XdrFault};

/// No credential, or a verifier of nothing (RFC 1057, section 9.1).
pub const AUTH_NULL: u32 = 0;

/// A user, a group and further groups (RFC 1057, section 9.2).
pub const AUTH_UNIX: u32 = 1;

/// The most bytes that the body of a credential or verifier may have (RFC 1057, section 8.2).
pub const MAX_AUTH_BYTES: u32 = 400;

/// A credential or a verifier (RFC 1057, section 8.2).
#[derive(Clone, Copy, Debug, PartialEq, Eq)]
pub(crate) struct Auth<'a> {
    pub flavor: u32,
    pub body: &'a [u8],
}

impl<'a> Auth<'a> {
    /// Reads one. `TooLong` where its length word is above [`MAX_AUTH_BYTES`], which is found before the
    /// body is looked at; `Short` where the bytes end within it.
    #[tactic(auto, unfolding(crate::specs::Messages::auth_of))]
    pub(crate) fn read(reader: &mut Reader<'a>) -> Result<Auth<'a>, XdrFault>
        ensures found { IfOk result (λ auth. auth_of reader.old ≡ Ok ((auth.flavor, auth.body.now), reader.new)) }
        ensures refused { (fault : Fault) → result ≡ Err fault → auth_of reader.old ≡ Err fault }
    {
        let flavor = reader.u32()?;
        let body = reader.opaque_max(MAX_AUTH_BYTES)?;
        Ok(Auth { flavor, body })
    }
}
