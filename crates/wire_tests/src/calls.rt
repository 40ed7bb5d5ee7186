use rpc_msg::{
    Arguments, Bytes, Cred, Gids, Heard, MOUNT, NFS, NOBODY, Program, RpcCall, read_call,
    write_call, write_garbage, write_reply,
};
use std::test::*;

// A message of these numbers.
fn message(rt: &HostRuntime, numbers: &[u32]) -> Result<Vec<u8>, Fail> {
    let mut bytes = Vec::new(rt.alloc());
    for number in numbers {
        bytes.extend_from_slice(&number.to_be_bytes())?;
    }
    Ok(bytes)
}

#[test]
fn a_call_tells_who_calls_and_what(rt: HostRuntime) -> Result<(), Fail> {
    // stamp 77, a machine "ab" with bytes of any values behind it, user 3, group 4, groups 5 and 6, something behind
    // them, a verifier of another flavor, and five bytes of arguments
    let mut bytes = message(&rt, &[9, 0, 2, 100_003, 2, 4, 1, 32, 77, 2])?;
    bytes.extend_from_slice(b"ab\x01\x02")?;
    bytes.extend_from_slice(&message(&rt, &[3, 4, 2, 5, 6])?)?;
    bytes.extend_from_slice(&message(&rt, &[8, 3])?)?;
    bytes.extend_from_slice(b"xyz\x07hello")?;
    let Heard::Call(call) = read_call(rt.alloc(), &bytes)? else {
        assert!(rt; false, "it is a call");
        return Ok(());
    };
    assert_eq!(rt; (call.xid, call.program, call.procedure), (9, 100_003, 4));
    assert_eq!(rt; (call.cred.uid, call.cred.gid), (3, 4));
    assert_eq!(rt; call.cred.gids.as_slice(), [5, 6].as_slice());
    assert_eq!(rt; call.args.as_slice(), b"hello".as_slice());
    Ok(())
}

#[test]
fn a_message_is_refused_or_passed_over(rt: HostRuntime) -> Result<(), Fail> {
    let other_version = message(&rt, &[9, 0, 3, 100_003, 2, 0])?;
    match read_call(rt.alloc(), &other_version)? {
        Heard::Refuse(reply) => {
            let wanted = message(&rt, &[9, 1, 1, 0, 2, 2])?;
            assert_eq!(rt; reply.as_slice(), wanted.as_slice());
        }
        _ => assert!(rt; false, "there is one version of RPC"),
    }
    let reply = message(&rt, &[9, 1, 2, 100_003, 2, 0, 0, 0, 0, 0])?;
    assert!(rt; matches!(read_call(rt.alloc(), &reply)?, Heard::Silent));
    Ok(())
}

#[test]
fn replies_are_spelled(rt: HostRuntime) -> Result<(), Fail> {
    let reply = write_reply(rt.alloc(), 0x0102_0304, &[9, 9])?;
    assert_eq!(rt;
        reply.as_slice(),
        [
            1, 2, 3, 4, 0, 0, 0, 1, 0, 0, 0, 0, 0, 0, 0, 0, 0, 0, 0, 0, 0, 0, 0, 0, 9, 9
        ]
        .as_slice()
    );
    let garbage = write_garbage(rt.alloc(), 5)?;
    let wanted = message(&rt, &[5, 1, 0, 0, 0, 4])?;
    assert_eq!(rt; garbage.as_slice(), wanted.as_slice());
    Ok(())
}

#[test]
fn a_call_with_a_credential_is_written(rt: HostRuntime) -> Result<(), Fail> {
    assert!(rt; Cred::nobody(rt.alloc()).is_nobody());
    let call = RpcCall {
        xid: 7,
        program: MOUNT,
        procedure: 5,
        cred: Cred {
            uid: NOBODY,
            gid: 4,
            gids: Gids::from_slice(rt.alloc(), &[5, 6])?,
        },
        args: Bytes::new(rt.alloc()),
    };
    assert!(rt; !call.cred.is_nobody());
    let wanted = message(
        &rt,
        &[
            7, 0, 2, 100_005, 1, 5, 1, 28, 0, 0, 65_534, 4, 2, 5, 6, 0, 0,
        ],
    )?;
    assert_eq!(rt;
        write_call(rt.alloc(), &call)?.as_slice(),
        wanted.as_slice()
    );
    Ok(())
}

#[test]
fn programs_are_known_by_their_numbers(rt: HostRuntime) {
    let nfs = Program {
        version: 2,
        last_procedure: 17,
    };
    assert_eq!(rt; Program::of(NFS), Some(nfs));
    assert_eq!(rt; Program::of(100_004), None);
}
