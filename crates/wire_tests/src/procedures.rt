use nfs_proto::{
    Answer, ArgFault, Bytes, Call, DirEntries, DirEntry, Handle, read_answer, read_args,
    write_answer, write_args,
};
use std::test::*;

// A message of these numbers.
fn message(rt: &HostRuntime, numbers: &[u32]) -> Result<Vec<u8>, Fail> {
    let mut bytes = Vec::new(rt.alloc());
    for number in numbers {
        bytes.extend_from_slice(&number.to_be_bytes())?;
    }
    Ok(bytes)
}

#[test]
fn a_call_is_written_and_read(rt: HostRuntime) -> Result<(), Fail> {
    let call = Call::Lookup {
        dir: Handle([9; 32]),
        name: Bytes::from_slice(rt.alloc(), b"abcde")?,
    };
    let dir = 0x0909_0909;
    let mut bytes = message(
        &rt,
        &[
            dir,
            dir,
            dir,
            dir,
            dir,
            dir,
            dir,
            dir,
            5,
            0x6162_6364,
            0x6500_0000,
        ],
    )?;
    assert_eq!(rt; write_args(rt.alloc(), &call)?.as_slice(), bytes.as_slice());
    bytes.extend_from_slice(&[7, 8, 9])?;
    assert!(rt; read_args(rt.alloc(), 4, &bytes)? == call);
    Ok(())
}

#[test]
fn an_answer_is_written_and_read(rt: HostRuntime) -> Result<(), Fail> {
    let mut entries = DirEntries::new(rt.alloc());
    entries.push(DirEntry {
        fileid: 7,
        name: Bytes::from_slice(rt.alloc(), b".")?,
        cookie: 1,
    })?;
    let answer = Answer::Names { entries, eof: true };
    let bytes = message(&rt, &[0, 1, 7, 1, 0x2e00_0000, 1, 0, 1])?;
    assert_eq!(rt;
        write_answer(rt.alloc(), &answer)?.as_slice(),
        bytes.as_slice()
    );
    assert!(rt; read_answer(rt.alloc(), 16, &bytes)? == answer);
    Ok(())
}

#[test]
fn what_is_no_message_is_refused(rt: HostRuntime) {
    assert_eq!(rt; read_args(rt.alloc(), 18, &[]), Err(ArgFault::NoProcedure));
    assert_eq!(rt; read_args(rt.alloc(), 1, &[9; 31]), Err(ArgFault::Garbage));
    // a status that there is not
    assert_eq!(rt;
        read_answer(rt.alloc(), 1, &[0, 0, 0, 3]),
        Err(ArgFault::Garbage)
    );
}
