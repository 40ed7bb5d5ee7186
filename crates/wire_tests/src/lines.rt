use event_text::{Event, read_line, write_line};
use line_text::{Line, append_out, read_out};
use schedule_text::{Calls, PlanSink, PlanSource, Sink, Source};
use sfs_base::{Bytes, Failed};
use std::test::*;

#[test]
fn a_source_gives_its_bytes(rt: HostRuntime) -> Result<(), Fail> {
    let bytes = Bytes::from_slice(rt.alloc(), b"abcde")?;
    let failing = Calls::from_slice(rt.alloc(), &[2])?;
    let mut source = PlanSource::new(bytes, failing).in_pieces(3);
    let mut piece = [0u8; 4];
    assert_eq!(rt; source.read(&mut piece), Ok(3));
    assert_eq!(rt; source.read(&mut piece), Err(Failed));
    assert_eq!(rt; piece, *b"abc\0");
    assert_eq!(rt; source.read(&mut piece), Ok(2));
    assert_eq!(rt; piece, *b"dec\0");
    assert_eq!(rt; (source.bytes(), source.faults()), (b"".as_slice(), 1));
    Ok(())
}

#[test]
fn a_sink_holds_what_it_took(rt: HostRuntime) -> Result<(), Fail> {
    let failing = Calls::from_slice(rt.alloc(), &[2])?;
    let mut sink = PlanSink::new(rt.alloc(), 5, failing)?.in_pieces(3);
    assert_eq!(rt; sink.write(b"abcd"), Ok(3));
    assert_eq!(rt; sink.write(b"d"), Err(Failed));
    assert_eq!(rt; sink.write(b"de"), Ok(2));
    assert_eq!(rt; sink.write(b"f"), Err(Failed));
    assert_eq!(rt; (sink.bytes(), sink.faults()), (b"abcde".as_slice(), 2));
    Ok(())
}

#[test]
fn an_event_is_read_and_written(rt: HostRuntime) -> Result<(), Fail> {
    let text = b"arrive 3 4294967295 0 0001feff";
    let event = Event::Arrive {
        node: 3,
        sec: 4_294_967_295,
        usec: 0,
        bytes: Bytes::from_slice(rt.alloc(), &[0, 1, 254, 255])?,
    };
    assert_eq!(rt; write_line(rt.alloc(), &event)?.as_slice(), text.as_slice());
    assert_eq!(rt; read_line(rt.alloc(), text)?, event);
    Ok(())
}

#[test]
fn a_line_is_read_and_written(rt: HostRuntime) -> Result<(), Fail> {
    let text = b"point 18446744073709551615 arrival 2 made 0 5";
    let line = Line::Point {
        point: 18_446_744_073_709_551_615,
        arrival: 2,
        made: Some((0, 5)),
    };
    let mut written = Vec::new(rt.alloc());
    append_out(&mut written, &line)?;
    assert_eq!(rt; written.as_slice(), text.as_slice());
    assert_eq!(rt; read_out(rt.alloc(), text)?, line);
    Ok(())
}
