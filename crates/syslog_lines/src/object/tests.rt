//! Whole lines and the objects that they become, written by hand.

use super::*;
use std::test::Fail;

// The example of RFC 5424, section 6.5, with structured data.
const STRUCTURED: &[u8] =
    b"<165>1 2003-10-11T22:14:15.003Z mymachine.example.com evntslog - ID47 [exampleSDID@32473 iut=\"3\"] An event";

#[test]
fn lines_become_objects(rt: HostRuntime) -> Result<(), Fail> {
    let whole = Mark {
        line: 7,
        piece: 0,
        is_last: true,
    };
    for (line, want) in [
        (
            STRUCTURED,
            "{\"line\":7,\"priority\":165,\"facility\":\"local4\",\"severity\":\"notice\",\"time\":\"2003-10-11T22:14:15.003Z\",\"host\":\"mymachine.example.com\",\"app\":\"evntslog\",\"msgid\":\"ID47\",\"data\":\"[exampleSDID@32473 iut=\\\"3\\\"]\",\"message\":\"An event\"}\n",
        ),
        (
            b"<34>Oct 11 22:14:15 mymachine su[12]: 'su root' failed".as_slice(),
            "{\"line\":7,\"priority\":34,\"facility\":\"auth\",\"severity\":\"crit\",\"time\":\"Oct 11 22:14:15\",\"host\":\"mymachine\",\"app\":\"su\",\"procid\":\"12\",\"message\":\"'su root' failed\"}\n",
        ),
        (
            b"no head\x01".as_slice(),
            "{\"line\":7,\"message\":\"no head\\u0001\"}\n",
        ),
        (
            b"a\\b\xff".as_slice(),
            "{\"line\":7,\"escaped\":true,\"message\":\"a\\\\\\\\b\\\\xff\"}\n",
        ),
    ] {
        let mut out = Vec::new(rt.alloc());
        push_object(&mut out, whole, line)?;
        assert_eq!(rt; out.as_slice(), want.as_bytes());
    }
    Ok(())
}
