//! The travel of three buffers: its trace, and its report.

/// The travel of three buffers.
pub(crate) const TRACE: &[u8] =
    b"pool 64 8 2\nadopt 0 0\nadopt 7 1\nadopt 11 2\nadopt 27 3\nclaim 7 15\n\
    claim 11 15\nclaim 27 15\nalloc 7 512\nalloc 11 512\nalloc 27 512\n\
    free 0 0.0\nfree 0 1.0\nfree 0 2.0\nsend 0 7\nlink 1\ntake 7\n\
    send 7 11\nlink 2\ntake 11\nsend 11 27\nlink 3\ntake 27\n";

/// The report of `TRACE`: 22 replies, and four closing lines.
pub(crate) const REPORT: &[u8] =
    b"ok\nok\nok\nok\nchunk 0\nchunk 1\nchunk 2\nslot 0.0\nslot 1.0\nslot 2.0\n\
    cached\ncached\ncached\nbatch 1 3\nok\nhome 1 on 2\nbatch 2 2\nok\nhome 1 on 1\n\
    batch 3 1\nok\nhome 1 on 0\n\
    desk 7 home 8 cached 0 queued 0\ndesk 11 home 8 cached 0 queued 0\n\
    desk 27 home 8 cached 0 queued 0\nend chunks 3 lent 0 home 24 cached 0 queued 0\n";

/// The first lines of the report of `TRACE`.
fn first_lines(count: u32) -> &'static [u8] {
    let mut left = count;
    for at in 0..REPORT.len() {
        if left == 0 {
            return &REPORT[..at];
        }
        if REPORT[at] == b'\n' {
            left -= 1;
        }
    }
    REPORT
}

/// How many lines are whole in these bytes.
pub(crate) fn whole_lines(bytes: &[u8]) -> u32 {
    let mut lines = 0u32;
    for byte in bytes {
        if *byte == b'\n' {
            lines = lines.saturating_add(1);
        }
    }
    lines
}

/// The replies to the requests that are whole in this beginning of `TRACE`.
pub(crate) fn replies_to(trace: &[u8]) -> &'static [u8] {
    first_lines(whole_lines(trace).saturating_sub(1))
}

/// Whether the bytes are the report of `TRACE`, and then this line.
pub(crate) fn is_report(bytes: &[u8], line: &[u8]) -> bool {
    match bytes.strip_prefix(REPORT) {
        Some(rest) => rest == line,
        None => false,
    }
}
