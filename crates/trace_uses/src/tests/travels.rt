//! Buffers that travel: batches are sent, linked and taken, desks are retired and adopted again.
use super::rows::gives;
use trace_audit::End;

/// Owners 7, 11 and 27 are 3,1,0 and 3,2,0 and 3,2,1 in digits of 2 bits: the last buffer is passed
/// on twice.
#[test]
fn a_buffer_is_passed_on(rt: HostRuntime) {
    gives(
        &rt,
        "pool 64 8 2\nadopt 0 0\nadopt 7 1\nadopt 11 2\nadopt 27 3\nclaim 7 15\n\
        claim 11 15\nclaim 27 15\nalloc 7 512\nalloc 11 512\nalloc 27 512\n\
        free 0 0.0\nfree 0 1.0\nfree 0 2.0\nsend 0 7\nlink 1\ntake 7\nsend 7 11\n\
        link 2\ntake 11\nsend 11 27\nlink 3\ntake 27\n",
        End::Whole,
        "ok\nok\nok\nok\nchunk 0\nchunk 1\nchunk 2\nslot 0.0\nslot 1.0\n\
        slot 2.0\ncached\ncached\ncached\nbatch 1 3\nok\nhome 1 on 2\n\
        batch 2 2\nok\nhome 1 on 1\nbatch 3 1\nok\nhome 1 on 0\n\
        desk 7 home 8 cached 0 queued 0\ndesk 11 home 8 cached 0 queued 0\n\
        desk 27 home 8 cached 0 queued 0\nend chunks 3 lent 0 home 24 cached 0 queued 0\n",
    );
}

#[test]
fn nothing_is_passed_on_with_one_digit(rt: HostRuntime) {
    gives(
        &rt,
        "pool 64 8 6\nadopt 0 0\nadopt 7 1\nadopt 11 2\nadopt 27 3\nclaim 7 15\n\
        claim 11 15\nclaim 27 15\nalloc 7 512\nalloc 11 512\nalloc 27 512\n\
        free 0 0.0\nfree 0 1.0\nfree 0 2.0\nsend 0 7\nlink 1\ntake 7\nsend 0 11\n\
        link 2\ntake 11\nsend 0 27\nlink 3\ntake 27\n",
        End::Whole,
        "ok\nok\nok\nok\nchunk 0\nchunk 1\nchunk 2\nslot 0.0\nslot 1.0\n\
        slot 2.0\ncached\ncached\ncached\nbatch 1 1\nok\nhome 1 on 0\n\
        batch 2 1\nok\nhome 1 on 0\nbatch 3 1\nok\nhome 1 on 0\n\
        desk 7 home 8 cached 0 queued 0\ndesk 11 home 8 cached 0 queued 0\n\
        desk 27 home 8 cached 0 queued 0\nend chunks 3 lent 0 home 24 cached 0 queued 0\n",
    );
}

/// Desk 17 is 1,1 and desk 33 is 1,2.
#[test]
fn two_digits_of_four_bits(rt: HostRuntime) {
    gives(
        &rt,
        "pool 64 8 4\nadopt 0 0\nadopt 17 1\nadopt 33 2\nclaim 17 0\nclaim 33 0\n\
        alloc 17 1\nalloc 33 1\nfree 0 0.0\nfree 0 1.0\nsend 0 17\nlink 1\n\
        take 17\nsend 17 33\nlink 2\ntake 33\n",
        End::Whole,
        "ok\nok\nok\nchunk 0\nchunk 1\nslot 0.0\nslot 1.0\ncached\ncached\n\
        batch 1 2\nok\nhome 1 on 1\nbatch 2 1\nok\nhome 1 on 0\n\
        desk 17 home 256 cached 0 queued 0\ndesk 33 home 256 cached 0 queued 0\n\
        end chunks 2 lent 0 home 512 cached 0 queued 0\n",
    );
}

#[test]
fn sends_are_refused(rt: HostRuntime) {
    gives(
        &rt,
        "pool 64 8 2\nadopt 0 0\nadopt 27 1\nclaim 27 15\nalloc 27 500\n\
        free 0 0.0\nsend 0 3\nsend 0 2\nsend 0 0\nsend 0 64\nsend 3 0\n",
        End::Whole,
        "ok\nok\nchunk 0\nslot 0.0\ncached\nR09 NotAnOwner\nR08 NothingFor\n\
        R10 ToSelf\nR01 NoDesk\nR02 Idle\ndesk 0 home 0 cached 1 queued 0\n\
        desk 27 home 7 cached 0 queued 0\nend chunks 1 lent 0 home 7 cached 1 queued 0\n",
    );
}

/// The batch at the front has to be linked before any is taken, in whatever order the links come.
#[test]
fn a_batch_waits_for_those_before_it(rt: HostRuntime) {
    gives(
        &rt,
        "pool 3 1 2\nadopt 0 0\nadopt 1 1\nadopt 2 2\nclaim 2 15\nalloc 2 512\n\
        alloc 2 512\nfree 0 0.0\nfree 1 0.1\nsend 0 2\nsend 1 2\nlink 2\ntake 2\n\
        link 1\nlink 1\nlink 9\ntake 2\ntake 2\ntake 2\nalloc 2 512\n",
        End::Whole,
        "ok\nok\nok\nchunk 0\nslot 0.0\nslot 0.1\ncached\ncached\nbatch 1 1\n\
        batch 2 1\nok\nR12 Nothing\nok\nR11 NoBatch\nR11 NoBatch\nhome 1 on 0\n\
        home 1 on 0\nR12 Nothing\nslot 0.1\ndesk 2 home 7 cached 0 queued 0\n\
        end chunks 1 lent 1 home 7 cached 0 queued 0\n",
    );
}

/// Not while something is in the cache, nor while a batch of the desk isn't linked. Batches of
/// others are no bar.
#[test]
fn desks_are_retired_and_adopted(rt: HostRuntime) {
    gives(
        &rt,
        "pool 2 1 2\nadopt 0 0\nadopt 1 7\nclaim 1 15\nalloc 1 512\nfree 0 0.0\n\
        retire 0\nsend 0 1\nretire 0\nlink 1\nretire 0\nretire 1\ntake 1\n\
        adopt 1 8\ntake 1\nalloc 1 512\nadopt 1 9\nretire 0\n",
        End::Whole,
        "ok\nok\nchunk 0\nslot 0.0\ncached\nR13 Unsettled\nbatch 1 1\n\
        R13 Unsettled\nok\nok\nok\nR02 Idle\nok\nhome 1 on 0\nslot 0.0\n\
        R14 Held\nR02 Idle\ndesk 1 home 7 cached 0 queued 0\n\
        end chunks 1 lent 1 home 7 cached 0 queued 0\n",
    );
    gives(
        &rt,
        "pool 2 1 2\nadopt 0 0\nadopt 1 1\nclaim 1 15\nalloc 1 512\nfree 0 0.0\n\
        send 0 1\nretire 1\nlink 1\nretire 0\nadopt 1 2\ntake 1\n",
        End::Whole,
        "ok\nok\nchunk 0\nslot 0.0\ncached\nbatch 1 1\nok\nok\nok\nok\n\
        home 1 on 0\ndesk 1 home 8 cached 0 queued 0\n\
        end chunks 1 lent 0 home 8 cached 0 queued 0\n",
    );
}

#[test]
fn only_lent_slots_are_freed(rt: HostRuntime) {
    gives(
        &rt,
        "pool 2 1 2\nadopt 0 0\nadopt 1 1\nclaim 1 15\nalloc 1 512\nfree 1 0.1\n\
        free 0 0.0\nfree 0 0.0\nfree 1 0.0\nsend 0 1\nfree 1 0.0\nfree 1 0.8\n\
        free 1 3.0\n",
        End::Whole,
        "ok\nok\nchunk 0\nslot 0.0\nR07 NotLent\ncached\nR07 NotLent\n\
        R07 NotLent\nbatch 1 1\nR07 NotLent\nR07 NotLent\nR07 NotLent\n\
        desk 1 home 7 cached 0 queued 1\nend chunks 1 lent 0 home 7 cached 0 queued 1\n",
    );
}

/// Desk 65 is 1,1 and desk 129 is 1,2 in digits of 6 bits.
#[test]
fn the_larger_profile(rt: HostRuntime) {
    gives(
        &rt,
        "pool2 4096 8 6\nadopt 0 0\nadopt 65 1\nadopt 129 2\nclaim 65 19\n\
        claim 129 16\nalloc 65 1024\nalloc 129 513\nfree 0 0.0\nfree 0 1.0\n\
        send 0 65\nlink 1\ntake 65\nsend 65 129\nlink 2\ntake 129\n",
        End::Whole,
        "ok\nok\nok\nchunk 0\nchunk 1\nslot 0.0\nslot 1.0\ncached\ncached\n\
        batch 1 2\nok\nhome 1 on 1\nbatch 2 1\nok\nhome 1 on 0\n\
        desk 65 home 4 cached 0 queued 0\ndesk 129 home 6 cached 0 queued 0\n\
        end chunks 2 lent 0 home 10 cached 0 queued 0\n",
    );
    gives(
        &rt,
        "pool2 1 5 2\nadopt 0 0\nclaim 0 17\nclaim 0 18\nclaim 0 20\nalloc 0 1024\n\
        alloc 0 768\nalloc 0 897\nalloc 0 1025\n",
        End::Whole,
        "ok\nchunk 0\nchunk 1\nR16 BadClass\nR04 NeedChunk\nslot 0.0\n\
        R04 NeedChunk\nR03 TooLarge\ndesk 0 home 8 cached 0 queued 0\n\
        end chunks 2 lent 1 home 8 cached 0 queued 0\n",
    );
}

#[test]
fn the_smaller_profile_has_16_classes(rt: HostRuntime) {
    gives(
        &rt,
        "pool 1 1 2\nadopt 0 0\nclaim 0 16\nalloc 0 513\n",
        End::Whole,
        "ok\nR16 BadClass\nR03 TooLarge\nend chunks 0 lent 0 home 0 cached 0 queued 0\n",
    );
}
