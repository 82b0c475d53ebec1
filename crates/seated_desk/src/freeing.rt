//! What is freed at a station.
ghost use Rattle.seated_desk.specs.Answers.{answer_of};
ghost use Rattle.seated_desk.specs.Bursts.{FreesAll, FreesBurst};
ghost use Rattle.seated_desk.specs.Handles.{Frees, FreesFrom};
ghost use Rattle.seated_desk.specs.Kept.{KeepsStation};

use crate::buf_handle::BufHandle;
use crate::burst_handle::BurstHandle;
use crate::refusal::Refusal;
use crate::station::{MOST_DESKS, POST_EVERY, Station};
use pool_desk::Freed;
use std::mem;

impl<'r> Station<'r> {
    // Posts what is cached, unless a post was refused and little has come since.
    #[cold]
    #[inline(never)]
    fn post_again(&mut self)
        ensures { KeepsStation self.old self.new }
    {
        self.until_post = POST_EVERY;
        let cached = self.desk.cached_bytes();
        if cached == 0 || cached < self.post_from {
            return;
        }
        self.take();
        self.post();
        self.desk.make_room(self.alloc);
        let left = self.desk.cached_bytes();
        self.post_from = left.saturating_add(left / 4);
    }

    /// Takes the handle's buffer back.
    #[inline(always)]
    pub(crate) fn free(&mut self, handle: &mut BufHandle<'r>) -> Result<(), Refusal>
        ensures station { FreesFrom (answer_of result) self.old self.new handle.old }
        ensures frees { Frees self.old.pool (answer_of result) handle.old handle.new }
    {
        let Some(held) = &handle.buf else {
            return Err(Refusal::Empty);
        };
        if handle.pool != self.pool || held.owner() >= MOST_DESKS {
            return Err(Refusal::Stranger);
        }
        let Some(buf) = handle.take() else {
            return Err(Refusal::Empty);
        };
        self.since = self.since.wrapping_add(1);
        self.freed = self.freed.and(&buf);
        self.until_post = self.until_post.wrapping_sub(1);
        if self.desk.free(buf) == Freed::Due || self.until_post == 0 {
            self.post_again();
        }
        Ok(())
    }

    /// Takes back all buffers of a burst.
    pub(crate) fn free_all(&mut self, burst: &mut BurstHandle<'r>) -> Result<(), Refusal>
        ensures station { FreesBurst (answer_of result) self.old self.new burst.old }
        ensures frees { FreesAll self.old.pool (answer_of result) burst.old burst.new }
    {
        let Some(held) = &burst.parcel else {
            return Err(Refusal::Empty);
        };
        if burst.pool != self.pool || held.owner() >= MOST_DESKS {
            return Err(Refusal::Stranger);
        }
        let Some(parcel) = mem::replace(&mut burst.parcel, None) else {
            return Err(Refusal::Empty);
        };
        let count = parcel.len() as u64;
        self.since = self.since.wrapping_add(1);
        self.freed = self.freed.and_all(parcel.buffers());
        self.until_post = self.until_post.saturating_sub(count);
        if self.desk.free_all(parcel) == Freed::Due || self.until_post == 0 {
            self.post_again();
        }
        Ok(())
    }
}
