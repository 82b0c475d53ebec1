//! The pool's interface for programs in C, on threads of their own.
//!
//! C owns the storage of pools, allocators, buffers' handles and bursts. Each export lends what lies there to one call
//! of `seated_desk`, and C has it back when the call ends. The exports behind "The exports." and their proofs are
//! written by `tools/walks.py`, from its table.
#![tactic(auto)]

ghost use Rattle.std.specs.Prelude.{ℕ, List, ◌^◌, ◌<◌};
ghost use Rattle.std.specs.Borrow.{sem, full_share, u8, Array};
ghost use Rattle.std.specs.Ptr.{lies_at};
ghost use Rattle.fustrevol_c.specs.Places.{pool_at, pool_room, allocator_at, allocator_room, buf_at, buf_room, burst_at, burst_room, span_at};
ghost use Rattle.fustrevol_c.specs.Places.{pool_row, allocator_row, buf_row, burst_row, span_row, PoolValue, AllocatorValue, BufValue, BurstValue, SpanValue};
ghost use Rattle.seated_desk.specs.Bursts.{OpensBurst, Fills, TakesBurst, PutsIn, TakesLast, TellsCount, TellsSpan};
ghost use Rattle.seated_desk.specs.Handles.{LendsInto, TakesOut, SetsFilled, TellsCapacity, TellsFilled};
ghost use Rattle.seated_desk.specs.Shelves.{Opens, HandsOut, TakesBack, Closes};
ghost use Rattle.seated_desk.specs.Stats.{Collects, Flushes, TellsPoolStat, TellsStat};

use seated_desk::{AllocatorHandle, BufHandle, BurstHandle, Pool, Span};
use std::alloc::Global;

/// What C keeps a pool in.
pub struct FvPool {
    _bytes: u8,
}

/// What C keeps an allocator in.
pub struct FvAllocator {
    _bytes: u8,
}

/// What C keeps a buffer's handle in.
pub struct FvBuf {
    _bytes: u8,
}

/// What C keeps a burst in.
pub struct FvBurst {
    _bytes: u8,
}

/// What C is told in where bytes lie.
pub struct FvSpan {
    _bytes: u8,
}

// The exports.
/// Makes a pool that is not open.
#[unsafe(no_mangle)]
pub unsafe extern "C" fn fv_pool_init(alloc: Global, pool: *mut FvPool)
    requires* { sem 𝓛 (pool_room pool) }
    ensures* { sem 𝓛 (pool_at pool) }
{
    let made = Pool::new(alloc);
    unsafe { std::ptr::write(pool as *mut Pool<'static>, made) };
}

/// Makes an allocator that is not attached to a pool.
#[unsafe(no_mangle)]
pub unsafe extern "C" fn fv_allocator_init(allocator: *mut FvAllocator)
    requires* { sem 𝓛 (allocator_room allocator) }
    ensures* { sem 𝓛 (allocator_at allocator) }
{
    let made = AllocatorHandle::new();
    unsafe { std::ptr::write(allocator as *mut AllocatorHandle<'static>, made) };
}

/// Makes a handle that holds no buffer.
#[unsafe(no_mangle)]
pub unsafe extern "C" fn fv_buf_init(buf: *mut FvBuf)
    requires* { sem 𝓛 (buf_room buf) }
    ensures* { sem 𝓛 (buf_at buf) }
{
    let made = BufHandle::new();
    unsafe { std::ptr::write(buf as *mut BufHandle<'static>, made) };
}

/// Makes a burst that is not open.
#[unsafe(no_mangle)]
pub unsafe extern "C" fn fv_burst_init(burst: *mut FvBurst)
    requires* { sem 𝓛 (burst_room burst) }
    ensures* { sem 𝓛 (burst_at burst) }
{
    let made = BurstHandle::new();
    unsafe { std::ptr::write(burst as *mut BurstHandle<'static>, made) };
}

/// Opens the pool of this number over a region, which is lent for good: 0, or why not.
#[unsafe(no_mangle)]
pub unsafe extern "C" fn fv_pool_open_numbered(
    pool: *mut FvPool,
    at: *mut u8,
    len: usize,
    allocators: u32,
    bits: u32,
    limit: u64,
    number: u64,
) -> u32
    ghost before: { List ℕ × PoolValue }
    requires* { sem 𝓛 (lies_at pool_row full_share pool before.1) ∗ (sem 𝓛 (lies_at (Array u8 len) full_share at before.0) ∗ ⌜ len < 2 ^ 63 ⌝) }
    ensures* { ∃ₛ (λ (after : PoolValue). sem 𝓛 (lies_at pool_row full_share pool after) ∗ ⌜ Opens number result before.1 after ⌝) }
{
    let pool = unsafe { &mut *(pool as *mut Pool<'static>) };
    let region = unsafe { std::slice::from_raw_parts_mut(at, len) };
    pool.open(region, allocators, bits, limit, number)
}

/// Hands an allocator of the pool out: 0, or why not.
#[unsafe(no_mangle)]
pub unsafe extern "C" fn fv_pool_attach(pool: *mut FvPool, allocator: *mut FvAllocator) -> u32
    ghost before: { PoolValue × AllocatorValue }
    requires* { sem 𝓛 (lies_at pool_row full_share pool before.0) ∗ sem 𝓛 (lies_at allocator_row full_share allocator before.1) }
    ensures* { ∃ₛ (λ (after : PoolValue × AllocatorValue). sem 𝓛 (lies_at pool_row full_share pool after.0) ∗ (sem 𝓛 (lies_at allocator_row full_share allocator after.1) ∗ ⌜ HandsOut result before.0 after.0 before.1 after.1 ⌝)) }
{
    let pool = unsafe { &mut *(pool as *mut Pool<'static>) };
    let allocator = unsafe { &mut *(allocator as *mut AllocatorHandle<'static>) };
    pool.attach(allocator)
}

/// Takes an allocator back: 0, or why not.
#[unsafe(no_mangle)]
pub unsafe extern "C" fn fv_pool_detach(pool: *mut FvPool, allocator: *mut FvAllocator) -> u32
    ghost before: { PoolValue × AllocatorValue }
    requires* { sem 𝓛 (lies_at pool_row full_share pool before.0) ∗ sem 𝓛 (lies_at allocator_row full_share allocator before.1) }
    ensures* { ∃ₛ (λ (after : PoolValue × AllocatorValue). sem 𝓛 (lies_at pool_row full_share pool after.0) ∗ (sem 𝓛 (lies_at allocator_row full_share allocator after.1) ∗ ⌜ TakesBack result before.0 after.0 before.1 after.1 ⌝)) }
{
    let pool = unsafe { &mut *(pool as *mut Pool<'static>) };
    let allocator = unsafe { &mut *(allocator as *mut AllocatorHandle<'static>) };
    pool.detach(allocator)
}

/// Audits the pool and ends it: 0, or what is wrong.
#[unsafe(no_mangle)]
pub unsafe extern "C" fn fv_pool_close(pool: *mut FvPool) -> u32
    ghost before: { PoolValue }
    requires* { sem 𝓛 (lies_at pool_row full_share pool before) }
    ensures* { ∃ₛ (λ (after : PoolValue). sem 𝓛 (lies_at pool_row full_share pool after) ∗ ⌜ Closes result before after ⌝) }
{
    let pool = unsafe { &mut *(pool as *mut Pool<'static>) };
    pool.close()
}

/// A number about the pool.
#[unsafe(no_mangle)]
pub unsafe extern "C" fn fv_pool_stat(pool: *mut FvPool, which: u32) -> u64
    ghost before: { PoolValue }
    requires* { sem 𝓛 (lies_at pool_row full_share pool before) }
    ensures* { ∃ₛ (λ (after : PoolValue). sem 𝓛 (lies_at pool_row full_share pool after) ∗ ⌜ TellsPoolStat which result before after ⌝) }
{
    let pool = unsafe { &mut *(pool as *mut Pool<'static>) };
    pool.stat(which)
}

/// Lends a buffer of at least so many bytes: 0, or why not.
#[unsafe(no_mangle)]
pub unsafe extern "C" fn fv_alloc(allocator: *mut FvAllocator, buf: *mut FvBuf, size: usize) -> u32
    ghost before: { AllocatorValue × BufValue }
    requires* { sem 𝓛 (lies_at allocator_row full_share allocator before.0) ∗ sem 𝓛 (lies_at buf_row full_share buf before.1) }
    ensures* { ∃ₛ (λ (after : AllocatorValue × BufValue). sem 𝓛 (lies_at allocator_row full_share allocator after.0) ∗ (sem 𝓛 (lies_at buf_row full_share buf after.1) ∗ ⌜ LendsInto size result before.0 after.0 before.1 after.1 ⌝)) }
{
    let allocator = unsafe { &mut *(allocator as *mut AllocatorHandle<'static>) };
    let buf = unsafe { &mut *(buf as *mut BufHandle<'static>) };
    allocator.alloc(buf, size)
}

/// Takes a buffer back, at any allocator of its pool: 0, or why not.
#[unsafe(no_mangle)]
pub unsafe extern "C" fn fv_free(allocator: *mut FvAllocator, buf: *mut FvBuf) -> u32
    ghost before: { AllocatorValue × BufValue }
    requires* { sem 𝓛 (lies_at allocator_row full_share allocator before.0) ∗ sem 𝓛 (lies_at buf_row full_share buf before.1) }
    ensures* { ∃ₛ (λ (after : AllocatorValue × BufValue). sem 𝓛 (lies_at allocator_row full_share allocator after.0) ∗ (sem 𝓛 (lies_at buf_row full_share buf after.1) ∗ ⌜ TakesOut result before.0 after.0 before.1 after.1 ⌝)) }
{
    let allocator = unsafe { &mut *(allocator as *mut AllocatorHandle<'static>) };
    let buf = unsafe { &mut *(buf as *mut BufHandle<'static>) };
    allocator.free(buf)
}

/// Takes what came home, and posts all that is cached: 0, or why not.
#[unsafe(no_mangle)]
pub unsafe extern "C" fn fv_flush(allocator: *mut FvAllocator) -> u32
    ghost before: { AllocatorValue }
    requires* { sem 𝓛 (lies_at allocator_row full_share allocator before) }
    ensures* { ∃ₛ (λ (after : AllocatorValue). sem 𝓛 (lies_at allocator_row full_share allocator after) ∗ ⌜ Flushes result before after ⌝) }
{
    let allocator = unsafe { &mut *(allocator as *mut AllocatorHandle<'static>) };
    allocator.flush()
}

/// Takes what came home: 0, or why nothing was taken.
#[unsafe(no_mangle)]
pub unsafe extern "C" fn fv_collect(allocator: *mut FvAllocator) -> u32
    ghost before: { AllocatorValue }
    requires* { sem 𝓛 (lies_at allocator_row full_share allocator before) }
    ensures* { ∃ₛ (λ (after : AllocatorValue). sem 𝓛 (lies_at allocator_row full_share allocator after) ∗ ⌜ Collects result before after ⌝) }
{
    let allocator = unsafe { &mut *(allocator as *mut AllocatorHandle<'static>) };
    allocator.collect()
}

/// A number about the allocator.
#[unsafe(no_mangle)]
pub unsafe extern "C" fn fv_allocator_stat(allocator: *mut FvAllocator, which: u32) -> u64
    ghost before: { AllocatorValue }
    requires* { sem 𝓛 (lies_at allocator_row full_share allocator before) }
    ensures* { ∃ₛ (λ (after : AllocatorValue). sem 𝓛 (lies_at allocator_row full_share allocator after) ∗ ⌜ TellsStat which result before after ⌝) }
{
    let allocator = unsafe { &mut *(allocator as *mut AllocatorHandle<'static>) };
    allocator.stat(which)
}

/// How many bytes the buffer has; 0 where the handle holds none.
#[unsafe(no_mangle)]
pub unsafe extern "C" fn fv_buf_capacity(buf: *mut FvBuf) -> u64
    ghost before: { BufValue }
    requires* { sem 𝓛 (lies_at buf_row full_share buf before) }
    ensures* { ∃ₛ (λ (after : BufValue). sem 𝓛 (lies_at buf_row full_share buf after) ∗ ⌜ TellsCapacity result before after ⌝) }
{
    let buf = unsafe { &mut *(buf as *mut BufHandle<'static>) };
    buf.capacity()
}

/// How many bytes count as filled; 0 where the handle holds none.
#[unsafe(no_mangle)]
pub unsafe extern "C" fn fv_buf_len(buf: *mut FvBuf) -> u64
    ghost before: { BufValue }
    requires* { sem 𝓛 (lies_at buf_row full_share buf before) }
    ensures* { ∃ₛ (λ (after : BufValue). sem 𝓛 (lies_at buf_row full_share buf after) ∗ ⌜ TellsFilled result before after ⌝) }
{
    let buf = unsafe { &mut *(buf as *mut BufHandle<'static>) };
    buf.len()
}

/// Says how many bytes count as filled: 0, or why not.
#[unsafe(no_mangle)]
pub unsafe extern "C" fn fv_buf_set_len(buf: *mut FvBuf, len: usize) -> u32
    ghost before: { BufValue }
    requires* { sem 𝓛 (lies_at buf_row full_share buf before) }
    ensures* { ∃ₛ (λ (after : BufValue). sem 𝓛 (lies_at buf_row full_share buf after) ∗ ⌜ SetsFilled len result before after ⌝) }
{
    let buf = unsafe { &mut *(buf as *mut BufHandle<'static>) };
    buf.set_len(len)
}

/// Opens an empty burst for buffers of the allocator: 0, or why not.
#[unsafe(no_mangle)]
pub unsafe extern "C" fn fv_burst_open(
    allocator: *mut FvAllocator,
    burst: *mut FvBurst,
    places: usize,
) -> u32
    ghost before: { AllocatorValue × BurstValue }
    requires* { sem 𝓛 (lies_at allocator_row full_share allocator before.0) ∗ sem 𝓛 (lies_at burst_row full_share burst before.1) }
    ensures* { ∃ₛ (λ (after : AllocatorValue × BurstValue). sem 𝓛 (lies_at allocator_row full_share allocator after.0) ∗ (sem 𝓛 (lies_at burst_row full_share burst after.1) ∗ ⌜ OpensBurst places result before.0 after.0 before.1 after.1 ⌝)) }
{
    let allocator = unsafe { &mut *(allocator as *mut AllocatorHandle<'static>) };
    let burst = unsafe { &mut *(burst as *mut BurstHandle<'static>) };
    allocator.open(burst, places)
}

/// Lends so many buffers into a burst: 0, or why not all of them.
#[unsafe(no_mangle)]
pub unsafe extern "C" fn fv_burst_fill(
    allocator: *mut FvAllocator,
    burst: *mut FvBurst,
    size: usize,
    count: usize,
) -> u32
    ghost before: { AllocatorValue × BurstValue }
    requires* { sem 𝓛 (lies_at allocator_row full_share allocator before.0) ∗ sem 𝓛 (lies_at burst_row full_share burst before.1) }
    ensures* { ∃ₛ (λ (after : AllocatorValue × BurstValue). sem 𝓛 (lies_at allocator_row full_share allocator after.0) ∗ (sem 𝓛 (lies_at burst_row full_share burst after.1) ∗ ⌜ Fills size count result before.0 after.0 before.1 after.1 ⌝)) }
{
    let allocator = unsafe { &mut *(allocator as *mut AllocatorHandle<'static>) };
    let burst = unsafe { &mut *(burst as *mut BurstHandle<'static>) };
    allocator.fill(burst, size, count)
}

/// Takes all buffers of a burst back: 0, or why not.
#[unsafe(no_mangle)]
pub unsafe extern "C" fn fv_burst_free(allocator: *mut FvAllocator, burst: *mut FvBurst) -> u32
    ghost before: { AllocatorValue × BurstValue }
    requires* { sem 𝓛 (lies_at allocator_row full_share allocator before.0) ∗ sem 𝓛 (lies_at burst_row full_share burst before.1) }
    ensures* { ∃ₛ (λ (after : AllocatorValue × BurstValue). sem 𝓛 (lies_at allocator_row full_share allocator after.0) ∗ (sem 𝓛 (lies_at burst_row full_share burst after.1) ∗ ⌜ TakesBurst result before.0 after.0 before.1 after.1 ⌝)) }
{
    let allocator = unsafe { &mut *(allocator as *mut AllocatorHandle<'static>) };
    let burst = unsafe { &mut *(burst as *mut BurstHandle<'static>) };
    allocator.free_all(burst)
}

/// Puts a buffer at the end of a burst of its allocator: 0, or why not.
#[unsafe(no_mangle)]
pub unsafe extern "C" fn fv_burst_push(burst: *mut FvBurst, buf: *mut FvBuf) -> u32
    ghost before: { BurstValue × BufValue }
    requires* { sem 𝓛 (lies_at burst_row full_share burst before.0) ∗ sem 𝓛 (lies_at buf_row full_share buf before.1) }
    ensures* { ∃ₛ (λ (after : BurstValue × BufValue). sem 𝓛 (lies_at burst_row full_share burst after.0) ∗ (sem 𝓛 (lies_at buf_row full_share buf after.1) ∗ ⌜ PutsIn result before.0 after.0 before.1 after.1 ⌝)) }
{
    let burst = unsafe { &mut *(burst as *mut BurstHandle<'static>) };
    let buf = unsafe { &mut *(buf as *mut BufHandle<'static>) };
    burst.push(buf)
}

/// Takes the last buffer out of a burst: 0, or why not.
#[unsafe(no_mangle)]
pub unsafe extern "C" fn fv_burst_pop(burst: *mut FvBurst, buf: *mut FvBuf) -> u32
    ghost before: { BurstValue × BufValue }
    requires* { sem 𝓛 (lies_at burst_row full_share burst before.0) ∗ sem 𝓛 (lies_at buf_row full_share buf before.1) }
    ensures* { ∃ₛ (λ (after : BurstValue × BufValue). sem 𝓛 (lies_at burst_row full_share burst after.0) ∗ (sem 𝓛 (lies_at buf_row full_share buf after.1) ∗ ⌜ TakesLast result before.0 after.0 before.1 after.1 ⌝)) }
{
    let burst = unsafe { &mut *(burst as *mut BurstHandle<'static>) };
    let buf = unsafe { &mut *(buf as *mut BufHandle<'static>) };
    burst.pop(buf)
}

/// How many buffers the burst has; 0 where it is not open.
#[unsafe(no_mangle)]
pub unsafe extern "C" fn fv_burst_len(burst: *mut FvBurst) -> u64
    ghost before: { BurstValue }
    requires* { sem 𝓛 (lies_at burst_row full_share burst before) }
    ensures* { ∃ₛ (λ (after : BurstValue). sem 𝓛 (lies_at burst_row full_share burst after) ∗ ⌜ TellsCount result before after ⌝) }
{
    let burst = unsafe { &mut *(burst as *mut BurstHandle<'static>) };
    burst.len()
}

/// Tells where the bytes of a buffer of the burst lie: 0, or why not.
#[unsafe(no_mangle)]
pub unsafe extern "C" fn fv_burst_at(burst: *mut FvBurst, span: *mut FvSpan, index: usize) -> u32
    ghost before: { BurstValue × SpanValue }
    requires* { sem 𝓛 (lies_at burst_row full_share burst before.0) ∗ sem 𝓛 (lies_at span_row full_share span before.1) }
    ensures* { ∃ₛ (λ (after : BurstValue × SpanValue). sem 𝓛 (lies_at burst_row full_share burst after.0) ∗ (sem 𝓛 (lies_at span_row full_share span after.1) ∗ ⌜ TellsSpan index result before.0 after.0 before.1 after.1 ⌝)) }
{
    let burst = unsafe { &mut *(burst as *mut BurstHandle<'static>) };
    let span = unsafe { &mut *(span as *mut Span) };
    burst.span(span, index)
}

/// How many bytes a pool takes.
#[unsafe(no_mangle)]
pub extern "C" fn fv_pool_size() -> usize {
    std::mem::size_of::<Pool<'static>>()
}

/// How many bytes an allocator takes.
#[unsafe(no_mangle)]
pub extern "C" fn fv_allocator_size() -> usize {
    std::mem::size_of::<AllocatorHandle<'static>>()
}

/// How many bytes a buffer's handle takes.
#[unsafe(no_mangle)]
pub extern "C" fn fv_buf_size() -> usize {
    std::mem::size_of::<BufHandle<'static>>()
}

/// How many bytes a burst takes.
#[unsafe(no_mangle)]
pub extern "C" fn fv_burst_size() -> usize {
    std::mem::size_of::<BurstHandle<'static>>()
}
