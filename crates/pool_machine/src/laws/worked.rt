//! Worked runs: what some lists of requests are answered, and what they are never answered.
//!
//! Each is a theorem of the definitions alone, computed by the checker. The answers were worked out by hand.
ghost use Rattle.std.specs.Prelude.{List, [], ◌∷◌, Ok, Err};
ghost use Rattle.pool_machine.specs.declared.request.Request.TheVariants.{Adopt, Retire, Claim, Alloc, Free, Send};
ghost use Rattle.pool_machine.specs.declared.request.Request.TheVariants.{Link, Take};
ghost use Rattle.pool_machine.specs.declared.reply.Reply.TheVariants.{Done, Chunk, Slot as Lent, Home, Cached, Due};
ghost use Rattle.pool_machine.specs.declared.reply.Reply.TheVariants.{Batch, Counts};
ghost use Rattle.pool_machine.specs.declared.refusal.Refusal.TheVariants.{NoDesk, Idle, TooLarge, NeedChunk, NotNeeded};
ghost use Rattle.pool_machine.specs.declared.refusal.Refusal.TheVariants.{NoChunk, NotLent, NothingFor, NotAnOwner};
ghost use Rattle.pool_machine.specs.declared.refusal.Refusal.TheVariants.{ToSelf, NoBatch, Nothing, Unsettled, Held};
ghost use Rattle.pool_machine.specs.declared.refusal.Refusal.TheVariants.{BadClass};
ghost use Rattle.pool_machine.specs.Refusals.{slot_named};
ghost use Rattle.pool_machine.specs.Worked.{pool, pool2, Allows, Forbids};

/// A pool of one desk: a slot is lent, freed by its owner, and at home again.
pub fn lending()
    ensures answers { Allows (pool 1 1 2) (
        (Adopt 0 5, Ok Done) ∷ (Claim 0 0, Ok (Chunk 0)) ∷ (Alloc 0 16, Ok (Lent (slot_named (0, 0)))) ∷
        (Free 0 (0, 0), Ok Home) ∷ []) }
    ensures never { Forbids (pool 1 1 2) (
        (Adopt 0 5, Ok Done) ∷ (Claim 0 0, Ok (Chunk 0)) ∷ (Alloc 0 16, Ok (Lent (slot_named (0, 0)))) ∷
        (Free 0 (0, 0), Ok Cached) ∷ []) }
{}

/// The least class is taken, class 0 for no byte at all; above 512 bytes there is none.
pub fn classes()
    ensures answers { Allows (pool 1 2 2) (
        (Adopt 0 0, Ok Done) ∷ (Alloc 0 0, Err NeedChunk) ∷ (Claim 0 0, Ok (Chunk 0)) ∷ (Claim 0 15, Ok (Chunk 1)) ∷
        (Alloc 0 0, Ok (Lent (slot_named (0, 0)))) ∷ (Alloc 0 512, Ok (Lent (slot_named (1, 0)))) ∷
        (Alloc 0 513, Err TooLarge) ∷ []) }
    ensures never { Forbids (pool 1 2 2) (
        (Adopt 0 0, Ok Done) ∷ (Alloc 0 0, Err NeedChunk) ∷ (Claim 0 0, Ok (Chunk 0)) ∷ (Claim 0 15, Ok (Chunk 1)) ∷
        (Alloc 0 0, Ok (Lent (slot_named (1, 0)))) ∷ []) }
{}

/// What stands against a claim.
pub fn claims()
    ensures answers { Allows (pool 1 1 2) (
        (Adopt 0 0, Ok Done) ∷ (Claim 0 15, Ok (Chunk 0)) ∷ (Claim 0 15, Err NotNeeded) ∷ (Claim 0 14, Err NoChunk) ∷
        (Claim 0 16, Err BadClass) ∷ (Claim 1 0, Err NoDesk) ∷ []) }
    ensures never { Forbids (pool 1 1 2) (
        (Adopt 0 0, Ok Done) ∷ (Claim 0 15, Ok (Chunk 0)) ∷ (Claim 0 14, Ok (Chunk 0)) ∷ []) }
{}

/// Desk 0 frees a slot of each of three owners. They go to desk 7 in one batch, two of them on to
/// desk 11, and one of these on to desk 27.
pub fn passing_on()
    ensures answers { Allows (pool 64 8 2) (
        (Adopt 0 0, Ok Done) ∷ (Adopt 7 1, Ok Done) ∷ (Adopt 11 2, Ok Done) ∷ (Adopt 27 3, Ok Done) ∷
        (Claim 7 15, Ok (Chunk 0)) ∷ (Claim 11 15, Ok (Chunk 1)) ∷ (Claim 27 15, Ok (Chunk 2)) ∷
        (Alloc 7 512, Ok (Lent (slot_named (0, 0)))) ∷ (Alloc 11 512, Ok (Lent (slot_named (1, 0)))) ∷
        (Alloc 27 512, Ok (Lent (slot_named (2, 0)))) ∷ (Free 0 (0, 0), Ok Cached) ∷ (Free 0 (1, 0), Ok Cached) ∷
        (Free 0 (2, 0), Ok Cached) ∷ (Send 0 7, Ok (Batch 1 3)) ∷ (Link 1, Ok Done) ∷ (Take 7, Ok (Counts 1 2)) ∷
        (Send 7 11, Ok (Batch 2 2)) ∷ (Link 2, Ok Done) ∷ (Take 11, Ok (Counts 1 1)) ∷ (Send 11 27, Ok (Batch 3 1)) ∷
        (Link 3, Ok Done) ∷ (Take 27, Ok (Counts 1 0)) ∷ []) }
    ensures never { Forbids (pool 64 8 2) (
        (Adopt 0 0, Ok Done) ∷ (Adopt 7 1, Ok Done) ∷ (Adopt 11 2, Ok Done) ∷ (Adopt 27 3, Ok Done) ∷
        (Claim 7 15, Ok (Chunk 0)) ∷ (Claim 11 15, Ok (Chunk 1)) ∷ (Claim 27 15, Ok (Chunk 2)) ∷
        (Alloc 7 512, Ok (Lent (slot_named (0, 0)))) ∷ (Alloc 11 512, Ok (Lent (slot_named (1, 0)))) ∷
        (Alloc 27 512, Ok (Lent (slot_named (2, 0)))) ∷ (Free 0 (0, 0), Ok Cached) ∷ (Free 0 (1, 0), Ok Cached) ∷
        (Free 0 (2, 0), Ok Cached) ∷ (Send 0 7, Ok (Batch 1 3)) ∷ (Link 1, Ok Done) ∷ (Take 7, Ok (Counts 3 0)) ∷ []) }
{}

/// With one digit of 6 bits each owner has a batch of its own, and nothing is passed on.
pub fn one_digit()
    ensures answers { Allows (pool 64 8 6) (
        (Adopt 0 0, Ok Done) ∷ (Adopt 7 1, Ok Done) ∷ (Adopt 11 2, Ok Done) ∷ (Adopt 27 3, Ok Done) ∷
        (Claim 7 15, Ok (Chunk 0)) ∷ (Claim 11 15, Ok (Chunk 1)) ∷ (Claim 27 15, Ok (Chunk 2)) ∷
        (Alloc 7 512, Ok (Lent (slot_named (0, 0)))) ∷ (Alloc 11 512, Ok (Lent (slot_named (1, 0)))) ∷
        (Alloc 27 512, Ok (Lent (slot_named (2, 0)))) ∷ (Free 0 (0, 0), Ok Cached) ∷ (Free 0 (1, 0), Ok Cached) ∷
        (Free 0 (2, 0), Ok Cached) ∷ (Send 0 7, Ok (Batch 1 1)) ∷ (Link 1, Ok Done) ∷ (Take 7, Ok (Counts 1 0)) ∷
        (Send 0 11, Ok (Batch 2 1)) ∷ (Link 2, Ok Done) ∷ (Take 11, Ok (Counts 1 0)) ∷ (Send 0 27, Ok (Batch 3 1)) ∷
        (Link 3, Ok Done) ∷ (Take 27, Ok (Counts 1 0)) ∷ []) }
    ensures never { Forbids (pool 64 8 6) (
        (Adopt 0 0, Ok Done) ∷ (Adopt 7 1, Ok Done) ∷ (Adopt 11 2, Ok Done) ∷ (Adopt 27 3, Ok Done) ∷
        (Claim 7 15, Ok (Chunk 0)) ∷ (Claim 11 15, Ok (Chunk 1)) ∷ (Claim 27 15, Ok (Chunk 2)) ∷
        (Alloc 7 512, Ok (Lent (slot_named (0, 0)))) ∷ (Alloc 11 512, Ok (Lent (slot_named (1, 0)))) ∷
        (Alloc 27 512, Ok (Lent (slot_named (2, 0)))) ∷ (Free 0 (0, 0), Ok Cached) ∷ (Free 0 (1, 0), Ok Cached) ∷
        (Free 0 (2, 0), Ok Cached) ∷ (Send 0 7, Ok (Batch 1 3)) ∷ []) }
{}

/// Digits of 4 bits: 17 and 33 share the first, so one batch goes to 17, and half of it on to 33.
pub fn two_digits()
    ensures answers { Allows (pool 64 8 4) (
        (Adopt 0 0, Ok Done) ∷ (Adopt 17 1, Ok Done) ∷ (Adopt 33 2, Ok Done) ∷ (Claim 17 0, Ok (Chunk 0)) ∷
        (Claim 33 0, Ok (Chunk 1)) ∷ (Alloc 17 1, Ok (Lent (slot_named (0, 0)))) ∷
        (Alloc 33 1, Ok (Lent (slot_named (1, 0)))) ∷ (Free 0 (0, 0), Ok Cached) ∷ (Free 0 (1, 0), Ok Cached) ∷
        (Send 0 17, Ok (Batch 1 2)) ∷ (Link 1, Ok Done) ∷ (Take 17, Ok (Counts 1 1)) ∷ (Send 17 33, Ok (Batch 2 1)) ∷
        (Link 2, Ok Done) ∷ (Take 33, Ok (Counts 1 0)) ∷ []) }
    ensures never { Forbids (pool 64 8 4) (
        (Adopt 0 0, Ok Done) ∷ (Adopt 17 1, Ok Done) ∷ (Adopt 33 2, Ok Done) ∷ (Claim 17 0, Ok (Chunk 0)) ∷
        (Claim 33 0, Ok (Chunk 1)) ∷ (Alloc 17 1, Ok (Lent (slot_named (0, 0)))) ∷
        (Alloc 33 1, Ok (Lent (slot_named (1, 0)))) ∷ (Free 0 (0, 0), Ok Cached) ∷ (Free 0 (1, 0), Ok Cached) ∷
        (Send 0 17, Ok (Batch 1 2)) ∷ (Link 1, Ok Done) ∷ (Take 17, Ok (Counts 2 0)) ∷ []) }
{}

/// What stands against a send.
pub fn sends()
    ensures answers { Allows (pool 64 8 2) (
        (Adopt 0 0, Ok Done) ∷ (Adopt 27 1, Ok Done) ∷ (Claim 27 15, Ok (Chunk 0)) ∷
        (Alloc 27 500, Ok (Lent (slot_named (0, 0)))) ∷ (Free 0 (0, 0), Ok Cached) ∷ (Send 0 3, Err NotAnOwner) ∷
        (Send 0 2, Err NothingFor) ∷ (Send 0 0, Err ToSelf) ∷ (Send 0 64, Err NoDesk) ∷ (Send 3 0, Err Idle) ∷ []) }
    ensures never { Forbids (pool 64 8 2) (
        (Adopt 0 0, Ok Done) ∷ (Adopt 27 1, Ok Done) ∷ (Claim 27 15, Ok (Chunk 0)) ∷
        (Alloc 27 500, Ok (Lent (slot_named (0, 0)))) ∷ (Free 0 (0, 0), Ok Cached) ∷ (Send 0 3, Err NothingFor) ∷ []) }
{}

/// Two desks send to a third. The front of the inbox, which is not linked yet, is not passed by.
pub fn links()
    ensures answers { Allows (pool 3 1 2) (
        (Adopt 0 0, Ok Done) ∷ (Adopt 1 1, Ok Done) ∷ (Adopt 2 2, Ok Done) ∷ (Claim 2 15, Ok (Chunk 0)) ∷
        (Alloc 2 512, Ok (Lent (slot_named (0, 0)))) ∷ (Alloc 2 512, Ok (Lent (slot_named (0, 1)))) ∷
        (Free 0 (0, 0), Ok Cached) ∷ (Free 1 (0, 1), Ok Cached) ∷ (Send 0 2, Ok (Batch 1 1)) ∷
        (Send 1 2, Ok (Batch 2 1)) ∷ (Link 2, Ok Done) ∷ (Take 2, Err Nothing) ∷ (Link 1, Ok Done) ∷
        (Link 1, Err NoBatch) ∷ (Link 9, Err NoBatch) ∷ (Take 2, Ok (Counts 1 0)) ∷ (Take 2, Ok (Counts 1 0)) ∷
        (Take 2, Err Nothing) ∷ (Alloc 2 512, Ok (Lent (slot_named (0, 1)))) ∷ []) }
    ensures never { Forbids (pool 3 1 2) (
        (Adopt 0 0, Ok Done) ∷ (Adopt 1 1, Ok Done) ∷ (Adopt 2 2, Ok Done) ∷ (Claim 2 15, Ok (Chunk 0)) ∷
        (Alloc 2 512, Ok (Lent (slot_named (0, 0)))) ∷ (Alloc 2 512, Ok (Lent (slot_named (0, 1)))) ∷
        (Free 0 (0, 0), Ok Cached) ∷ (Free 1 (0, 1), Ok Cached) ∷ (Send 0 2, Ok (Batch 1 1)) ∷
        (Send 1 2, Ok (Batch 2 1)) ∷ (Link 2, Ok Done) ∷ (Take 2, Ok (Counts 1 0)) ∷ []) }
{}

/// A desk is not retired while its cache has a slot or a batch of it has to be linked.
pub fn retiring()
    ensures answers { Allows (pool 2 1 2) (
        (Adopt 0 0, Ok Done) ∷ (Adopt 1 7, Ok Done) ∷ (Claim 1 15, Ok (Chunk 0)) ∷
        (Alloc 1 512, Ok (Lent (slot_named (0, 0)))) ∷ (Free 0 (0, 0), Ok Cached) ∷ (Retire 0, Err Unsettled) ∷
        (Send 0 1, Ok (Batch 1 1)) ∷ (Retire 0, Err Unsettled) ∷ (Link 1, Ok Done) ∷ (Retire 0, Ok Done) ∷
        (Retire 1, Ok Done) ∷ (Take 1, Err Idle) ∷ (Adopt 1 8, Ok Done) ∷ (Take 1, Ok (Counts 1 0)) ∷
        (Alloc 1 512, Ok (Lent (slot_named (0, 0)))) ∷ (Adopt 1 9, Err Held) ∷ (Retire 0, Err Idle) ∷ []) }
    ensures never { Forbids (pool 2 1 2) (
        (Adopt 0 0, Ok Done) ∷ (Adopt 1 7, Ok Done) ∷ (Claim 1 15, Ok (Chunk 0)) ∷
        (Alloc 1 512, Ok (Lent (slot_named (0, 0)))) ∷ (Free 0 (0, 0), Ok Cached) ∷ (Retire 0, Err Unsettled) ∷
        (Send 0 1, Ok (Batch 1 1)) ∷ (Retire 0, Ok Done) ∷ []) }
{}

/// Only a lent slot is freed.
pub fn frees()
    ensures answers { Allows (pool 2 1 2) (
        (Adopt 0 0, Ok Done) ∷ (Adopt 1 1, Ok Done) ∷ (Claim 1 15, Ok (Chunk 0)) ∷
        (Alloc 1 512, Ok (Lent (slot_named (0, 0)))) ∷ (Free 1 (0, 1), Err NotLent) ∷ (Free 0 (0, 0), Ok Cached) ∷
        (Free 0 (0, 0), Err NotLent) ∷ (Free 1 (0, 0), Err NotLent) ∷ (Send 0 1, Ok (Batch 1 1)) ∷
        (Free 1 (0, 0), Err NotLent) ∷ (Free 1 (0, 8), Err NotLent) ∷ (Free 1 (3, 0), Err NotLent) ∷ []) }
    ensures never { Forbids (pool 2 1 2) (
        (Adopt 0 0, Ok Done) ∷ (Adopt 1 1, Ok Done) ∷ (Claim 1 15, Ok (Chunk 0)) ∷
        (Alloc 1 512, Ok (Lent (slot_named (0, 0)))) ∷ (Free 1 (0, 1), Err NotLent) ∷ (Free 0 (0, 0), Ok Cached) ∷
        (Free 0 (0, 0), Ok Home) ∷ []) }
{}

/// An inbox waits while its desk is idle, and its adopter takes what is there.
pub fn adopting()
    ensures answers { Allows (pool 2 1 2) (
        (Adopt 0 0, Ok Done) ∷ (Adopt 1 1, Ok Done) ∷ (Claim 1 15, Ok (Chunk 0)) ∷
        (Alloc 1 512, Ok (Lent (slot_named (0, 0)))) ∷ (Free 0 (0, 0), Ok Cached) ∷ (Send 0 1, Ok (Batch 1 1)) ∷
        (Retire 1, Ok Done) ∷ (Link 1, Ok Done) ∷ (Retire 0, Ok Done) ∷ (Adopt 1 2, Ok Done) ∷
        (Take 1, Ok (Counts 1 0)) ∷ []) }
    ensures never { Forbids (pool 2 1 2) (
        (Adopt 0 0, Ok Done) ∷ (Adopt 1 1, Ok Done) ∷ (Claim 1 15, Ok (Chunk 0)) ∷
        (Alloc 1 512, Ok (Lent (slot_named (0, 0)))) ∷ (Free 0 (0, 0), Ok Cached) ∷ (Send 0 1, Ok (Batch 1 1)) ∷
        (Retire 1, Ok Done) ∷ (Link 1, Ok Done) ∷ (Retire 0, Ok Done) ∷ (Adopt 1 2, Ok Done) ∷ (Take 1, Err Nothing) ∷
        []) }
{}

/// Eight slots of 512 bytes fill a cache of 4,096 bytes, and the ninth makes it due.
pub fn a_due_cache()
    ensures answers { Allows (pool 2 2 2) (
        (Adopt 0 0, Ok Done) ∷ (Adopt 1 1, Ok Done) ∷ (Claim 1 15, Ok (Chunk 0)) ∷
        (Alloc 1 512, Ok (Lent (slot_named (0, 0)))) ∷ (Alloc 1 512, Ok (Lent (slot_named (0, 1)))) ∷
        (Alloc 1 512, Ok (Lent (slot_named (0, 2)))) ∷ (Alloc 1 512, Ok (Lent (slot_named (0, 3)))) ∷
        (Alloc 1 512, Ok (Lent (slot_named (0, 4)))) ∷ (Alloc 1 512, Ok (Lent (slot_named (0, 5)))) ∷
        (Alloc 1 512, Ok (Lent (slot_named (0, 6)))) ∷ (Alloc 1 512, Ok (Lent (slot_named (0, 7)))) ∷
        (Claim 1 15, Ok (Chunk 1)) ∷ (Alloc 1 512, Ok (Lent (slot_named (1, 0)))) ∷ (Free 0 (0, 0), Ok Cached) ∷
        (Free 0 (0, 1), Ok Cached) ∷ (Free 0 (0, 2), Ok Cached) ∷ (Free 0 (0, 3), Ok Cached) ∷
        (Free 0 (0, 4), Ok Cached) ∷ (Free 0 (0, 5), Ok Cached) ∷ (Free 0 (0, 6), Ok Cached) ∷
        (Free 0 (0, 7), Ok Cached) ∷ (Free 0 (1, 0), Ok Due) ∷ []) }
    ensures never { Forbids (pool 2 2 2) (
        (Adopt 0 0, Ok Done) ∷ (Adopt 1 1, Ok Done) ∷ (Claim 1 15, Ok (Chunk 0)) ∷
        (Alloc 1 512, Ok (Lent (slot_named (0, 0)))) ∷ (Alloc 1 512, Ok (Lent (slot_named (0, 1)))) ∷
        (Alloc 1 512, Ok (Lent (slot_named (0, 2)))) ∷ (Alloc 1 512, Ok (Lent (slot_named (0, 3)))) ∷
        (Alloc 1 512, Ok (Lent (slot_named (0, 4)))) ∷ (Alloc 1 512, Ok (Lent (slot_named (0, 5)))) ∷
        (Alloc 1 512, Ok (Lent (slot_named (0, 6)))) ∷ (Alloc 1 512, Ok (Lent (slot_named (0, 7)))) ∷
        (Claim 1 15, Ok (Chunk 1)) ∷ (Alloc 1 512, Ok (Lent (slot_named (1, 0)))) ∷ (Free 0 (0, 0), Ok Cached) ∷
        (Free 0 (0, 1), Ok Cached) ∷ (Free 0 (0, 2), Ok Cached) ∷ (Free 0 (0, 3), Ok Cached) ∷
        (Free 0 (0, 4), Ok Cached) ∷ (Free 0 (0, 5), Ok Cached) ∷ (Free 0 (0, 6), Ok Cached) ∷
        (Free 0 (0, 7), Ok Due) ∷ []) }
{}

/// Numbers of 12 bits in two digits: 65 and 129 share the first.
pub fn passing_on_in_pool2()
    ensures answers { Allows (pool2 4096 8 6) (
        (Adopt 0 0, Ok Done) ∷ (Adopt 65 1, Ok Done) ∷ (Adopt 129 2, Ok Done) ∷ (Claim 65 19, Ok (Chunk 0)) ∷
        (Claim 129 16, Ok (Chunk 1)) ∷ (Alloc 65 1024, Ok (Lent (slot_named (0, 0)))) ∷
        (Alloc 129 513, Ok (Lent (slot_named (1, 0)))) ∷ (Free 0 (0, 0), Ok Cached) ∷ (Free 0 (1, 0), Ok Cached) ∷
        (Send 0 65, Ok (Batch 1 2)) ∷ (Link 1, Ok Done) ∷ (Take 65, Ok (Counts 1 1)) ∷ (Send 65 129, Ok (Batch 2 1)) ∷
        (Link 2, Ok Done) ∷ (Take 129, Ok (Counts 1 0)) ∷ []) }
    ensures never { Forbids (pool2 4096 8 6) (
        (Adopt 0 0, Ok Done) ∷ (Adopt 65 1, Ok Done) ∷ (Adopt 129 2, Ok Done) ∷ (Claim 65 19, Ok (Chunk 0)) ∷
        (Claim 129 16, Ok (Chunk 1)) ∷ (Alloc 65 1024, Ok (Lent (slot_named (0, 0)))) ∷
        (Alloc 129 513, Ok (Lent (slot_named (1, 0)))) ∷ (Free 0 (0, 0), Ok Cached) ∷ (Free 0 (1, 0), Ok Cached) ∷
        (Send 0 65, Ok (Batch 1 1)) ∷ []) }
{}

/// The second profile has classes 0 to 19, of up to 1,024 bytes.
pub fn classes_of_pool2()
    ensures answers { Allows (pool2 1 5 2) (
        (Adopt 0 0, Ok Done) ∷ (Claim 0 17, Ok (Chunk 0)) ∷ (Claim 0 18, Ok (Chunk 1)) ∷ (Claim 0 20, Err BadClass) ∷
        (Alloc 0 1024, Err NeedChunk) ∷ (Alloc 0 768, Ok (Lent (slot_named (0, 0)))) ∷ (Alloc 0 897, Err NeedChunk) ∷
        (Alloc 0 1025, Err TooLarge) ∷ []) }
    ensures never { Forbids (pool2 1 5 2) (
        (Adopt 0 0, Ok Done) ∷ (Claim 0 17, Err BadClass) ∷ []) }
{}

/// The first profile has none of these classes.
pub fn classes_of_pool()
    ensures answers { Allows (pool 1 1 2) (
        (Adopt 0 0, Ok Done) ∷ (Claim 0 16, Err BadClass) ∷ (Alloc 0 513, Err TooLarge) ∷ []) }
    ensures never { Forbids (pool 1 1 2) (
        (Adopt 0 0, Ok Done) ∷ (Claim 0 16, Ok (Chunk 0)) ∷ []) }
{}
