//! The laws of the machine, as contracts of functions that do nothing.
//!
//! That the bytes of two slots never overlap is a law of `region_cut` (`laws::slots_share_no_byte`).
ghost use Rattle.std.specs.Prelude.{ℕ, ◌^◌, ◌<◌, ◌≤◌, List};
ghost use Rattle.region_cut.specs.declared.slot.Slot.{Slot};
ghost use Rattle.digit_route.specs.Digits.{Scheme, IsScheme, count};
ghost use Rattle.pool_machine.specs.declared.request.Request.{Request};
ghost use Rattle.pool_machine.specs.State.{State, opening};
ghost use Rattle.pool_machine.specs.Steps.{Answer, Run};
ghost use Rattle.pool_machine.specs.Forwards.{forwards};
ghost use Rattle.pool_machine.specs.Laws.{OpeningIsSound, RunsStaySound, ReachedIsSound, SoundIsOrderly};
ghost use Rattle.pool_machine.specs.Laws.{SlotsAreListed};
ghost use Rattle.pool_machine.specs.Laws.{RunsAreOrderly, RunsKeepNumbers, AnswersFixTheState, RequestsAreAnswered};
ghost use Rattle.pool_machine.specs.Laws.{RefusalsChangeNothing, LeastClassIsLeast};

pub mod worked;

/// Whatever is asked of a new pool: each slot of a drawn chunk has just one place afterwards and no other slot has one,
/// each batch that waits is well routed, and each slot was passed on fewer times than a number has digits.
pub fn runs_are_orderly()
    ensures { RunsAreOrderly }
{}

/// A run leaves how many desks and chunks there are, how numbers are read, and the limit.
pub fn runs_keep_numbers()
    ensures { RunsKeepNumbers }
{}

/// Requests and answers fix the state that they lead to.
pub fn answers_fix_the_state()
    ensures { AnswersFixTheState }
{}

/// A slot of a new pool is passed on fewer times, since it was last freed, than the number of a desk has digits.
pub fn slots_are_passed_on_seldom()
    ensures { (desks chunks : ℕ) (digits : Scheme) (limit : ℕ) → IsScheme digits → desks ≤ 2 ^ digits.bits
        → (requests : List Request) (answers : List Answer) (new : State)
        → Run (opening desks chunks digits limit) requests answers new
        → (slot : Slot) → forwards (opening desks chunks digits limit) requests answers slot 0 < count digits }
{}

/// What each step keeps holds at the beginning and after every run, so in each state that a run of a new pool leads
/// to; and whatever state it holds in is orderly.
pub fn sound_states()
    ensures opening { OpeningIsSound }
    ensures runs { RunsStaySound }
    ensures reached { ReachedIsSound }
    ensures orderly { SoundIsOrderly }
    ensures listed { SlotsAreListed }
{}

/// Every request has an answer, whatever the state: it is refused by name, or it is accepted.
pub fn requests_are_answered()
    ensures { RequestsAreAnswered }
{}

/// A refused request changes nothing.
pub fn refusals_change_nothing()
    ensures { RefusalsChangeNothing }
{}

/// The class of an allocation is the least one of the profile that is large enough.
pub fn least_class_is_least()
    ensures { LeastClassIsLeast }
{}
