ghost use Rattle.std.specs.Prelude.{◌≡◌, ◌<◌, ◌≤◌, None, IfSome, IfNone};
ghost use Rattle.n41_view.specs.Due.{has_ended_in, is_over_in};
ghost use Rattle.n41_view.specs.Causes.{CauseIn, any_doubt, given_in};
ghost use Rattle.n41_calls.specs.Answers.{round_limit};
ghost use Rattle.n41_calls.specs.Due.{is_dead};

use crate::lookup::Lookup;
use crate::plans::has_destroy_plan;
use crate::slots::any_doubt;
use n41_model::Phase;
use n41_types::Answer;
use n41_view::Seat;

/// So many rounds in a row without a reply end a run.
pub(crate) const ROUND_LIMIT: u64 = 16;

impl Lookup<'_> {
    /// Whether nothing is left to be put once all is answered.
    fn is_over(&self) -> bool
        ensures { result ≡ is_over_in self.now }
    {
        match (self.facts.standing, self.bare) {
            (None, _) => true,
            (Some(_), Some(_)) => false,
            (Some(_), None) => !has_destroy_plan(self.facts),
        }
    }

    /// Whether the run has ended: a reply broke the rules, or sixteen rounds in a row had no reply, or no more commands come, all are
    /// answered, and nothing is left to be given up.
    pub fn has_ended(&self) -> bool
        ensures { result ≡ has_ended_in self.now }
    {
        if matches!(self.facts.phase, Phase::Dead) || self.facts.rounds >= ROUND_LIMIT {
            return true;
        }
        self.is_finishing() && self.is_over()
    }

    /// The answer to an unanswered command that has none yet where no reply is waited for any more: that a reply broke the rules; or
    /// once sixteen rounds in a row had no reply, unknown where a changing request of the command is in doubt, and otherwise that the
    /// server could not be reached. None exactly where no reply broke the rules and fewer rounds had none.
    pub fn answer_at_end(&self, seat: &Seat) -> Option<Answer>
        requires { given_in self.now.facts.moment seat.now ≡ None }
        ensures some { IfSome result (λ a. CauseIn self.now seat.now a) }
        ensures none { IfNone result ((self.now.facts.breach_at ≡ None) × (self.now.facts.rounds < round_limit)) }
    {
        if let Some(place) = self.facts.breach_at {
            return Some(Answer::Breach(place));
        }
        if self.facts.rounds < ROUND_LIMIT {
            return None;
        }
        if seat.busy && any_doubt(self.slots, seat.caller) {
            Some(Answer::Unknown)
        } else {
            Some(Answer::Unreachable(ROUND_LIMIT))
        }
    }
}
