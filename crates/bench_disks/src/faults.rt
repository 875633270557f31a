// The faults of a bench disk: its state, and the schedule by which it changes.
ghost use Rattle.std.specs.Prelude.{◌≡◌};
ghost use Rattle.disks.specs.Values.{On, cause_values, state_values};
ghost use Rattle.bench.specs.Schedules.{words_left};
ghost use Rattle.bench_disks.specs.Faults.{changed_by, outcome_of, step_for, meets, step_at_restart, restart_outcome};

use bench::schedule::{Schedule, Step, Verb};
use disks::cause::{Call, Cause};
use disks::state::State;

#[derive(Drop)]
pub struct Faults {
    state: State,
    schedule: Schedule,
}

// What a verb makes of a disk's state; a dead disk stays as it is.
fn change(state: &mut State, verb: Verb, cause: Cause)
    ensures { state_values state.new ≡ changed_by (state_values state.old) verb (cause_values cause) }
{
    match (*state, verb) {
        (State::Dead(_), _) => {}
        (State::On | State::Dark(_), Verb::Go) => *state = State::On,
        (State::On | State::Dark(_), Verb::CutBefore | Verb::CutAfter) => {
            *state = State::Dark(cause);
        }
        (State::On | State::Dark(_), Verb::Kill) => *state = State::Dead(cause),
    }
}

impl Faults {
    pub(crate) fn new(schedule: Schedule) -> Faults
        ensures state { state_values result.state ≡ On }
        ensures words { words_left result.schedule ≡ words_left schedule }
    {
        Faults {
            state: State::On,
            schedule,
        }
    }

    pub(crate) fn state(&self) -> State
        ensures { result ≡ self.now.state }
    {
        self.state
    }

    // The step of a read, a write or a barrier, which a disk takes only if it is on.
    pub(crate) fn meet(&mut self, cause: Cause) -> Option<Step>
        ensures outcome { (outcome_of result, state_values self.new.state) ≡ meets (state_values self.old.state) (step_for (state_values self.old.state) (words_left self.old.schedule)).0 (cause_values cause) }
        ensures words { words_left self.new.schedule ≡ (step_for (state_values self.old.state) (words_left self.old.schedule)).1 }
    {
        let State::On = self.state else {
            return None;
        };
        let step = self.schedule.next_step();
        change(&mut self.state, step.verb, cause);
        Some(step)
    }

    // The step of a restart, which a disk takes if it is on or dark. One that is on is cut first, with the pick that is given back.
    pub(crate) fn restart(&mut self) -> Option<u16>
        ensures cut { (result, state_values self.new.state) ≡ restart_outcome (state_values self.old.state) (step_at_restart (state_values self.old.state) (words_left self.old.schedule)).0 }
        ensures words { words_left self.new.schedule ≡ (step_at_restart (state_values self.old.state) (words_left self.old.schedule)).1 }
    {
        if let State::Dead(_) = self.state {
            return None;
        }
        let step = self.schedule.next_step();
        let cut = matches!(self.state, State::On).then_some(step.pick);
        change(&mut self.state, step.verb, Cause::from(Call::Restart));
        cut
    }
}
