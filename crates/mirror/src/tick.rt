// A tick: 7; then a state-only item for each source that is due, and the deadline.
ghost use Rattle.std.specs.Prelude.{◌≡◌, ◌<◌, ◌≤◌};
ghost use Rattle.mirror.specs.Tick.{tick_source, states_of, tick_cause, tick_of};

use crate::engine::{Engine, Outcome};
use codec::time::{Nanos, Time};
use framer::cause::{Cause, check};

impl Engine {
    fn tick_source(mut self, k: usize, t: Time) -> Engine
        requires { k < 8 }
        ensures { result ≡ tick_source self k t }
    {
        let s = self.sources[k];
        self.sources[k] = s.calm();
        if !s.tick_due() {
            return self;
        }
        self.framer = self.framer.add(t, s.state_offer(), b"");
        self
    }

    // In order of source number, and by number, since each source's tick changes the framer too.
    fn states(self, t: Time) -> Engine
        requires { self.count ≤ 8 }
        ensures { result ≡ states_of self.count 0 self t }
    {
        let mut e = self;
        for k in 0..self.count {
            e = e.tick_source(k, t);
        }
        e
    }

    #[tactic(auto, unfolding(crate::specs::Tick::tick_cause, crate::specs::Engine::cause_of))]
    fn may_tick(self, t: Time) -> Result<(), Cause>
        ensures { result ≡ tick_cause self t }
    {
        self.sound()?;
        check(codec::time::in_range(t), Cause::BadTime)
    }

    #[tactic(auto, unfolding(crate::specs::Tick::tick_of))]
    pub fn tick(self, t: Time) -> Outcome<Nanos>
        ensures { result ≡ tick_of self t }
    {
        if let Err(cause) = self.may_tick(t) {
            return self.refused(cause);
        }
        let m = self.framer.meter;
        let mut e = self.states(t);
        e.framer = e.framer.pass(t);
        Outcome {
            engine: e,
            answer: Ok(m.back_for(t)),
        }
    }
}
