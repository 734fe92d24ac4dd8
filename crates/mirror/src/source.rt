// Calls that change one source alone: starting and stopping, state updates, filters.
ghost use Rattle.std.specs.Prelude.{◌≡◌, ◌<◌};
ghost use Rattle.bus.specs.Update.{can_update, lin_update, flexray_update, update_cause};
ghost use Rattle.bus.specs.Filter.{can_mask, can_range, lin_mask, lin_range, slots_of};
ghost use Rattle.framer.specs.Cause.{gives};
ghost use Rattle.bus.specs.Source.{free_at, add_cause, remove_cause};
ghost use Rattle.mirror.specs.Engine.{cause_of, source_cause};
ghost use Rattle.mirror.specs.Source.{stored_of, start_of, stop_of, update_of, add_of, remove_of};

use crate::engine::{Engine, Outcome};
use bus::filter::Addition;
use bus::source::Source;
use bus::update::Update;
use framer::cause::{Cause, check};

impl Engine {
    // The engine with another record in the place of a source, if nothing speaks against it.
    #[tactic(auto, unfolding(crate::specs::Source::stored_of))]
    fn store(mut self, k: usize, s: Source, answer: Result<(), Cause>) -> Outcome<()>
        requires { k < 8 }
        ensures { result ≡ stored_of self k s answer }
    {
        if answer.is_ok() {
            self.sources[k] = s;
        }
        Outcome {
            engine: self,
            answer,
        }
    }

    #[tactic(auto, unfolding(crate::specs::Engine::cause_of, crate::specs::Engine::source_cause))]
    fn known(self, source: u64) -> Result<(), Cause>
        ensures { result ≡ cause_of self (source_cause self source (Ok tt)) }
    {
        self.sound()?;
        check(source < self.count as u64, Cause::NoSource)
    }

    // `start` and `stop` differ in a method, and are as short as a function of both would be to call.
    #[tactic(auto, unfolding(crate::specs::Source::start_of))]
    pub fn start(self, source: u64) -> Outcome<()>
        ensures { result ≡ start_of self source }
    {
        let k = crate::engine::index(source);
        let s = self.sources[k];
        self.store(k, s.start(), self.known(source))
    }

    #[tactic(auto, unfolding(crate::specs::Source::stop_of))]
    pub fn stop(self, source: u64) -> Outcome<()>
        ensures { result ≡ stop_of self source }
    {
        let k = crate::engine::index(source);
        let s = self.sources[k];
        self.store(k, s.stop(), self.known(source))
    }

    // 2, 4, 3, 5
    #[tactic(auto, unfolding(crate::specs::Engine::cause_of))]
    fn updates(self, s: Source, u: Update) -> Result<(), Cause>
        ensures { result ≡ cause_of self (update_cause self.count s u) }
    {
        self.sound()?;
        bus::update::update_cause(self.count, s, u)
    }

    #[tactic(auto, unfolding(crate::specs::Source::update_of))]
    fn update(self, u: Update) -> Outcome<()>
        ensures { result ≡ update_of self u }
    {
        let k = crate::engine::index(u.source);
        let s = self.sources[k];
        self.store(k, bus::update::apply(s, u), self.updates(s, u))
    }

    pub fn can_state(
        self,
        source: u64,
        online: bool,
        passive: bool,
        bus_off: bool,
        counter: u32,
    ) -> Outcome<()>
        ensures { result ≡ update_of self (can_update source online passive bus_off counter) }
    {
        self.update(bus::update::can(source, online, passive, bus_off, counter))
    }

    pub fn lin_state(self, source: u64, online: bool) -> Outcome<()>
        ensures { result ≡ update_of self (lin_update source online) }
    {
        self.update(bus::update::lin(source, online))
    }

    pub fn flexray_state(self, source: u64, online: bool, bits: u32) -> Outcome<()>
        ensures { result ≡ update_of self (flexray_update source online bits) }
    {
        self.update(bus::update::flexray(source, online, bits))
    }

    // 2, 4, 9, 10; else the filter's number.
    #[tactic(auto, unfolding(crate::specs::Engine::cause_of))]
    fn adds(self, s: Source, a: Addition) -> Result<usize, Cause>
        ensures { result ≡ gives (cause_of self (add_cause self.count s a)) (free_at s.places) }
    {
        self.sound()?;
        s.place_for(self.count, a)
    }

    #[tactic(auto, unfolding(crate::specs::Source::add_of))]
    fn add(mut self, a: Addition) -> Outcome<usize>
        ensures { result ≡ add_of self a }
    {
        let k = crate::engine::index(a.source);
        let s = self.sources[k];
        let answer = self.adds(s, a);
        if answer.is_ok() {
            self.sources[k] = s.add_filter(a.filter);
        }
        Outcome {
            engine: self,
            answer,
        }
    }

    pub fn can_mask(self, source: u64, mask: u32, code: u32) -> Outcome<usize>
        ensures { result ≡ add_of self (can_mask source mask code) }
    {
        self.add(bus::filter::can_mask(source, mask, code))
    }

    pub fn can_range(self, source: u64, lower: u32, upper: u32) -> Outcome<usize>
        ensures { result ≡ add_of self (can_range source lower upper) }
    {
        self.add(bus::filter::can_range(source, lower, upper))
    }

    pub fn lin_mask(self, source: u64, mask: u32, code: u32) -> Outcome<usize>
        ensures { result ≡ add_of self (lin_mask source mask code) }
    {
        self.add(bus::filter::lin_mask(source, mask, code))
    }

    pub fn lin_range(self, source: u64, lower: u32, upper: u32) -> Outcome<usize>
        ensures { result ≡ add_of self (lin_range source lower upper) }
    {
        self.add(bus::filter::lin_range(source, lower, upper))
    }

    pub fn slots(
        self,
        source: u64,
        low: u32,
        high: u32,
        low_cycle: u32,
        high_cycle: u32,
        repetition: u32,
    ) -> Outcome<usize>
        ensures { result ≡ add_of self (slots_of source low high low_cycle high_cycle repetition) }
    {
        self.add(bus::filter::slots(source, low, high, low_cycle, high_cycle, repetition))
    }

    // 2, 11
    #[tactic(auto, unfolding(crate::specs::Engine::cause_of, crate::specs::Engine::source_cause))]
    fn removes(self, s: Source, source: u64, number: u64) -> Result<(), Cause>
        ensures { result ≡ cause_of self (source_cause self source (remove_cause s number)) }
    {
        self.known(source)?;
        s.remove_cause(number)
    }

    #[tactic(auto, unfolding(crate::specs::Source::remove_of))]
    pub fn remove(self, source: u64, number: u64) -> Outcome<()>
        ensures { result ≡ remove_of self source number }
    {
        let k = crate::engine::index(source);
        let s = self.sources[k];
        self.store(k, s.remove_filter(number), self.removes(s, source, number))
    }
}
