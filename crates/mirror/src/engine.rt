// The engine, by value: its sources, and the framer that mirrors what they hand over.
ghost use Rattle.std.specs.Prelude.{◌≡◌};
ghost use Rattle.codec.specs.Number.{Below};
ghost use Rattle.mirror.specs.Call.{beside};
ghost use Rattle.mirror.specs.Engine.{no_sources, fresh_engine, index_of, cause_of, discards_of, failures_of};

use bus::source::Source;
use codec::ident::Kind;
use codec::time::Millis;
use framer::cause::{Cause, check};
use framer::framer::Framer;

#[derive(Clone, Copy)]
pub struct Engine {
    // how many sources there are, 0 before setup: no Option, so that one soundness rule serves before and after
    pub count: usize,
    pub sources: [Source; 8],
    pub framer: Framer,
}

// What a call comes to: the engine after it, and the answer with what stands beside it. A refusal leaves the engine as it was.
#[derive(Clone, Copy)]
pub struct Outcome<T> {
    pub engine: Engine,
    pub answer: Result<T, Cause>,
}

// The number beside an answer (a filter's, a frame's length, a count, nanoseconds): 0 beside a refusal.
pub fn beside(answer: Result<u64, Cause>) -> u64
    ensures { result ≡ beside (λ n. n) answer }
{
    answer.unwrap_or(0)
}

#[tactic(auto, unfolding(crate::specs::Engine::no_sources))]
pub(crate) fn no_sources() -> [Source; 8]
    ensures { result ≡ no_sources }
{
    let none = bus::source::fresh(Kind::Can, 0);
    [none; 8]
}

// Before setup there are no sources; the limits are the least, and nothing can reach them.
#[tactic(auto, unfolding(crate::specs::Engine::fresh_engine))]
pub fn fresh() -> Engine
    ensures { result ≡ fresh_engine }
{
    Engine {
        count: 0,
        sources: no_sources(),
        framer: framer::framer::empty(32, 1, Millis(0)),
    }
}

// The place of a source; a number past the eighth has none of its own and is refused by its cause. No Option, since 7 goes
// before that cause.
#[tactic(auto, unfolding(crate::specs::Engine::index_of))]
pub(crate) fn index(source: u64) -> usize
    ensures { Below (index_of source) 8 result }
{
    if source < 8 { source as usize } else { 0 }
}

impl Engine {
    // The one soundness rule, 19 before all: it looks at counters alone.
    #[tactic(auto, unfolding(crate::specs::Engine::cause_of, crate::specs::Engine::sound_of))]
    pub(crate) fn sound(self) -> Result<(), Cause>
        ensures { result ≡ cause_of self (Ok tt) }
    {
        check(
            (self.count <= 8) & self.framer.meter.sound(),
            Cause::Unsound,
        )
    }

    #[tactic(auto, unfolding(crate::specs::Engine::cause_of, crate::specs::Engine::discards_of))]
    pub fn discards(self) -> Result<u32, Cause>
        ensures { result ≡ discards_of self }
    {
        self.sound()?;
        Ok(self.framer.meter.discards)
    }

    #[tactic(auto, unfolding(crate::specs::Engine::cause_of, crate::specs::Engine::failures_of))]
    pub fn failures(self) -> Result<u32, Cause>
        ensures { result ≡ failures_of self }
    {
        self.sound()?;
        Ok(self.framer.meter.failures)
    }

    // A refusal changes nothing.
    pub(crate) fn refused<T>(self, cause: Cause) -> Outcome<T>
        ensures { result ≡ record { engine = self; answer = Err cause } }
    {
        Outcome {
            engine: self,
            answer: Err(cause),
        }
    }
}
