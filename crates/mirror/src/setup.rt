// Setup, switch and offline.
ghost use Rattle.std.specs.Prelude.{◌≡◌, map, ◌≤◌, length, drop};
ghost use Rattle.bus.specs.Source.{reset_source};
ghost use Rattle.mirror.specs.Setup.{kind_numbered, source_numbered, pair_ok, named_again, pairs_ok, sources_ok, named, reset_of, setup_cause, setup_of, switch_cause, switch_of, offline_of};

use crate::engine::{Engine, Outcome};
use bus::source::Source;
use codec::ident::Kind;
use codec::time::Millis;
use framer::cause::{Cause, check};

// Network type 1, 2 or 3; the caller has refused every other, so that the refusal of `Kind::try_from` would go nowhere.
#[tactic(auto, unfolding(crate::specs::Setup::kind_numbered))]
fn kind_numbered(n: u32) -> Kind
    ensures { result ≡ kind_numbered n }
{
    match n {
        1 => Kind::Can,
        2 => Kind::Lin,
        _ => Kind::FlexRay,
    }
}

#[tactic(auto, unfolding(crate::specs::Setup::source_numbered))]
fn source_numbered(kind: u32, id: u32) -> Source
    ensures { result ≡ source_numbered kind id }
{
    bus::source::fresh(kind_numbered(kind), codec::number::low8(id as u64))
}

#[tactic(auto, unfolding(crate::specs::Setup::pair_ok))]
fn pair_ok(kind: u32, id: u32) -> bool
    ensures { result ≡ pair_ok kind id }
{
    (1 <= kind) & (kind <= 3) & (id <= 255)
}

// The library has no pairs of a slice, so these three take them off the front; `named` counts their place beside.
// The kind and id stand among the pairs.
fn named_again(pairs: &[u32], kind: u32, id: u32) -> bool
    ensures { result ≡ named_again kind id pairs.now }
{
    let mut rest = pairs;
    while let [k, i, after @ ..] = rest {
        if (*k == kind) & (*i == id) {
            return true;
        }
        rest = after;
    }
    false
}

// Every pair is in range and names what no later pair names.
fn pairs_ok(pairs: &[u32]) -> bool
    ensures { result ≡ pairs_ok pairs.now }
{
    let mut rest = pairs;
    while let [kind, id, after @ ..] = rest {
        if !pair_ok(*kind, *id) {
            return false;
        }
        if named_again(after, *kind, *id) {
            return false;
        }
        rest = after;
    }
    rest.is_empty()
}

// One to eight pairs.
#[tactic(auto, unfolding(crate::specs::Setup::sources_ok))]
fn sources_ok(pairs: &[u32]) -> bool
    ensures { result ≡ sources_ok pairs.now }
{
    pairs.len() <= 16 && 2 <= pairs.len() && pairs_ok(pairs)
}

// The sources that the pairs name, from place 0 on.
fn named(pairs: &[u32], none: [Source; 8]) -> [Source; 8]
    requires { length pairs.now ≤ 16 }
    ensures { result ≡ named 0 pairs.now none }
{
    let mut sources = none;
    let mut k: usize = 0;
    let mut rest = pairs;
    while let [kind, id, after @ ..] = rest {
        sources[k] = source_numbered(*kind, *id);
        k += 1;
        rest = after;
    }
    sources
}

// Every source as after setup.
fn reset_all(before: [Source; 8]) -> [Source; 8]
    ensures { result ≡ map reset_source before }
{
    before.map(|s| s.reset())
}

impl Engine {
    #[tactic(auto, unfolding(crate::specs::Setup::setup_cause, crate::specs::Engine::cause_of))]
    fn may_set_up(self, size: u64, room: u64, deadline: u64, pairs: &[u32]) -> Result<(), Cause>
        ensures { result ≡ setup_cause self size room deadline pairs.now }
    {
        self.sound()?;
        let limits = framer::meter::limits_ok(size, room, deadline);
        check(
            (self.count == 0) & limits & sources_ok(pairs),
            Cause::BadSetup,
        )
    }

    // Three numbers of any size, as the call has them: what is out of range is refused, and a type of those in range is narrower.
    // Kind and id in turn, since an odd count is refused with 14, and a slice of pairs would exclude it.
    #[tactic(auto, unfolding(crate::specs::Setup::setup_of))]
    pub fn setup(mut self, size: u64, room: u64, deadline: u64, pairs: &[u32]) -> Outcome<()>
        ensures { result ≡ setup_of self size room deadline pairs.now }
    {
        if let Err(cause) = self.may_set_up(size, room, deadline, pairs) {
            return self.refused(cause);
        }
        self.count = pairs.len() / 2;
        self.sources = named(pairs, crate::engine::no_sources());
        self.framer = framer::framer::empty(size as usize, room as usize, Millis(deadline as u16));
        Outcome {
            engine: self,
            answer: Ok(()),
        }
    }

    fn reset(mut self, size: usize, room: usize, deadline: Millis) -> Engine
        ensures { result ≡ reset_of self size room deadline }
    {
        self.sources = reset_all(self.sources);
        self.framer = framer::framer::empty(size, room, deadline);
        self
    }

    #[tactic(auto, unfolding(crate::specs::Setup::switch_cause, crate::specs::Engine::cause_of))]
    fn may_switch(self, size: u64, room: u64, deadline: u64) -> Result<(), Cause>
        ensures { result ≡ switch_cause self size room deadline }
    {
        self.sound()?;
        let limits = framer::meter::limits_ok(size, room, deadline);
        check((self.count != 0) & limits, Cause::BadSetup)
    }

    #[tactic(auto, unfolding(crate::specs::Setup::switch_of))]
    pub fn switch(self, size: u64, room: u64, deadline: u64) -> Outcome<()>
        ensures { result ≡ switch_of self size room deadline }
    {
        if let Err(cause) = self.may_switch(size, room, deadline) {
            return self.refused(cause);
        }
        Outcome {
            engine: self.reset(size as usize, room as usize, Millis(deadline as u16)),
            answer: Ok(()),
        }
    }

    #[tactic(auto, unfolding(crate::specs::Setup::offline_of))]
    pub fn offline(self) -> Outcome<()>
        ensures { result ≡ offline_of self }
    {
        let answer = self.sound();
        if answer.is_err() | (self.count == 0) {
            return Outcome {
                engine: self,
                answer,
            };
        }
        let m = self.framer.meter;
        Outcome {
            engine: self.reset(m.size, m.room, m.deadline),
            answer,
        }
    }
}
