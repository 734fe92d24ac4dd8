// A source: what it is, its state byte, what of it was shown, and its eight filter places.
ghost use Rattle.std.specs.Prelude.{◌≡◌};
ghost use Rattle.framer.specs.Cause.{gives};
ghost use Rattle.bus.specs.Source.{fresh_source, reset_source, started_source, stopped_source, passes, free_at, free_in, add_cause, added_filter, remove_cause, removed_filter, due, tick_due, state_offer, calmed};

use crate::filter::{Addition, Filter};
use codec::ident::{Ident, Kind};
use framer::cause::{Cause, check};
use framer::offer::Offer;

#[derive(Clone, Copy)]
pub struct Source {
    pub kind: Kind,
    pub network: u8,
    pub started: bool,
    // the current state byte without bit 7, and whether it is known; no Option, since an item that tells a loss shows
    // the byte also while it is not known
    pub state: u8,
    pub known: bool,
    // the state byte shown last
    pub shown: Option<u8>,
    // a report was accepted since the last tick
    pub heard: bool,
    pub places: [Filter; 8],
}

#[tactic(auto, unfolding(crate::specs::Source::fresh_source))]
pub fn fresh(kind: Kind, network: u8) -> Source
    ensures { result ≡ fresh_source kind network }
{
    Source {
        kind,
        network,
        started: false,
        state: 0,
        known: false,
        shown: None,
        heard: false,
        places: [Filter::Free; 8],
    }
}

impl Source {
    #[tactic(auto, unfolding(crate::specs::Source::reset_source))]
    pub fn reset(self) -> Source
        ensures { result ≡ reset_source self }
    {
        fresh(self.kind, self.network)
    }

    #[tactic(auto, unfolding(crate::specs::Source::started_source))]
    pub fn start(mut self) -> Source
        ensures { result ≡ started_source self }
    {
        self.started = true;
        self.state = 0;
        self.known = false;
        self.shown = None;
        self
    }

    #[tactic(auto, unfolding(crate::specs::Source::stopped_source))]
    pub fn stop(mut self) -> Source
        ensures { result ≡ stopped_source self }
    {
        self.started = false;
        self
    }

    // The kind of id decides once what its places are asked. Each of the two walks has one call here: with two, the
    // compiler would keep a walk apart and copy the source for it.
    pub fn passes(self, id: Ident) -> bool
        ensures { result ≡ passes self.places id }
    {
        let places = self.places;
        let key = match id {
            Ident::Can(key) => key,
            Ident::Lin(pid) => (pid & 63) as u32,
            Ident::FlexRay { slot, cycle, .. } => {
                return crate::filter::slot_passes(places, slot, cycle);
            }
            Ident::FlexRayError(_) | Ident::Bare(_) => return false,
        };
        crate::filter::key_passes(places, key)
    }

    // The lowest free place.
    pub fn free_place(self) -> Option<usize>
        ensures { result ≡ free_in self.places }
    {
        self.places
            .iter()
            .position(|filter| crate::filter::is_free(*filter))
    }

    // 2, 4, 9, 10; else the place that a filter gets, which is its number.
    #[tactic(auto, unfolding(crate::specs::Source::add_cause, crate::specs::Source::free_in, crate::specs::Filter::same_kind))]
    pub fn place_for(self, count: usize, a: Addition) -> Result<usize, Cause>
        ensures { result ≡ gives (add_cause count self a) (free_at self.places) }
    {
        check(a.source < count as u64, Cause::NoSource)?;
        check(self.kind == a.kind, Cause::OtherKind)?;
        check(a.good, Cause::BadFilter)?;
        self.free_place().ok_or(Cause::NoPlace)
    }

    // The filter goes to the lowest free place, if there is one.
    #[tactic(auto, unfolding(crate::specs::Source::added_filter, crate::specs::Source::free_in))]
    pub fn add_filter(mut self, filter: Filter) -> Source
        ensures { result ≡ added_filter self filter }
    {
        if let Some(k) = self.free_place() {
            self.places[k] = filter;
        }
        self
    }

    #[tactic(auto, unfolding(crate::specs::Source::remove_cause))]
    pub fn remove_cause(self, number: u64) -> Result<(), Cause>
        ensures { result ≡ remove_cause self number }
    {
        check(number < 8, Cause::NoFilter)?;
        check(
            !crate::filter::is_free(self.places[number as usize]),
            Cause::NoFilter,
        )
    }

    #[tactic(auto, unfolding(crate::specs::Source::removed_filter))]
    pub fn remove_filter(mut self, number: u64) -> Source
        ensures { result ≡ removed_filter self number }
    {
        if number < 8 {
            self.places[number as usize] = Filter::Free;
        }
        self
    }

    // Known, and never shown or not what was shown last.
    #[tactic(auto, unfolding(crate::specs::Source::due))]
    pub fn due(self) -> bool
        ensures { result ≡ due self }
    {
        self.known & (self.shown != Some(self.state))
    }

    #[tactic(auto, unfolding(crate::specs::Source::tick_due))]
    pub fn tick_due(self) -> bool
        ensures { result ≡ tick_due self }
    {
        self.started & self.due() & !self.heard
    }

    #[tactic(auto, unfolding(crate::specs::Source::state_offer))]
    pub fn state_offer(self) -> Offer
        ensures { result ≡ state_offer self }
    {
        Offer {
            network: self.network,
            ident: Ident::Bare(self.kind),
            carries: false,
            state: self.state,
            due: true,
        }
    }

    // What a tick leaves of the source, whether or not it showed its state.
    #[tactic(auto, unfolding(crate::specs::Source::calmed))]
    pub fn calm(mut self) -> Source
        ensures { result ≡ calmed self }
    {
        if self.tick_due() {
            self.shown = Some(self.state);
        }
        self.heard = false;
        self
    }
}
