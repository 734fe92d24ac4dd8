// Reports: 7, 2, 4, 3, 5, 6, 1, 8.
ghost use Rattle.std.specs.Prelude.{◌≡◌, []};
ghost use Rattle.bus.specs.Report.{can_report, lin_report, frame_report, conflict_report, error_report, report_cause};
ghost use Rattle.mirror.specs.Engine.{cause_of};
ghost use Rattle.mirror.specs.Report.{report_of};

use crate::engine::{Engine, Outcome};
use bus::report::Report;
use bus::source::Source;
use codec::time::{Nanos, Time};
use framer::cause::Cause;

impl Engine {
    #[tactic(auto, unfolding(crate::specs::Engine::cause_of))]
    fn accepts(self, s: Source, r: Report, n: usize) -> Result<(), Cause>
        ensures { result ≡ cause_of self (report_cause self.count self.framer.meter.size s r n) }
    {
        self.sound()?;
        bus::report::report_cause(self.count, self.framer.meter.size, s, r, n)
    }

    #[tactic(auto, unfolding(crate::specs::Report::report_of))]
    fn report(mut self, r: Report, payload: &[u8]) -> Outcome<Nanos>
        ensures { result ≡ report_of self r payload.now }
    {
        let k = crate::engine::index(r.source);
        let s = self.sources[k];
        if let Err(cause) = self.accepts(s, r, payload.len()) {
            return self.refused(cause);
        }
        let m = self.framer.meter;
        self.framer = self.framer.add(r.time, bus::report::offer(s, r), payload);
        self.sources[k] = bus::report::settle(s, r);
        Outcome {
            engine: self,
            answer: Ok(m.back_for(r.time)),
        }
    }

    pub fn can(self, source: u64, time: Time, key: u32, payload: &[u8]) -> Outcome<Nanos>
        ensures { result ≡ report_of self (can_report source time key) payload.now }
    {
        self.report(bus::report::can(source, time, key), payload)
    }

    pub fn lin(
        self,
        source: u64,
        time: Time,
        pid: u32,
        errors: u32,
        payload: &[u8],
    ) -> Outcome<Nanos>
        ensures { result ≡ report_of self (lin_report source time pid errors) payload.now }
    {
        self.report(bus::report::lin(source, time, pid, errors), payload)
    }

    // Channels, slot and cycle stay arguments, here and in `conflict`: a struct of them would be a narrower type.
    pub fn flexray(
        self,
        source: u64,
        time: Time,
        channels: u32,
        slot: u32,
        cycle: u32,
        payload: &[u8],
    ) -> Outcome<Nanos>
        ensures { result ≡ report_of self (frame_report source time channels slot cycle) payload.now }
    {
        self.report(
            bus::report::flexray(source, time, channels, slot, cycle),
            payload,
        )
    }

    pub fn conflict(
        self,
        source: u64,
        time: Time,
        channels: u32,
        slot: u32,
        cycle: u32,
    ) -> Outcome<Nanos>
        ensures { result ≡ report_of self (conflict_report source time channels slot cycle) [] }
    {
        self.report(
            bus::report::conflict(source, time, channels, slot, cycle),
            b"",
        )
    }

    pub fn flexray_error(self, source: u64, time: Time, channels: u32, bits: u32) -> Outcome<Nanos>
        ensures { result ≡ report_of self (error_report source time channels bits) [] }
    {
        self.report(bus::report::error(source, time, channels, bits), b"")
    }
}
