// The 24 calls of the engine in three parts: how many of them answer 19. A call counts as at most one, so that no sum
// overflows.
ghost use Rattle.std.specs.Prelude.{◌≤◌};

use codec::time::Time;
use framer::cause::Cause;
use mirror::engine::Engine;

fn tally<T: Drop>(answer: Result<T, Cause>) -> u64
    ensures { result ≤ 1 }
{
    match answer {
        Err(Cause::Unsound) => 1,
        _ => 0,
    }
}

fn now() -> Time {
    Time { sec: 16, nano: 1 }
}

fn first(e: Engine) -> u64
    ensures { result ≤ 9 }
{
    let mut n = tally(e.setup(64, 2, 10, &[1, 5]).answer);
    n += tally(e.switch(64, 2, 10).answer);
    n += tally(e.offline().answer);
    n += tally(e.start(0).answer);
    n += tally(e.stop(0).answer);
    n += tally(e.remove(0, 0).answer);
    n += tally(e.failed().answer);
    n += tally(e.discards());
    n += tally(e.failures());
    n
}

fn second(e: Engine) -> u64
    ensures { result ≤ 8 }
{
    let mut n = tally(e.can(0, now(), 291, b"\x01").answer);
    n += tally(e.lin(1, now(), 125, 0, b"\x01").answer);
    n += tally(e.flexray(2, now(), 1, 1, 0, b"\x01").answer);
    n += tally(e.conflict(2, now(), 1, 1, 0).answer);
    n += tally(e.flexray_error(2, now(), 1, 8).answer);
    n += tally(e.can_state(0, true, false, false, 0).answer);
    n += tally(e.lin_state(1, true).answer);
    n += tally(e.flexray_state(2, true, 0).answer);
    n
}

fn third(e: Engine) -> u64
    ensures { result ≤ 7 }
{
    let mut out = [0xEE; 1024];
    let mut n = tally(e.can_mask(0, 0, 0).answer);
    n += tally(e.can_range(0, 0, 1).answer);
    n += tally(e.lin_mask(1, 0, 0).answer);
    n += tally(e.lin_range(1, 0, 1).answer);
    n += tally(e.slots(2, 0, 1, 0, 1, 1).answer);
    n += tally(e.tick(now()).answer);
    n += tally(e.take(&mut out).answer);
    n
}

pub(crate) fn refused(e: Engine) -> u64 {
    first(e) + second(e) + third(e)
}
