// The sender says that the frame last taken was not sent: 17.
ghost use Rattle.std.specs.Prelude.{◌≡◌};
ghost use Rattle.mirror.specs.Failed.{failed_cause, failed_of};

use crate::engine::{Engine, Outcome};
use framer::cause::{Cause, check};

impl Engine {
    #[tactic(auto, unfolding(crate::specs::Failed::failed_cause, crate::specs::Engine::cause_of))]
    fn may_fail(self) -> Result<(), Cause>
        ensures { result ≡ failed_cause self }
    {
        self.sound()?;
        check(self.framer.meter.out, Cause::NothingOut)
    }

    #[tactic(auto, unfolding(crate::specs::Failed::failed_of))]
    pub fn failed(mut self) -> Outcome<()>
        ensures { result ≡ failed_of self }
    {
        let answer = self.may_fail();
        if answer.is_ok() {
            self.framer = self.framer.fail();
        }
        Outcome {
            engine: self,
            answer,
        }
    }
}
