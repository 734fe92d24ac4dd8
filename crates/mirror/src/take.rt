// Taking the oldest waiting frame: 13, 12.
ghost use Rattle.std.specs.Prelude.{◌≡◌, length};
ghost use Rattle.mirror.specs.Take.{taken_of, output_of};

use crate::engine::{Engine, Outcome};

impl Engine {
    // The length of the frame that was taken.
    #[tactic(auto, unfolding(crate::specs::Take::taken_of, crate::specs::Take::output_of, crate::specs::Engine::cause_of))]
    pub fn take(mut self, out: &mut [u8]) -> Outcome<usize>
        ensures value { result ≡ taken_of self (length out.old) }
        ensures out_after { out.new ≡ output_of self out.old }
    {
        if let Err(cause) = self.sound() {
            return self.refused(cause);
        }
        let taken = self.framer.take(out);
        self.framer = taken.framer;
        Outcome {
            engine: self,
            answer: taken.answer,
        }
    }
}
