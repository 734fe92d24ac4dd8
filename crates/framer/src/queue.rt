// Closed frames that wait: eight slots of 1,024 bytes.
ghost use Rattle.std.specs.Prelude.{◌≡◌, ◌≤◌, length};
ghost use Rattle.codec.specs.Number.{Below};
ghost use Rattle.framer.specs.Queue.{empty_queue, held, queued, length_at};

// The frame is the first `length` bytes, since there is no heap; no invariant says that they are there, since a caller may
// hand in any engine value (`length_at` cuts).
#[derive(Clone, Copy)]
pub struct Slot {
    pub bytes: [u8; 1024],
    pub length: u16,
}

#[derive(Clone, Copy)]
pub struct Queue {
    pub slots: [Slot; 8],
}

#[tactic(auto, unfolding(crate::specs::Queue::empty_queue))]
pub(crate) fn empty_queue() -> Queue
    ensures { result ≡ empty_queue }
{
    let slot = Slot {
        bytes: [0; 1024],
        length: 0,
    };
    Queue { slots: [slot; 8] }
}

impl Slot {
    // The frame at the front; later bytes stay, and are none of it.
    #[tactic(auto, unfolding(crate::specs::Queue::held))]
    fn hold(mut self, frame: &[u8]) -> Slot
        requires { length frame.now ≤ 1024 }
        ensures { result ≡ held self frame.now }
    {
        codec::number::put_bytes(&mut self.bytes, 0, frame);
        self.length = frame.len() as u16;
        self
    }
}

impl Queue {
    // A frame that no slot holds is not put.
    #[tactic(auto, unfolding(crate::specs::Queue::queued))]
    pub(crate) fn put(mut self, k: usize, frame: &[u8]) -> Queue
        ensures { result ≡ queued self k frame.now }
    {
        if frame.len() <= 1024 && k <= 7 {
            self.slots[k] = self.slots[k].hold(frame);
        }
        self
    }

    // No frame is longer than its slot.
    #[tactic(auto, unfolding(crate::specs::Queue::length_at))]
    pub(crate) fn length_at(self, k: usize) -> usize
        ensures { Below (length_at self k) 1025 result }
    {
        if 7 < k {
            return 0;
        }
        usize::from(self.slots[k].length).min(1024)
    }
}
