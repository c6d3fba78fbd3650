// States that hand table states on to those that may follow them.
ghost use Rattle.std.specs.Prelude.{◌<◌, T};
ghost use Rattle.bits.specs.Word.{bit};
ghost use Rattle.bits.specs.Sets.{Members, Over, In};
ghost use Rattle.models.specs.Model.{model_states};
ghost use Rattle.levels.specs.inner.Waves.{Sending, Sent};

use bits::rising::members;

// The states in `fresh`: each has its successors, and its table states in `front`.
#[derive(Clone, Copy)]
pub struct Senders<'a> {
    pub successors: &'a [u64],
    pub front: &'a [u64],
    pub fresh: u64,
    ghost sending: { Sending successors.now front.now fresh },
}

impl Senders<'_> {
    // What state s hands to t.
    fn sent(&self, s: usize, t: usize) -> u64
        requires { T (bit self.now.fresh s) × (t < model_states) }
        ensures { Members result (Sent self.now.successors.now self.now.front.now t s) }
    {
        if bits::has(self.successors[s], t) {
            return self.front[s];
        }
        0
    }

    // What all of them hand to t.
    pub fn gather(&self, t: usize) -> u64
        requires { t < model_states }
        ensures { Members result (λ q. Over (In self.now.fresh) (λ s. Sent self.now.successors.now self.now.front.now t s q)) }
    {
        let mut out: u64 = 0;
        for s in members(self.fresh) {
            out |= self.sent(s, t);
        }
        out
    }
}
