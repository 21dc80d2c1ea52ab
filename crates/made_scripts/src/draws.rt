// Numbers that follow from a seed, one after another.
ghost use Rattle.std.specs.Prelude.{◌≡◌, ◌<◌};
ghost use Rattle.made_scripts.specs.Making.{drawn, next};

/// The state from which the next number is drawn.
#[derive(Drop)]
pub(crate) struct Draws {
    /// The seed before the first draw.
    pub state: u32,
}

impl Draws {
    /// The next number below a bound. The low bits of the state repeat soon, so they aren't used.
    #[tactic(auto, unfolding(crate::specs::Making::drawn))]
    pub(crate) fn below(&mut self, bound: u32) -> u32
        requires { 0 < bound }
        ensures state { self.new.state ≡ next self.old.state }
        ensures number { result ≡ drawn (next self.old.state) bound }
        ensures below { result < bound }
    {
        self.state = next(self.state);
        (self.state / 65_536) % bound
    }
}

#[tactic(auto, unfolding(crate::specs::Making::next))]
fn next(state: u32) -> u32
    ensures { result ≡ next state }
{
    let stepped = u64::from(state) * 1_103_515_245 + 12_345;
    (stepped % 2_147_483_648) as u32
}
