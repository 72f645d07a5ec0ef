//! Draws the numbers of a storm.

ghost use Rattle.std.specs.Prelude.{◌≡◌, ◌<◌};
ghost use Rattle.program_rules.specs.Storms.Generator.{mixed_left, mixed_right, next};

fn mixed_left(x: u64, by: u32) -> u64
    requires { by < 64 }
    ensures { result ≡ mixed_left by x }
{
    x ^ (x << by)
}

fn mixed_right(x: u64, by: u32) -> u64
    requires { by < 64 }
    ensures { result ≡ mixed_right by x }
{
    x ^ (x >> by)
}

/// A xorshift generator with 64 bits, after Marsaglia, with the shifts 13, 7 and 17.
#[derive(Drop)]
pub(crate) struct Generator {
    /// The number that was drawn last, or the seed.
    pub(crate) last: u64,
}

impl Generator {
    #[tactic(auto, unfolding(program_rules::specs::Storms::Generator::next))]
    pub(crate) fn draw(&mut self) -> u64
        ensures drawn { result ≡ next self.old.last }
        ensures kept { self.new.last ≡ next self.old.last }
    {
        self.last = mixed_left(mixed_right(mixed_left(self.last, 13), 7), 17);
        self.last
    }
}
