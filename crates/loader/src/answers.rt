// What the next step is told of the images' signatures, and what it answers.
use flash::Step;
use refusal::Refusal;

// The signature checker's answers for the two images.
#[derive(Clone, Copy)]
pub struct Signed {
    pub boot: bool,
    pub update: bool,
}

impl Signed {
    ghost use Rattle.std.specs.Prelude.{◌≡◌, cond};

    // The answers by the slots, where the two images may have changed places.
    pub fn turned(self, turns: bool) -> Signed
        ensures { result
            ≡ record { boot = cond turns self.update self.boot; update = cond turns self.boot self.update } }
    {
        if turns {
            Signed {
                boot: self.update,
                update: self.boot,
            }
        } else {
            self
        }
    }
}

// A step, the last step before booting, or a boot with why UPDATE was passed over.
#[derive(Clone, Copy)]
pub enum Answer {
    Step(Step),
    LastStep(Step),
    Boot(Option<Refusal>),
}
