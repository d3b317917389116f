// Flash as document 01 has it: the geometry of its three areas, and one step carried out on lent bytes.
// Every public function is total: it answers a refusal by what it says.
#![tactic(auto)]

mod bytes;
mod geometry;
mod steps;

ghost use Rattle.std.specs.Prelude.{◌≡◌, length};
ghost use Rattle.flash.specs.Steps.{step_check, flash_after};
ghost use Rattle.refusal.specs.Numbers.{number_or_zero};

use geometry::Layout;
pub use geometry::{Geometry, check_geometry};
use refusal::Refusal;
pub use steps::Step;

// Carries a step out, or is refused (numbers 1 to 4 and 24) and changes nothing.
#[tactic(auto, using(refusal::proofs::Told::refuses), unfolding(crate::specs::Steps::step_check, crate::specs::Steps::flash_after))]
pub fn apply_step(flash: &mut [u8], g: Geometry, step: Step) -> Result<(), Refusal>
    ensures { (number_or_zero result ≡ step_check g (length flash.old) step) × (flash.new ≡ flash_after g flash.old step) }
{
    let layout = Layout::new(g, flash.len())?;
    if !layout.is_accepted(step) {
        return Err(Refusal::Step);
    }
    layout.carry_out(flash, step);
    Ok(())
}
