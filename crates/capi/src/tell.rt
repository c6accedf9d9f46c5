// What any answer tells a C caller beside its values: every function of this crate ends with it.
ghost use Rattle.std.specs.Prelude.{◌≡◌, []};
ghost use Rattle.capi.specs.Outs.{tells, answer_told};

use refusal::Refusal;

// The number of an answer, 0 for success, and its place written out.
#[tactic(auto, unfolding(crate::specs::Outs::answer_told))]
pub fn told<T>(answer: &Result<T, Refusal>, place: &mut u64) -> u32
    ensures { tells result place.new [] ≡ answer_told answer.now }
{
    match answer {
        Ok(_) => {
            *place = 0;
            0
        }
        Err(refusal) => {
            *place = refusal.place as u64;
            refusal.number()
        }
    }
}
