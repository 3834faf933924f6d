//! What a person is told of a conflict.
use answers::Advice;
use explain::Members;
use std::alloc::{AllocError, Global};

/// The command that says in words what the members of a conflict demand.
pub(crate) fn on_members(
    alloc: Global,
    instance: &str,
    members: &Members,
) -> Result<Advice, AllocError> {
    let mut advice = Advice::new(alloc);
    advice.say("robin: robin show ")?;
    advice.show(instance.as_bytes())?;
    advice.say(" --demands '")?;
    say_numbers(&mut advice, members.numbers())?;
    advice.say("' says the demands of the conflict in words\n")?;
    Ok(advice)
}

/// Tells numbers, with `;` between two.
fn say_numbers(advice: &mut Advice, numbers: &[u32]) -> Result<(), AllocError> {
    for (k, number) in numbers.iter().enumerate() {
        if k > 0 {
            advice.say(";")?;
        }
        advice.count(u64::from(*number))?;
    }
    Ok(())
}
