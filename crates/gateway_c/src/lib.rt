// The list maker for C: the function of the crate `gateway` under its own name, with the same contract. restore_list.h beside that crate tells a C programmer all of it.
#![tactic(auto)]

ghost use Rattle.gateway.specs.Restored.{Restored};

// The list's length in bytes, or which image is refused and why, "then -8 for room".
#[unsafe(no_mangle)]
pub extern "C" fn restore_list(current: &[u8], wanted: &[u8], list: &mut [u8]) -> i32
    ensures { Restored current.now wanted.now list.old list.new result }
{
    gateway::restore_list(current, wanted, list)
}
