// Looks in a process for a name that is used both as a box and as a channel, with a set of names for each use.
#![tactic(auto)]

ghost use Rattle.std.specs.Prelude.{◌≡◌, ℕ, ◌≤◌};
ghost use Rattle.calculus.specs.Processes.{Process};
ghost use Rattle.machine.specs.Limits.{free_name_limit};
ghost use Rattle.machine.specs.Validity.{ProcessScoped};
ghost use Rattle.format.specs.Spelling.{encode};
ghost use Rattle.layouts.specs.Layouts.{SpelledProcess};
ghost use Rattle.uses.specs.Uses.{mixed};

use machine::CABINET_NAME;
use sets::SET_WORDS;

// Whether some name of the process is used both as a box and as a channel. The cabinet's name is a box's.
pub fn is_mixed(process: &[u8]) -> bool
    requires { SpelledProcess process.now }
    ensures { (F : ℕ) (P : Process) → process.now ≡ encode P → ProcessScoped F 0 P → F ≤ free_name_limit → result ≡ mixed P }
{
    let mut boxes = [0u64; SET_WORDS];
    let mut channels = [0u64; SET_WORDS];
    sets::put(&mut boxes, CABINET_NAME as usize);
    let mut at = 0;
    while at < process.len() {
        let written = using::written_in(&process[at..]);
        if sets::note(&mut boxes, &channels, written.boxed)
            || sets::note(&mut channels, &boxes, written.channel)
        {
            return true;
        }
        at += written.end;
    }
    false
}
