// A write to the front panel, with the state's buffer and a second one lent: the record by value, and what becomes of both buffers.
#![tactic(auto)]

ghost use Rattle.std.specs.Prelude.{◌≡◌};
ghost use Rattle.buffers.specs.Buffers.{Answered};
ghost use Rattle.format.specs.Reading.{word_at};
ghost use Rattle.calls.specs.Calls.{reply_of};
ghost use Rattle.performing.specs.Performing.{reply_in};
ghost use Rattle.panel.specs.Access.{held, asked, answered, obey_of, write_of};

use performing::Step;
use refusals::Refusal;
use registers::Panel;

// The number in two registers from one on.
fn pair(panel: Panel, at: usize) -> u16
    ensures { result ≡ word_at panel.registers at }
{
    format::word(&panel.registers, at) as u16
}

// The step that is asked for, of the state at the front of its buffer, to the front of the second one. A refusal leaves every byte.
fn ask(panel: Panel, state: &[u8], spare: &mut [u8]) -> Result<Step, Refusal>
    ensures { Answered reply_of (asked (held panel state.now spare.old)) spare.old (reply_in result) spare.new }
{
    let n = panel.length as usize;
    if state.len() < n {
        return Err(Refusal::CutShort);
    }
    let place = pair(panel, 4);
    let partner = pair(panel, 6);
    let room = buffers::least(state.len(), spare.len());
    stepping::step(&state[..n], place, partner, &mut spare[..room])
}

// A step: where it is accepted, its result is copied over the state.
fn step(panel: Panel, state: &mut [u8], spare: &mut [u8]) -> Panel
    ensures { held result state.new spare.new
        ≡ answered (asked (held panel state.old spare.old)) (held panel state.old spare.old) }
{
    match ask(panel, state, spare) {
        Err(e) => registers::refused(panel, e.number()),
        Ok(step) => {
            let result = &spare[..step.length];
            buffers::copy(result, state);
            registers::accepted(
                panel,
                step.rule,
                step.length,
                weighing::accepted_weight(result),
            )
        }
    }
}

// A command: 1 step, 2 acknowledge, and nothing else.
#[tactic(auto, unfolding(crate::specs::Access::obey_of, crate::specs::Access::on_panel))]
fn obey(panel: Panel, value: u8, state: &mut [u8], spare: &mut [u8]) -> Panel
    ensures { held result state.new spare.new ≡ obey_of value (held panel state.old spare.old) }
{
    match value {
        1 => step(panel, state, spare),
        2 => registers::acknowledged(panel),
        _ => panel,
    }
}

// A write on the bus. No byte of either buffer changes but by an accepted step.
#[tactic(auto, unfolding(crate::specs::Access::write_of, crate::specs::Access::on_panel))]
pub fn write(panel: Panel, address: u8, value: u8, state: &mut [u8], spare: &mut [u8]) -> Panel
    ensures { held result state.new spare.new ≡ write_of address value (held panel state.old spare.old) }
{
    if address == 0 {
        obey(panel, value, state, spare)
    } else {
        registers::store(panel, address, value)
    }
}
