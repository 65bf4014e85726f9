// The calls of the C interface over lent memory, each with its answer by value; `refusal` is 0 where the call was accepted. `cabinet_c` exports them to C.
#![tactic(auto)]

ghost use Rattle.std.specs.Prelude.{◌≡◌, length};
ghost use Rattle.loaded.specs.Loading.{load as load_written};
ghost use Rattle.buffers.specs.Buffers.{Answered};
ghost use Rattle.weighing.specs.Weighing.{weigh};
ghost use Rattle.listing.specs.Listing.{list_bytes};
ghost use Rattle.writing.specs.Writing.{write_job};
ghost use Rattle.partnering.specs.Partnering.{partners_bytes};
ghost use Rattle.sweeping.specs.Sweeping.{sweep_bytes};
ghost use Rattle.calls.specs.Steps.{step_bytes};
ghost use Rattle.runs.specs.Runs.{run_bytes};
ghost use Rattle.registers.specs.Registers.{start_of, read_of, line_of};
ghost use Rattle.panel.specs.Access.{held, write_of};
ghost use Rattle.answers.specs.Numbers.{length_numbers, partners_numbers, step_numbers, run_numbers, weight_numbers};

use answers::{
    LengthAnswer, PartnersAnswer, RunAnswer, StepAnswer, WeightAnswer, length_answer,
    partners_answer, run_answer, step_answer, weight_answer,
};
use registers::Panel;

// The job of `free` names and the bytes of a process, at the front of `out`.
pub fn cabinet_write_job(free: u16, process: &[u8], out: &mut [u8]) -> LengthAnswer
    ensures { Answered length_numbers (write_job free process.now (length out.old)) out.old result out.new }
{
    length_answer(writing::write_job(free, process, out))
}

// The state of a job at the front of `out`.
pub fn cabinet_load(job: &[u8], out: &mut [u8]) -> LengthAnswer
    ensures { Answered length_numbers (load_written job.now (length out.old)) out.old result out.new }
{
    length_answer(loading::load(job, out))
}

// The places that can act, ascending, two bytes each, at the front of `out`.
pub fn cabinet_list(state: &[u8], out: &mut [u8]) -> LengthAnswer
    ensures { Answered length_numbers (list_bytes state.now (length out.old)) out.old result out.new }
{
    length_answer(listing::list(state, out))
}

// The lowest partner of a place that can act, or 65,535 for none, and how many partners it has.
pub fn cabinet_partners(state: &[u8], place: u16) -> PartnersAnswer
    ensures { result ≡ partners_numbers (partners_bytes state.now place) }
{
    partners_answer(partnering::partners(state, place))
}

// One step of a state, at a place, with a partner's place or 65,535 for none; the state after it at the front of `out`.
pub fn cabinet_step(state: &[u8], place: u16, partner: u16, out: &mut [u8]) -> StepAnswer
    ensures { Answered step_numbers (step_bytes state.now place partner (length out.old)) out.old result out.new }
{
    step_answer(stepping::step(state, place, partner, out))
}

// Runs a state for at most `budget` steps; its last state at the front of `out`.
pub fn cabinet_run(state: &[u8], budget: u16, out: &mut [u8]) -> RunAnswer
    ensures { Answered run_numbers (run_bytes state.now budget (length out.old)) out.old result out.new }
{
    run_answer(running::run(state, budget, out))
}

// The weight of a state.
pub fn cabinet_weight(state: &[u8]) -> WeightAnswer
    ensures { result ≡ weight_numbers (weigh state.now) }
{
    weight_answer(weighing::weight(state))
}

// A state without its empty ambients whose names stand nowhere else, at the front of `out`.
pub fn cabinet_sweep(state: &[u8], out: &mut [u8]) -> LengthAnswer
    ensures { Answered length_numbers (sweep_bytes state.now (length out.old)) out.old result out.new }
{
    length_answer(sweeping::sweep(state, out))
}

// A start of the front panel: its state has `length` bytes, and every register is 0.
pub fn cabinet_panel_start(panel: &mut Panel, length: u32)
    ensures { panel.new ≡ start_of length }
{
    *panel = registers::start(length);
}

// A read on the panel's bus.
pub fn cabinet_panel_read(panel: &Panel, address: u8) -> u8
    ensures { result ≡ read_of address panel.now }
{
    registers::read(*panel, address)
}

// A write on the panel's bus, with the state's buffer and a second one. No byte of either changes but by an accepted step.
pub fn cabinet_panel_write(
    panel: &mut Panel,
    address: u8,
    value: u8,
    state: &mut [u8],
    spare: &mut [u8],
)
    ensures { held panel.new state.new spare.new ≡ write_of address value (held panel.old state.old spare.old) }
{
    *panel = panel::write(*panel, address, value, state, spare);
}

// The panel's interrupt line: 1 while it is high, otherwise 0.
pub fn cabinet_panel_line(panel: &Panel) -> u8
    ensures { result ≡ line_of panel.now }
{
    registers::line(*panel)
}
