// The answers of the C interface, by value: `refusal` is 0 where a call was accepted, and where it was not, every other number is 0.
#![tactic(auto)]

ghost use Rattle.std.specs.Prelude.{◌≡◌};
ghost use Rattle.answers.specs.Numbers.{filled_numbers, partnered_numbers, replied_numbers, ended_number, ran_numbers, weighed_numbers};
ghost use Rattle.answers.specs.Small.{SmallFilled, SmallPartnered, SmallReplied, SmallRan, SmallWeighed};

use advancing::Ending;
use machine::ABSENT;
use partnering::PartnerCount;
use performing::Step;
use refusals::Numbered;
use running::Finished;

#[repr(C)]
#[derive(Clone, Copy)]
pub struct LengthAnswer {
    pub refusal: u32,
    pub length: u32,
}

#[repr(C)]
#[derive(Clone, Copy)]
pub struct PartnersAnswer {
    pub refusal: u32,
    pub lowest: u32,
    pub count: u32,
}

#[repr(C)]
#[derive(Clone, Copy)]
pub struct StepAnswer {
    pub refusal: u32,
    pub rule: u32,
    pub length: u32,
}

#[repr(C)]
#[derive(Clone, Copy)]
pub struct RunAnswer {
    pub refusal: u32,
    pub ending: u32,
    pub steps: u32,
    pub length: u32,
}

#[repr(C)]
#[derive(Clone, Copy)]
pub struct WeightAnswer {
    pub refusal: u32,
    pub weight: u32,
}

// Of a call that fills the front of a buffer.
pub fn length_answer<E: Numbered>(filled: Result<usize, E>) -> LengthAnswer
    requires { SmallFilled filled }
    ensures { result ≡ filled_numbers E.told filled }
{
    match filled {
        Err(e) => LengthAnswer {
            refusal: e.told_number().into(),
            length: 0,
        },
        Ok(n) => LengthAnswer {
            refusal: 0,
            length: n as u32,
        },
    }
}

// Of the partners of a place: 65,535 for no partner.
pub fn partners_answer<E: Numbered>(partnered: Result<PartnerCount, E>) -> PartnersAnswer
    requires { SmallPartnered partnered }
    ensures { result ≡ partnered_numbers E.told partnered }
{
    match partnered {
        Err(e) => PartnersAnswer {
            refusal: e.told_number().into(),
            lowest: 0,
            count: 0,
        },
        Ok(partners) => PartnersAnswer {
            refusal: 0,
            lowest: partners.lowest.unwrap_or(ABSENT) as u32,
            count: partners.count as u32,
        },
    }
}

// Of a step.
pub fn step_answer<E: Numbered>(replied: Result<Step, E>) -> StepAnswer
    requires { SmallReplied replied }
    ensures { result ≡ replied_numbers E.told replied }
{
    match replied {
        Err(e) => StepAnswer {
            refusal: e.told_number().into(),
            rule: 0,
            length: 0,
        },
        Ok(step) => StepAnswer {
            refusal: 0,
            rule: step.rule.into(),
            length: step.length as u32,
        },
    }
}

// Of an ending: 0 where all is blocked, 1 where the budget is spent, or the number of the limit.
fn ending_number<E: Numbered>(ending: Ending<E>) -> u32
    ensures { result ≡ ended_number E.told ending }
{
    match ending {
        Ending::Blocked => 0,
        Ending::Spent => 1,
        Ending::Limit(e) => e.told_number().into(),
    }
}

// Of a run.
pub fn run_answer<E: Numbered>(ran: Result<Finished<E>, E>) -> RunAnswer
    requires { SmallRan ran }
    ensures { result ≡ ran_numbers E.told ran }
{
    match ran {
        Err(e) => RunAnswer {
            refusal: e.told_number().into(),
            ending: 0,
            steps: 0,
            length: 0,
        },
        Ok(run) => RunAnswer {
            refusal: 0,
            ending: ending_number(run.ending),
            steps: run.steps as u32,
            length: run.length as u32,
        },
    }
}

// Of the weight of a state.
pub fn weight_answer<E: Numbered>(weighed: Result<usize, E>) -> WeightAnswer
    requires { SmallWeighed weighed }
    ensures { result ≡ weighed_numbers E.told weighed }
{
    match weighed {
        Err(e) => WeightAnswer {
            refusal: e.told_number().into(),
            weight: 0,
        },
        Ok(w) => WeightAnswer {
            refusal: 0,
            weight: w as u32,
        },
    }
}
