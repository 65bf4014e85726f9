// The record of the front panel: how long the state is, and sixteen registers. Each function takes the record by value, and answers a byte of it or gives the record after it.
#![tactic(auto)]

ghost use Rattle.std.specs.Prelude.{◌≡◌, ◌<◌};
ghost use Rattle.registers.specs.Registers.{start_of, read_of, line_of, takes_write, store_of, refused_of, done_bits, accepted_of, acknowledged_of};

#[repr(C)]
#[derive(Clone, Copy)]
pub struct Panel {
    // how many bytes of the state's buffer are the state
    pub length: u32,
    pub registers: [u8; 16],
}

// A start: the length of the state, and every register 0.
pub fn start(length: u32) -> Panel
    ensures { result ≡ start_of length }
{
    Panel {
        length,
        registers: [0; 16],
    }
}

// A read: the register from 1 to 10 of that address, and 0 at any other.
#[tactic(auto, unfolding(crate::specs::Registers::read_of))]
pub fn read(panel: Panel, address: u8) -> u8
    ensures { result ≡ read_of address panel }
{
    match address {
        1..=10 => panel.registers[usize::from(address)],
        _ => 0,
    }
}

// The interrupt line: 1 while a flag and its enable bit are both set, otherwise 0.
#[tactic(auto, unfolding(crate::specs::Registers::line_of))]
pub fn line(panel: Panel) -> u8
    ensures { result ≡ line_of panel }
{
    u8::from(panel.registers[1] & panel.registers[2] != 0)
}

// Whether a register other than the command takes writes: 2, and 4 to 7.
#[tactic(auto, unfolding(crate::specs::Registers::takes_write))]
fn takes_write(address: u8) -> bool
    ensures { result ≡ takes_write address }
{
    matches!(address, 2 | 4..=7)
}

// A write to an address other than the command's.
#[tactic(auto, unfolding(crate::specs::Registers::store_of, crate::specs::Registers::takes_write))]
pub fn store(mut panel: Panel, address: u8, value: u8) -> Panel
    ensures { result ≡ store_of address value panel }
{
    if takes_write(address) {
        panel.registers[usize::from(address)] = value;
    }
    panel
}

// After a refused step: bit 2 of the flags set, bit 1 cleared, and the number of the refusal.
pub fn refused(mut panel: Panel, number: u8) -> Panel
    ensures { result ≡ refused_of number panel }
{
    panel.registers[1] = panel.registers[1] & 0xF9 | 4;
    panel.registers[3] = number;
    panel
}

// The flags that an accepted step sets, by the weight of its result: bit 1, and bit 0 where all is blocked.
#[tactic(auto, unfolding(crate::specs::Registers::done_bits))]
fn done_bits(weight: usize) -> u8
    ensures { result ≡ done_bits weight }
{
    if weight == 0 { 3 } else { 2 }
}

// After an accepted step: its flags, its rule, and the length and the weight of its result.
pub fn accepted(mut panel: Panel, rule: u8, length: usize, weight: usize) -> Panel
    requires { (length < 65536) × (weight < 65536) }
    ensures { result ≡ accepted_of rule length weight panel }
{
    panel.length = length as u32;
    panel.registers[1] = panel.registers[1] & 0xF8 | done_bits(weight);
    panel.registers[8] = rule;
    [panel.registers[9], panel.registers[10]] = (weight as u16).to_be_bytes();
    panel
}

// After an acknowledge: bits 1 and 2 of the flags cleared.
pub fn acknowledged(mut panel: Panel) -> Panel
    ensures { result ≡ acknowledged_of panel }
{
    panel.registers[1] &= 0xF9;
    panel
}
