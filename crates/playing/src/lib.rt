// The cases of the front panel: a list of accesses to a panel, five bytes each.
#![tactic(auto)]

ghost use Rattle.std.specs.Prelude.{◌≤◌, length};

use registers::Panel;

// What is made at the panel.
#[derive(Clone, Copy)]
enum Access {
    // how many bytes of its second buffer are lent
    Write { address: u8, value: u8, room: u16 },
    Read(u8),
    Line,
    // how many bytes of the state's buffer are the state
    Start(u16),
}

// An access in five bytes is 0 a write, 1 a read, 2 a look at the line, 3 a start; then the address, the value, and a number in two bytes.
impl From<[u8; 5]> for Access {
    fn from([kind, address, value, high, low]: [u8; 5]) -> Self {
        let number = u16::from_be_bytes([high, low]);
        match kind {
            0 => Self::Write {
                address,
                value,
                room: number,
            },
            1 => Self::Read(address),
            2 => Self::Line,
            _ => Self::Start(number),
        }
    }
}

// The panel after an access.
fn play(panel: Panel, access: Access, state: &mut [u8], spare: &mut [u8]) -> Panel {
    match access {
        Access::Write {
            address,
            value,
            room,
        } => {
            let room = usize::from(room).min(spare.len());
            panel::write(panel, address, value, state, &mut spare[..room])
        }
        Access::Read(_) | Access::Line => panel,
        Access::Start(length) => registers::start(u32::from(length)),
    }
}

// What an access reads.
fn look(panel: Panel, access: Access) -> u8 {
    match access {
        Access::Read(address) => registers::read(panel, address),
        Access::Line => registers::line(panel),
        Access::Write { .. } | Access::Start(_) => 0,
    }
}

// Copies a piece behind the first `at` bytes of a buffer, as far as it goes; where the next one stands.
fn put(piece: &[u8], out: &mut [u8], at: usize) -> usize
    ensures { result ≤ length out.new }
{
    let start = at.min(out.len());
    buffers::copy(piece, &mut out[start..]);
    start + piece.len().min(out.len() - start)
}

// Puts a panel the same way: its length in four bytes, and its registers.
fn put_panel(panel: Panel, out: &mut [u8], at: usize) {
    let next = put(&panel.length.to_be_bytes(), out, at);
    put(&panel.registers, out, next);
}

// Puts both buffers and the panel the same way.
fn tell(panel: Panel, state: &[u8], spare: &[u8], out: &mut [u8], at: usize) {
    let first = put(state, out, at);
    let second = put(spare, out, first);
    put_panel(panel, out, second);
}

// Makes at most 8,000 accesses, and puts to the front of `out` what each of them read, both buffers, and the panel.
fn play_all(accesses: &[u8], state: &mut [u8], spare: &mut [u8], out: &mut [u8]) {
    let (all, _) = accesses.as_chunks::<5>();
    let made = &all[..all.len().min(8000)];
    let mut panel = registers::start(0);
    for (at, bytes) in made.iter().enumerate() {
        let access = Access::from(*bytes);
        put(&[look(panel, access)], out, at);
        panel = play(panel, access, state, spare);
    }
    tell(panel, state, spare, out, made.len());
}

// The accesses are the first bytes of a case's input, and the rest of it is in the state's buffer at first.
pub fn make_accesses(header: &[u8], input: &[u8], out: &mut [u8]) {
    let (accesses, rest) = input.split_at(format::word(header, 6).min(input.len()));
    let mut state = [0; 16000];
    let size = put(rest, &mut state, 0);
    let mut spare = [0xA5; 16000];
    let room = format::word(header, 10).min(16000);
    play_all(accesses, &mut state[..size], &mut spare[..room], out);
}
