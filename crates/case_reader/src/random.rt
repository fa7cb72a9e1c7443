//! A memory of random words, of which many make hypercalls. examples/model/random_guests.py makes the same ones.

ghost use Rattle.std.specs.Prelude.{◌<◌};

use anyhow::Result;
use std::alloc::Global;

// `ta 0x70`, which makes a hypercall.
const CALL: u32 = 0x91d0_2070;

// The names of three ports, each a letter, and two words for the time.
const LAST: [u32; 6] = [0x7300_0000, 0x7100_0000, 0x7200_0000, 0, 0, 0];

// Where the names stand: bytes before the end.
const NAMES: u32 = 24;

// What begins with the time in %o3: `ld [%o2 + 4], %o3`, `sll %o3, 4, %o3`, `and %o3, 0x7fc, %o3`.
const TIME: [u32; 3] = [0xd602_a004, 0x972a_e004, 0x960a_e7fc];

// `jmp %o4 + %o3` and a no-op.
const JUMP: [u32; 2] = [0x81c3_000b, 0x0100_0000];

// The calls that write, read or look at the messages of a port.
const MESSAGES: [u32; 6] = [17, 18, 19, 21, 22, 23];

/// Numbers that follow from a seed and look random.
#[derive(Drop)]
struct Draws {
    state: u32,
}

impl Draws {
    fn new(seed: u32) -> Draws {
        Draws {
            state: seed.wrapping_mul(0x9e37_79b1) | 1,
        }
    }

    fn word(&mut self) -> u32 {
        let mut state = self.state;
        state ^= state << 13;
        state ^= state >> 17;
        state ^= state << 5;
        self.state = state;
        state
    }

    fn below(&mut self, count: u32) -> u32
        requires { 0 < count }
        ensures { result < count }
    {
        self.word() % count
    }
}

/// The words of a memory, as far as they are drawn.
#[derive(Drop)]
struct Memory {
    draws: Draws,
    start: u32,
    end: u32,
    words: Vec<u32>,
}

/// The bytes of a memory of this many words at an address; the last words are the names of its ports.
pub(crate) fn random_memory(alloc: Global, start: u32, seed: u32, count: u32) -> Result<Vec<u8>> {
    let mut memory = Memory {
        draws: Draws::new(seed),
        start,
        end: start.wrapping_add(count.wrapping_mul(4)),
        words: Vec::new(alloc),
    };
    memory.put_front()?;
    for _ in 0..count {
        if memory.words.len() < count as usize {
            memory.put_piece()?;
        }
    }
    memory
        .words
        .truncate((count as usize).saturating_sub(LAST.len()));
    memory.put(&LAST)?;
    bytes_of(alloc, &memory.words)
}

// Words as bytes, the high ones first.
fn bytes_of(alloc: Global, words: &[u32]) -> Result<Vec<u8>> {
    let mut bytes = Vec::new(alloc);
    for word in words {
        bytes.extend_from_slice(&word.to_be_bytes())?;
    }
    Ok(bytes)
}

impl Memory {
    fn put(&mut self, words: &[u32]) -> Result<()> {
        self.words.extend_from_slice(words)?;
        Ok(())
    }

    // `mov number, %register`
    fn put_small(&mut self, register: u32, number: u32) -> Result<()> {
        self.put(&[0x8010_2000 | register << 25 | number])
    }

    // `set place, %register`
    fn put_address(&mut self, register: u32, place: u32) -> Result<()> {
        let high = 0x0100_0000 | register << 25 | place >> 10;
        let low = 0x8010_2000 | register << 25 | register << 14 | place & 0x3ff;
        self.put(&[high, low])
    }

    // The first words jump to a place that follows from the clock, so that a guest that is reset goes another way.
    fn put_front(&mut self) -> Result<()> {
        self.put_small(8, 12)?;
        self.put_small(9, 0)?;
        self.put_address(10, self.end.wrapping_sub(8))?;
        self.put(&[CALL])?;
        self.put(&TIME)?;
        self.put_address(12, self.start.wrapping_add(0x40))?;
        self.put(&JUMP)
    }

    // At least one word.
    fn put_piece(&mut self) -> Result<()> {
        match self.draws.below(16) {
            0 => self.put_word(0),
            1 | 2 | 3 => self.put_word(0x8000_0000),
            4 | 5 => self.put_branch(),
            6 | 7 => self.put_access(),
            8 => self.put_port_call(),
            9 | 10 => self.put_message_call(),
            _ => self.put_any_call(),
        }
    }

    // Any word with these bits: with the highest one it is arithmetic, a load or a store.
    fn put_word(&mut self, bits: u32) -> Result<()> {
        let word = self.draws.word();
        self.put(&[bits | word])
    }

    // A branch forwards.
    fn put_branch(&mut self) -> Result<()> {
        let word = self.draws.word();
        self.put(&[0x0080_0000 | word & 0x3e00_003f])
    }

    // A load or a store near what an argument points to.
    fn put_access(&mut self) -> Result<()> {
        let register = self.draws.below(32);
        let base = self.draws.below(5) + 9;
        let operation = self.draws.below(16);
        let place = self.draws.below(16);
        self.put(&[0xc000_2000 | register << 25 | operation << 19 | base << 14 | place << 2])
    }

    // A hypercall that makes one of the three ports, if the direction is the right one.
    fn put_port_call(&mut self) -> Result<()> {
        let port = self.draws.below(3);
        let way = self.draws.below(2);
        let name = self.end.wrapping_sub(NAMES).wrapping_add(port << 2);
        if port == 0 {
            self.put_small(8, 16)?;
            self.put_address(9, name)?;
        } else {
            self.put_small(8, 20)?;
            self.put_address(9, name)?;
            self.put_small(10, 2)?;
        }
        self.put_length_and_way(if port == 0 { 10 } else { 11 }, way)
    }

    // The last arguments of a port, and the call.
    fn put_length_and_way(&mut self, register: u32, way: u32) -> Result<()>
        requires { register < 32 }
    {
        self.put_small(register, 4)?;
        self.put_small(register + 1, way)?;
        self.put(&[CALL])
    }

    // A hypercall on the messages of a port.
    fn put_message_call(&mut self) -> Result<()> {
        let number = MESSAGES[self.draws.below(6) as usize];
        let port = self.draws.below(3);
        let message = self.draw_place();
        let other = self.draw_place();
        self.put_small(8, number)?;
        self.put_small(9, port)?;
        self.put_address(10, message)?;
        self.put_small(11, 4)?;
        self.put_address(12, other)?;
        self.put(&[CALL])
    }

    // The address of a word of the memory's first 4096 bytes.
    fn draw_place(&mut self) -> u32 {
        self.start.wrapping_add(self.draws.below(1024) << 2)
    }

    // A hypercall of any number, with any arguments; few halt the hypervisor.
    fn put_any_call(&mut self) -> Result<()> {
        let number = match self.draws.below(40) {
            9 => self.draws.below(40),
            number => number,
        };
        self.put_small(8, number)?;
        for register in 9..14 {
            self.put_argument(register)?;
        }
        self.put(&[CALL])
    }

    // What an argument is set to: a small number, any number of 13 bits, an address of the memory, or nothing.
    fn put_argument(&mut self, register: u32) -> Result<()> {
        match self.draws.below(4) {
            0 => {
                let number = self.draws.below(8);
                self.put_small(register, number)
            }
            1 => {
                let number = self.draws.below(0x2000);
                self.put_small(register, number)
            }
            2 => {
                let place = self.draws.below(4096);
                self.put_address(register, self.start.wrapping_add(place))
            }
            _ => Ok(()),
        }
    }
}
