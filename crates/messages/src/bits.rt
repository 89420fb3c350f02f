// Bits to symbols and back, up to 64 at a time, by way of an accumulator.
ghost use Rattle.std.specs.Prelude.{◌≡◌, ◌+◌, ◌*◌, ◌/◌, ◌%◌, ◌^◌, ◌<◌, ◌≤◌, [], length};
ghost use Rattle.symbols.specs.Symbols.{Symbols};
ghost use Rattle.blocks.specs.Packed.{packed};

use blocks::block::Block;
use std::marker::Model;

// Writes bits as symbols: `fill` bits, fewer than ten, wait in `acc` above the first `at` symbols of `out`, which are
// written. A place beside the whole slice: a slice that shrinks would let go of what the contracts speak of.
#[derive(Drop)]
pub(crate) struct Writer<'a> {
    out: &'a mut [u16],
    at: usize,
    acc: u128,
    fill: u32,
    ghost held: { acc < 2 ^ fill },
    ghost few: { fill < 10 },
}

impl<'a> Writer<'a> {
    ghost use Rattle.messages.specs.Writers.{count, Pushed};

    pub(crate) fn new(out: &'a mut [u16]) -> Writer<'a>
        ensures same { result.out.ghost_name ≡ out.entry.ghost_name }
        ensures out { result.out.now ≡ out.old }
        ensures at { result.at ≡ 0 }
        ensures acc { result.acc ≡ 0 }
        ensures fill { result.fill ≡ 0 }
    {
        Writer {
            out,
            at: 0,
            acc: 0,
            fill: 0,
        }
    }

    fn push(&mut self, value: u64, width: u32)
        requires narrow { (value < 2 ^ width) × (width ≤ 64) }
        requires room { count self.old + width ≤ 10 * length self.old.out.now }
        ensures same { self.new.out.ghost_name ≡ self.old.out.ghost_name }
        ensures bits { Pushed value width self.old self.new }
    {
        let mut acc = self.acc + ((value as u128) << self.fill);
        let fill = self.fill + width;
        let end = self.at + (fill / 10) as usize;
        for symbol in self.out[self.at..end].iter_mut() {
            *symbol = (acc % 1024) as u16;
            acc /= 1024;
        }
        self.acc = acc;
        self.fill = fill % 10;
        self.at = end;
    }

    pub(crate) fn push_block(&mut self, block: &Block)
        requires room { count self.old + 257 ≤ 10 * length self.old.out.now }
        ensures same { self.new.out.ghost_name ≡ self.old.out.ghost_name }
        ensures bits { Pushed (packed 64 block.now.limbs) 257 self.old self.new }
    {
        let [a, b, c, d, top] = block.limbs;
        for limb in [a, b, c, d] {
            self.push(limb, 64);
        }
        self.push(top, 1);
    }
}

// Reads symbols as bits: `fill` bits, fewer than ten, wait in `acc` below the symbols that are still to be read.
#[derive(Drop)]
pub(crate) struct Reader<'a> {
    symbols: &'a [u16],
    acc: u128,
    fill: u32,
}

// A reader is the bits that are still to be read, and how many they are.
impl<'a> Model for Reader<'a> {
    ghost use Rattle.messages.specs.Readers.{Ahead, ahead, Waiting};

    ghost Value = { Ahead };

    ghost view = { λ r. ahead r.acc r.fill r.symbols.now };

    ghost invariant = { λ r. Waiting r.acc r.fill r.symbols.now };
}

impl<'a> Reader<'a> {
    // That the numbers are symbols is a clause, one word; a type round a lent message would be taken off at the next call.
    pub(crate) fn new(symbols: &'a [u16]) -> Reader<'a>
        requires { Symbols symbols.now }
        ensures bits { result.bits ≡ packed 10 symbols.now }
        ensures count { result.count ≡ 10 * length symbols.now }
    {
        Reader {
            symbols,
            acc: 0,
            fill: 0,
        }
    }

    fn pull(&mut self, width: u32) -> u64
        requires narrow { width ≤ 64 }
        requires room { width ≤ self.old.count }
        ensures value { result ≡ self.old.bits % 2 ^ width }
        ensures bits { self.new.bits ≡ self.old.bits / 2 ^ width }
        ensures count { self.new.count + width ≡ self.old.count }
    {
        while self.fill < width {
            let (symbol, rest) = self.symbols.split_first().unwrap();
            self.acc += (*symbol as u128) << self.fill;
            self.symbols = rest;
            self.fill += 10;
        }
        let value = (self.acc & ((1u128 << width) - 1)) as u64;
        self.acc >>= width;
        self.fill -= width;
        value
    }

    pub(crate) fn pull_block(&mut self) -> Block
        requires { 257 ≤ self.old.count }
        ensures value { packed 64 result.limbs ≡ self.old.bits % 2 ^ 257 }
        ensures bits { self.new.bits ≡ self.old.bits / 2 ^ 257 }
        ensures count { self.new.count + 257 ≡ self.old.count }
    {
        // Five limbs by name: a loop over four of them and then the last is no shorter.
        let a = self.pull(64);
        let b = self.pull(64);
        let c = self.pull(64);
        let d = self.pull(64);
        let top = self.pull(1);
        Block {
            limbs: [a, b, c, d, top],
        }
    }
}
