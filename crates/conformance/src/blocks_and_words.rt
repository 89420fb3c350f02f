// Words and blocks: worked examples, and every type in every place of a group.
use blocks::block::Block;
use blocks::refusal::BlockRefusal;
use numbered_refusal::Refusal;
use std::process::Abort;
use std::test::Fail;
use words::refusal::WordRefusal;
use words::word::Word;

// Kept here, though loopback's tests have the same list: no test sees another crate's, and one taken from words would try words on itself.
const TYPES: [u8; 15] = [
    0x1E, 0x2D, 0x33, 0x4B, 0x55, 0x66, 0x78, 0x87, 0x99, 0xAA, 0xB4, 0xCC, 0xD2, 0xE1, 0xFF,
];

// The block with these limbs 0 and 1 and nothing above.
fn low_block(first: u64, second: u64) -> Result<Block, &'static str> {
    Block::new([first, second, 0, 0, 0]).ok_or("a block is too wide")
}

// The words of a block that must be refused.
fn refusal_of(first: u64) -> Result<BlockRefusal, &'static str> {
    let read = low_block(first, 0)?.words();
    read.err().ok_or("the block was read")
}

#[test]
fn makes_words(rt: HostRuntime) -> Result<(), Fail> {
    assert_eq!(rt; Word::new(2, 0x1E)?, Word::Data(0x1E));
    assert_eq!(rt; Word::new(1, 0x0100_0000_0000_001E)?.header(), 1);
    assert_eq!(rt; Word::new(0, 0x1E), Err(WordRefusal::Header));
    assert_eq!(rt; Word::new(3, 0x1E), Err(WordRefusal::Header));
    assert_eq!(rt; Word::new(1, 0x11E)?.body(), 0x11E);
    assert_eq!(rt; Word::new(1, 0x1F), Err(WordRefusal::Unlisted));
    Ok(())
}

#[test]
fn writes_blocks(rt: HostRuntime) -> Result<(), Fail> {
    let zero = Word::Data(0);
    assert_eq!(rt; Block::of(&[zero; 4]), low_block(1, 0)?);
    // bits 2, 3, 4, 6, 7, 8
    assert_eq!(rt;
        Block::of(&[Word::new(1, 0x1E)?, zero, zero, zero]),
        low_block(0x1DC, 0)?
    );
    // bits 1, 3, 4, 72
    assert_eq!(rt;
        Block::of(&[zero, Word::new(1, 0x78)?, zero, zero]),
        low_block(0x1A, 0x100)?
    );
    Ok(())
}

#[test]
fn refuses_blocks(rt: HostRuntime) -> Result<(), Fail> {
    // bits 1 to 4
    assert_eq!(rt; refusal_of(0x1E)?, BlockRefusal::NoControl);
    assert_eq!(rt; refusal_of(0)?, BlockRefusal::NoType { word: 0 });
    // bits 3, 4, 6, 7, 8
    let third = refusal_of(0x1D8)?;
    assert_eq!(rt; third, BlockRefusal::Unlisted { word: 1 });
    assert_eq!(rt; (third.number(), third.layer(), third.place()), (23, 2, 1));
    assert_eq!(rt;
        (
            WordRefusal::Unlisted.number(),
            WordRefusal::Unlisted.place(),
        ),
        (12, 0)
    );
    Ok(())
}

// A group of data words with this one in this place, there and back.
fn carried(rt: &impl Abort, word: Word, place: usize) -> Result<(), Fail> {
    let mut words = [Word::Data(0xFEDC_BA98_7654_3210); 4];
    if let Some(there) = words.get_mut(place) {
        *there = word;
    }
    assert_eq!(rt; Block::of(&words).words()?, words);
    Ok(())
}

#[test]
fn carries_every_type(rt: HostRuntime) -> Result<(), Fail> {
    for listed in TYPES {
        for place in 0..4 {
            carried(
                &rt,
                Word::new(1, 0x8967_4523_0100_0000 + u64::from(listed))?,
                place,
            )?;
        }
    }
    Ok(())
}
